//! Values that can be emitted as they are, and their text.
ghost use Rattle.std.specs.Prelude.{◌≡◌, ◌≤◌, ◌<◌, length, IfErr, IfOk, OnOk};
ghost use Rattle.text.specs.Text.{flat};
ghost use Rattle.cascade.specs.Keys.{active};
ghost use Rattle.cascade.specs.Effective.{effective_stages};
ghost use Rattle.cascade.specs.Reading.{lookups_of};
ghost use Rattle.shader.specs.Results.{answer_of, buffer_after, emission_number, in_front, text_of};
ghost use Rattle.shader.specs.Whole.{whole_text};
ghost use Rattle.shader.specs.Demand.{Demanded};
ghost use Rattle.values.specs.Admitted.{Admitted};
ghost use Rattle.values.specs.Refusals.{answer_number};

use cascade::surveyed::Surveyed;
use combiners::codes::D3DCMP_ALWAYS;
use function::{Place, put_whole};
use text::put;
use values::{Emitted, Entry, Key, Refusal, Variant};

// The longest text, of a key of kind 6 with an entry of 32 bytes.
const MOST_TEXT: usize = 6657;

// Writes the text of a key with the stages that take effect to the front of out, if it fits; else out stays. A buffer as long as the longest text takes
// it at once, and for a shorter one it is written aside.
fn put_text(out: &mut [u8], s: Surveyed, v: Variant, e: Entry) -> Result<Place, Refusal>
    requires { e.len ≤ 32 }
    ensures place { IfOk result (λ place. (place.at ≡ length (flat (whole_text s.key v e)))
        × (place.lookups ≡ lookups_of s.survey.live (active s.key.stages))) }
    ensures fits { OnOk result ((length (flat (whole_text s.key v e)) ≤ length out.old)
        × (out.new ≡ in_front (flat (whole_text s.key v e)) out.old)) }
    ensures over { IfErr result (λ refusal. (refusal ≡ Refusal.NoRoom)
        × ((length out.old < length (flat (whole_text s.key v e))) × (out.new ≡ out.old))) }
{
    let takes_any = MOST_TEXT <= out.len();
    if takes_any {
        return Ok(put_whole(out, &s, v, e));
    }
    let mut aside = [0u8; MOST_TEXT];
    let w = put_whole(&mut aside, &s, v, e);
    let short = out.len() < w.at;
    if short {
        return Err(Refusal::NoRoom);
    }
    put(out, 0, &aside[..w.at]);
    Ok(w)
}

// A key whose stages take effect as they are, a variant and an entry, free of the causes 3, 5, 6 and 13. They are lent: with a key of its own an
// everyday text took 4% longer.
#[derive(Clone, Copy)]
pub struct Emittable<'a> {
    pub key: &'a Key,
    pub variant: &'a Variant,
    pub entry: &'a Entry,
    pub ghost effective: { effective_stages key.now ≡ key.now.stages },
    pub ghost free: { Admitted key.now variant.now entry.now },
}

impl<'a> Emittable<'a> {
    // Writes the text to the front of out; bytes behind it stay. A refusal leaves out as it was.
    #[tactic(auto, using(crate::proofs::Answers::entry_short, crate::proofs::Answers::no_room, crate::proofs::Answers::numbered))]
    pub fn emit(&self, out: &mut [u8]) -> Result<Emitted, Refusal>
        ensures answer { result ≡ answer_of self.now.key.now self.now.variant.now self.now.entry.now (length out.old) }
        ensures buffer { out.new ≡ buffer_after result (text_of self.now.key.now self.now.variant.now self.now.entry.now) out.old }
        ensures names { Demanded self.now.key.now result out.new }
        ensures number { answer_number result ≡ emission_number self.now.key.now self.now.variant.now self.now.entry.now (length out.old) }
    {
        let surveyed = Surveyed::new(*self.key);
        let written = put_text(out, surveyed, *self.variant, *self.entry)?;
        let survey = surveyed.survey;
        Ok(Emitted {
            length: written.at,
            mask: survey.mask,
            rows: survey.rows,
            lookups: written.lookups,
            warnings: survey.warnings,
            alpha_warning: D3DCMP_ALWAYS < self.variant.alpha_func,
        })
    }
}
