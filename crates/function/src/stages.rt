//! The lookups and lines of the active stages.
ghost use Rattle.std.specs.Prelude.{◌<◌, suc, ◌≡◌, cond, None, Some};
ghost use Rattle.text.specs.Text.{when};
ghost use Rattle.text.specs.Buffer.{Wrote};
ghost use Rattle.combiners.specs.Codes.{bit};
ghost use Rattle.cascade.specs.Keys.{active};
ghost use Rattle.cascade.specs.Reading.{lookups_of};
ghost use Rattle.shader.specs.Lookups.{lookup_of, before_of, sample_text};
ghost use Rattle.shader.specs.Output.{lod_bias};
ghost use Rattle.shader.specs.Whole.{stage_line, stages_text};

use crate::Place;
use bumps::put_sample;
use cascade::Expressions;
use cascade::decode::decode;
use cascade::keys::{is_bump, textured, to_temp};
use cascade::reading::{is_lined, is_luminance};
use cascade::surveyed::Surveyed;
use expressions::line::put_line;
use shader::{BumpStage, Sampling};
use values::{Stage, StageIndex, Variant};
use variants::bits::{Flag, bit, has};
use variants::kinds::lookup_of;

#[tactic(auto, unfolding(shader::specs::Lookups::before_of))]
fn before_of(i: StageIndex, s: Stage) -> Option<BumpStage>
    ensures { result ≡ before_of i s }
{
    if is_bump(s) {
        Some(BumpStage {
            stage: i,
            textured: textured(s),
            luminance: is_luminance(s),
        })
    } else {
        None
    }
}

fn sampling_of(v: Variant, projected: u8, i: StageIndex) -> Sampling
    ensures { result ≡ record { stage = i; lookup = lookup_of v i; lod = lod_bias v; projected = bit projected i } }
{
    let n = i.number();
    Sampling {
        stage: i,
        lookup: lookup_of(v, n),
        lod: has(v, Flag::LodBias),
        projected: bit(projected as u16, n),
    }
}

// The lookup of stage i, where it is marked, and one more lookup counted. Only then its sampling is made, so what it is made of stands among the parameters.
fn put_marked(
    out: &mut [u8],
    from: Place,
    marked: bool,
    before: Option<BumpStage>,
    v: Variant,
    projected: u8,
    i: StageIndex,
) -> Place
    requires { from.lookups < 8 }
    ensures wrote { Wrote out.old from.at out.new result.at
        (when marked (sample_text before (lookup_of v i) (lod_bias v) (bit projected i) i)) }
    ensures lookups_value { result.lookups ≡ cond marked (suc from.lookups) from.lookups }
{
    if marked {
        return Place {
            at: put_sample(out, from.at, before, sampling_of(v, projected, i)),
            lookups: from.lookups + 1,
        };
    }
    from
}

// The line of stage i, where it has one.
#[tactic(auto, unfolding(shader::specs::Whole::stage_line))]
fn put_stage_line(
    out: &mut [u8],
    at: usize,
    alive: bool,
    s: Stage,
    e: Expressions,
    i: StageIndex,
) -> usize
    ensures { Wrote out.old at out.new result (stage_line alive i s (Some e)) }
{
    if is_lined(alive, s) {
        return put_line(out, at, e, i, textured(s), to_temp(s));
    }
    at
}

pub(crate) fn put_stages(out: &mut [u8], at: usize, s: &Surveyed, v: Variant) -> Place
    ensures wrote { Wrote out.old at out.new result.at
        (stages_text v s.now.key.projected s.now.survey.live None 0 (active s.now.key.stages)) }
    ensures lookups_value { result.lookups ≡ lookups_of s.now.survey.live (active s.now.key.stages) }
{
    let alive = s.survey.live;
    let mut before = None;
    let mut place = Place { at, lookups: 0 };
    for (i, stage) in s.active().iter().enumerate() {
        let n = StageIndex::new(i as u8);
        let marked = bit(s.survey.marks as u16, i as u8);
        place = put_marked(out, place, marked, before, v, s.key.projected, n);
        before = before_of(n, *stage);
        // A bump stage has no expressions, and so no line.
        let Some(e) = decode(*stage) else {
            continue;
        };
        place.at = put_stage_line(out, place.at, alive, *stage, e, n);
    }
    place
}
