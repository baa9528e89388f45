//! The writer: a record's bytes at the front of a lent buffer, or why there are none.
ghost use Rattle.std.specs.Prelude.{◌≡◌, ◌≤◌, ◌++◌, drop, length};
ghost use Rattle.text.specs.Text.{raw};
ghost use Rattle.text.specs.Buffer.{Wrote};
ghost use Rattle.values.specs.Refusals.{answer_number};
ghost use Rattle.wire.specs.Bodies.{body_bytes, body_length, kind_of, record_bytes, record_length};
ghost use Rattle.wire.specs.Bodies.{entry_bytes, key_bytes, mask_bytes, masks_bytes, stage_bytes, stages_bytes, state_bytes, variant_bytes};
ghost use Rattle.wire.specs.Writing.{after_writing, write_answer, written_number};

use crate::checks::check_record;
use crate::{Record, record_length};
use text::put;
use values::{Entry, Key, Refusal, Stage, StateWrite, Variant};

// A stage of nine bytes, if it is wide, or of seven.
pub(crate) fn put_stage(out: &mut [u8], at: usize, s: Stage, wide: bool) -> usize
    ensures { Wrote out.old at out.new result (raw (stage_bytes wide s)) }
{
    let (c, a) = (s.colour, s.alpha);
    if wide {
        let nine = [
            c.op, c.arg1, c.arg2, a.op, a.arg1, a.arg2, c.arg0, a.arg0, s.flags,
        ];
        return put(out, at, &nine);
    }
    let seven = [c.op, c.arg1, c.arg2, a.op, a.arg1, a.arg2, s.flags];
    put(out, at, &seven)
}

fn put_stages(out: &mut [u8], at: usize, stages: &[Stage; 8], wide: bool) -> usize
    ensures { Wrote out.old at out.new result (raw (stages_bytes wide stages.now)) }
{
    let mut p = at;
    for s in stages {
        p = put_stage(out, p, *s, wide);
    }
    p
}

fn put_key(out: &mut [u8], at: usize, key: Key, wide: bool) -> usize
    ensures { Wrote out.old at out.new result (raw (key_bytes wide key)) }
{
    let a = put_stages(out, at, &key.stages, wide);
    put(out, a, &[u8::from(key.specular_add), key.projected])
}

fn put_mask(out: &mut [u8], at: usize, mask: u16) -> usize
    ensures { Wrote out.old at out.new result (raw (mask_bytes mask)) }
{
    put(out, at, &mask.to_le_bytes())
}

fn put_masks(out: &mut [u8], at: usize, v: Variant) -> usize
    ensures { Wrote out.old at out.new result (raw (masks_bytes v)) }
{
    let masks = [
        v.depth_sampler,
        v.depth_fetch,
        v.fetch4,
        v.fetch4_alpha,
        v.raw_depth_red,
        v.volume,
        v.cube,
    ];
    let mut p = at;
    for mask in masks {
        p = put_mask(out, p, mask);
    }
    p
}

fn put_variant(out: &mut [u8], at: usize, v: Variant) -> usize
    ensures { Wrote out.old at out.new result (raw (variant_bytes v)) }
{
    let a = put(out, at, &[v.alpha_func, v.fog_mode, v.fog_table_mode]);
    let b = put_masks(out, a, v);
    put(out, b, &[v.sample_mask, v.flags])
}

fn put_entry(out: &mut [u8], at: usize, entry: Entry) -> usize
    ensures { Wrote out.old at out.new result (raw (entry_bytes entry)) }
{
    let a = put(out, at, &[entry.len]);
    put(out, a, &entry.name)
}

fn put_state(out: &mut [u8], at: usize, write: StateWrite) -> usize
    ensures { Wrote out.old at out.new result (raw (state_bytes write)) }
{
    let a = put(out, at, &[write.stage, write.state]);
    put(out, a, &write.value.to_le_bytes())
}

// The record's kind says whether a key is written as wide.
#[tactic(auto, unfolding(crate::specs::Bodies::body_bytes))]
fn put_body(out: &mut [u8], at: usize, record: Record) -> usize
    ensures written { Wrote out.old at out.new result (raw (body_bytes «record»)) }
    ensures size { length (body_bytes «record») ≡ body_length (kind_of «record») }
{
    match record {
        Record::Key(key) => put_key(out, at, key, false),
        Record::Variant(variant) => put_variant(out, at, variant),
        Record::Entry(entry) => put_entry(out, at, entry),
        Record::Emit => at,
        Record::State(write) => put_state(out, at, write),
        Record::WideKey(key) => put_key(out, at, key, true),
    }
}

fn put_record(out: &mut [u8], record: Record)
    requires { record_length (kind_of «record») ≤ length out.old }
    ensures { out.new ≡ record_bytes «record» ++ drop (length (record_bytes «record»)) out.old }
{
    let a = put(out, 0, &[u8::from(record.kind())]);
    put_body(out, a, record);
}

#[tactic(auto, using(crate::proofs::Written::write_number_lem))]
pub fn write(record: Record, out: &mut [u8]) -> Result<usize, Refusal>
    ensures answer { result ≡ write_answer «record» (length out.old) }
    ensures buffer { out.new ≡ after_writing result (record_bytes «record») out.old }
    ensures number { answer_number result ≡ written_number «record» (length out.old) }
{
    check_record(&record)?;
    let n = record_length(record.kind());
    if out.len() < n {
        return Err(Refusal::NoRoom);
    }
    put_record(out, record);
    Ok(n)
}
