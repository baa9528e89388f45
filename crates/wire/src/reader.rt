//! The reader: the record at the front of some bytes, or why there is none.
//!
//! A body is a slice, whose least length a `requires` names: it may go on behind that, and an array would ask more of callers. Nor could a function for
//! keys of both kinds name an array, since no const argument is computed. A body and its kind stay two parameters of `record_from_body` and `specular_in`:
//! the two are `read_as` taken apart, which has asked for the length, and a struct of both would be made and looked at once. Sizes and places that differ in a
//! constant are functions of their own, each under the name of its definition.
ghost use Rattle.std.specs.Prelude.{◌+◌, ◌*◌, ◌≤◌, ◌<◌, ◌≡◌, drop, length};
ghost use Rattle.values.specs.Refusals.{answer_number};
ghost use Rattle.wire.specs.Bodies.{body_length, entry_from_body, key_from_body, key_kind, mask_at, record_from_body, specular_at};
ghost use Rattle.wire.specs.Bodies.{stage_from_bytes, stage_size, stages_from_bytes, state_from_body, variant_from_body};
ghost use Rattle.wire.specs.Reading.{read_as, read_record, record_number, specular_in};

use crate::checks::check_record;
use crate::{Kind, Reading, Record, body_length, record_length};
use states::DEFAULT_ARG0;
use values::{Combiner, Entry, Key, NAME_LENGTH, Refusal, STAGES, Stage, StateWrite, Variant};

// How many bytes a stage has in a key of each kind.
pub const STAGE_BYTES: usize = 7;

const WIDE_STAGE_BYTES: usize = 9;

// Where specular add stands in a key's body, behind the eight stages; the projected mask stands behind it.
pub const SPECULAR_AT: usize = STAGES * STAGE_BYTES;

const WIDE_SPECULAR_AT: usize = STAGES * WIDE_STAGE_BYTES;

pub fn stage_size(wide: bool) -> usize
    ensures { result ≡ stage_size wide }
{
    if wide { WIDE_STAGE_BYTES } else { STAGE_BYTES }
}

pub fn specular_at(wide: bool) -> usize
    ensures { result ≡ specular_at wide }
{
    if wide { WIDE_SPECULAR_AT } else { SPECULAR_AT }
}

// The stage whose bytes begin at a place: nine of them, if it is wide, or seven, with the default for its arguments 0.
pub(crate) fn stage_at(body: &[u8], at: usize, wide: bool) -> Stage
    requires { at + stage_size wide ≤ length body.now }
    ensures { result ≡ stage_from_bytes wide (drop at body.now) }
{
    let (colour_arg0, alpha_arg0, flags) = if wide {
        (body[at + 6], body[at + 7], body[at + 8])
    } else {
        (DEFAULT_ARG0, DEFAULT_ARG0, body[at + 6])
    };
    Stage {
        colour: Combiner {
            op: body[at],
            arg1: body[at + 1],
            arg2: body[at + 2],
            arg0: colour_arg0,
        },
        alpha: Combiner {
            op: body[at + 3],
            arg1: body[at + 4],
            arg2: body[at + 5],
            arg0: alpha_arg0,
        },
        flags,
    }
}

// The kind of key is a value here and no const parameter: in a function with one that is a bool the check of `from_fn` stops with an error of its own.
fn stages_from_body(body: &[u8], wide: bool) -> [Stage; 8]
    requires { body_length (key_kind wide) ≤ length body.now }
    ensures { result ≡ stages_from_bytes wide 8 body.now }
{
    std::array::from_fn(|i| stage_at(body, stage_size(wide) * i, wide))
}

// A key of kind 6, if it is wide, or of kind 1.
#[tactic(auto, unfolding(crate::specs::Bodies::key_from_body))]
pub fn key_from_body<const WIDE: bool>(body: &[u8]) -> Key
    requires { body_length (key_kind WIDE) ≤ length body.now }
    ensures { result ≡ key_from_body WIDE body.now }
{
    let at = specular_at(WIDE);
    Key {
        stages: stages_from_body(body, WIDE),
        specular_add: body[at] == 1,
        projected: body[at + 1],
        wide: WIDE,
    }
}

// The mask of the two bytes at a place, the low byte first.
fn mask_at(body: &[u8], at: usize) -> u16
    requires { at + 1 < length body.now }
    ensures { result ≡ mask_at body.now at }
{
    u16::from_le_bytes([body[at], body[at + 1]])
}

#[tactic(auto, unfolding(crate::specs::Bodies::variant_from_body))]
pub fn variant_from_body(body: &[u8]) -> Variant
    requires { body_length Kind.Variant ≤ length body.now }
    ensures { result ≡ variant_from_body body.now }
{
    Variant {
        alpha_func: body[0],
        fog_mode: body[1],
        fog_table_mode: body[2],
        depth_sampler: mask_at(body, 3),
        depth_fetch: mask_at(body, 5),
        fetch4: mask_at(body, 7),
        fetch4_alpha: mask_at(body, 9),
        raw_depth_red: mask_at(body, 11),
        volume: mask_at(body, 13),
        cube: mask_at(body, 15),
        sample_mask: body[17],
        flags: body[18],
    }
}

#[tactic(auto, unfolding(crate::specs::Bodies::entry_from_body))]
pub fn entry_from_body(body: &[u8]) -> Entry
    requires { body_length Kind.Entry ≤ length body.now }
    ensures { result ≡ entry_from_body body.now }
{
    let name = body[1..].first_chunk::<NAME_LENGTH>().unwrap();
    Entry {
        len: body[0],
        name: *name,
    }
}

// The value's four bytes have the low one first.
#[tactic(auto, unfolding(crate::specs::Bodies::state_from_body))]
pub fn state_from_body(body: &[u8]) -> StateWrite
    requires { body_length Kind.State ≤ length body.now }
    ensures { result ≡ state_from_body body.now }
{
    StateWrite {
        stage: body[0],
        state: body[1],
        value: u32::from_le_bytes([body[2], body[3], body[4], body[5]]),
    }
}

fn record_from_body(kind: Kind, body: &[u8]) -> Record
    requires { body_length kind ≤ length body.now }
    ensures { result ≡ record_from_body kind body.now }
{
    match kind {
        Kind::Key => Record::Key(key_from_body::<false>(body)),
        Kind::Variant => Record::Variant(variant_from_body(body)),
        Kind::Entry => Record::Entry(entry_from_body(body)),
        Kind::Emit => Record::Emit,
        Kind::State => Record::State(state_from_body(body)),
        Kind::WideKey => Record::WideKey(key_from_body::<true>(body)),
    }
}

// The byte of specular add, which is a yes or no in the value of a key. A kind without one has 0, which is no cause.
fn specular_in(kind: Kind, body: &[u8]) -> u8
    requires { body_length kind ≤ length body.now }
    ensures { result ≡ specular_in kind body.now }
{
    match kind {
        Kind::Key => body[specular_at(false)],
        Kind::WideKey => body[specular_at(true)],
        _ => 0,
    }
}

#[tactic(auto, unfolding(crate::specs::Reading::read_as, crate::specs::Reading::read_body))]
fn read_as(kind: Kind, body: &[u8]) -> Result<Reading, Refusal>
    ensures { result ≡ read_as kind body.now }
{
    if body.len() < body_length(kind) {
        return Err(Refusal::CutShort);
    }
    let record = record_from_body(kind, body);
    check_record(&record)?;
    if 1 < specular_in(kind, body) {
        return Err(Refusal::SpecularAdd);
    }
    Ok(Reading {
        record,
        length: record_length(kind),
    })
}

// The record at the front of the bytes. Those behind it are not looked at.
#[tactic(auto, unfolding(crate::specs::Reading::read_record, crate::specs::Reading::record_number), using(crate::proofs::Found::read_number_lem))]
pub fn read(bytes: &[u8]) -> Result<Reading, Refusal>
    ensures record { result ≡ read_record bytes.now }
    ensures number { answer_number result ≡ record_number bytes.now }
{
    let (byte, body) = bytes.split_first().ok_or(Refusal::CutShort)?;
    read_as(Kind::try_from(*byte)?, body)
}
