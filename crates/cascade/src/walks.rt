//! What a key says before any byte of text. Each walk goes from the last active stage to the first, as the rules speak of the stages behind one.
ghost use Rattle.std.specs.Prelude.{◌≤◌, ◌≡◌, length};
ghost use Rattle.cascade.specs.Survey.{survey_of};
ghost use Rattle.cascade.specs.Walks.{facts_of, add_fact, marks_from, add_mark, mask_with, rows_by};

use crate::Survey;
use crate::keys::{
    active_count, blends_by_factor, is_bump, names_factor, reads_constant, textured,
};
use crate::plain::is_plain;
use crate::reading::{is_lined, is_luminance, reads_temp, reads_texel};
use crate::warnings::{warns_modifier, warns_op, warns_selector};
use values::{Key, Stage, Warnings};

// What the stages say each by itself, where the first of them is stage 0: the mask, the rows, whether TEMP is read, and the stages that warn.
#[derive(Clone, Copy, Default)]
struct Facts {
    mask: u8,
    rows: u8,
    live: bool,
    warnings: Warnings,
}

// What they say once it is known whether TEMP is live: whether the first is marked, all marks, and whether `bump_env` is read.
#[derive(Clone, Copy, Default)]
struct Marks {
    next: bool,
    marks: u8,
    bump_env: bool,
}

// The mask of the stages behind one, with that one's bit in front of theirs. A byte has room for eight.
fn mask_with(here: bool, behind: u8) -> u8
    ensures { result ≡ mask_with here behind }
{
    u8::from(here) + (behind << 1)
}

// The rows with one stage more in front, by whether it reads its constant or names the factor: row 0 is the factor's, row i + 1 the constant of stage i.
fn rows_by(later: u8, constant: bool, factor: bool) -> u8
    ensures { result ≡ rows_by constant factor later }
{
    if 1 < later {
        return later.wrapping_add(1);
    }
    if constant {
        return 2;
    }
    if factor { 1 } else { later }
}

fn add_fact(f: Facts, s: Stage) -> Facts
    ensures { result ≡ add_fact s f }
{
    let mask = mask_with(textured(s), f.mask);
    let op = mask_with(warns_op(s), f.warnings.op);
    if is_plain(s) {
        return Facts {
            mask,
            rows: rows_by(f.rows, false, blends_by_factor(s)),
            live: f.live,
            warnings: Warnings {
                op,
                selector: mask_with(false, f.warnings.selector),
                modifier: mask_with(false, f.warnings.modifier),
            },
        };
    }
    Facts {
        mask,
        rows: rows_by(f.rows, reads_constant(s), names_factor(s)),
        live: (!is_bump(s) & reads_temp(s)) | f.live,
        warnings: Warnings {
            op,
            selector: mask_with(warns_selector(s), f.warnings.selector),
            modifier: mask_with(warns_modifier(s), f.warnings.modifier),
        },
    }
}

fn facts_of(stages: &[Stage]) -> Facts
    requires { length stages.now ≤ 8 }
    ensures { result ≡ facts_of stages.now }
{
    stages
        .iter()
        .rev()
        .fold(Facts::default(), |f, s| add_fact(f, *s))
}

fn add_mark(m: Marks, s: Stage, alive: bool) -> Marks
    ensures { result ≡ add_mark alive s m }
{
    let bump = is_bump(s);
    let t = textured(s);
    let here = (bump & (t & m.next)) | (!bump & (is_lined(alive, s) & reads_texel(s)));
    let env = (bump & (m.next & (t | is_luminance(s)))) | m.bump_env;
    Marks {
        next: here,
        marks: mask_with(here, m.marks),
        bump_env: env,
    }
}

fn marks_from(stages: &[Stage], alive: bool) -> Marks
    requires { length stages.now ≤ 8 }
    ensures { result ≡ marks_from alive stages.now }
{
    stages
        .iter()
        .rev()
        .fold(Marks::default(), |m, s| add_mark(m, *s, alive))
}

#[tactic(auto, using(crate::proofs::Active::count_le, crate::proofs::Walking::surveyed))]
pub fn survey(k: Key) -> Survey
    ensures { result ≡ survey_of k.stages }
{
    let count = active_count(k);
    let active = &k.stages[..count];
    let f = facts_of(active);
    let m = marks_from(active, f.live);
    Survey {
        count,
        mask: f.mask,
        rows: f.rows,
        warnings: f.warnings,
        live: f.live,
        marks: m.marks,
        bump_env: m.bump_env,
    }
}
