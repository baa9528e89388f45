//! The whole text, and the lookups and lines of its stages.
#![tactic(auto)]

mod stages;

ghost use Rattle.std.specs.Prelude.{◌≤◌, ◌≡◌};
ghost use Rattle.text.specs.Buffer.{Wrote};
ghost use Rattle.cascade.specs.Keys.{active};
ghost use Rattle.cascade.specs.Reading.{lookups_of};
ghost use Rattle.shader.specs.Whole.{whole_text};

use crate::stages::put_stages;
use cascade::surveyed::Surveyed;
use frame::header::put_front;
use frame::output::put_output;
use frame::signature::{put_locals, put_parameters, put_sprite};
use text::put;
use values::{Entry, Variant};
use variants::bits::{Flag, has};

// The place behind what has been written, and the lookups among it.
#[derive(Clone, Copy)]
pub struct Place {
    pub at: usize,
    pub lookups: u8,
}

#[tactic(auto, using(crate::proofs::Loops::parts), unfolding(shader::specs::Whole::whole_text, shader::specs::Whole::body_text))]
pub fn put_whole(out: &mut [u8], s: &Surveyed, v: Variant, e: Entry) -> Place
    requires { e.len ≤ 32 }
    ensures wrote { Wrote out.old 0 out.new result.at (whole_text s.now.key v e) }
    ensures lookups_value { result.lookups ≡ lookups_of s.now.survey.live (active s.now.key.stages) }
{
    let mut p = put_front(out, 0, v);
    p = put(out, p, &e.name[..e.len as usize]);
    p = put_parameters(out, p, s, v);
    p = put_sprite(out, p, has(v, Flag::PointSprite));
    p = put_locals(out, p, s.survey.live);
    let stages = put_stages(out, p, s, v);
    Place {
        at: put_output(out, stages.at, s.key.specular_add, v),
        lookups: stages.lookups,
    }
}
