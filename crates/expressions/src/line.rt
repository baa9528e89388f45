//! The line of a stage. A stage's number and flags stand beside its expressions, which hold neither, as in `combine`.
ghost use Rattle.text.specs.Buffer.{Wrote};
ghost use Rattle.cascade.specs.Stages.{line_text};

use crate::combine::put_expression;
use cascade::{Alpha, Expressions};
use text::{put, put_either};
use values::StageIndex;

// The colour's expression gives all four channels, or alpha stands apart: the register's own, or an expression's.
pub fn put_line(
    out: &mut [u8],
    at: usize,
    e: Expressions,
    stage: StageIndex,
    textured: bool,
    to_temp: bool,
) -> usize
    ensures { Wrote out.old at out.new result (line_text stage textured to_temp e.colour e.alpha) }
{
    let mut p = put_either(out, at, to_temp, b"    temp = ", b"    current = ");
    match e.alpha {
        Alpha::FromColour => {
            p = put_expression(out, p, e.colour, stage, textured);
            put(out, p, b";\n")
        }
        Alpha::Kept => {
            p = put(out, p, b"float4((");
            p = put_expression(out, p, e.colour, stage, textured);
            put_either(
                out,
                p,
                to_temp,
                b").rgb, (temp).a);\n",
                b").rgb, (current).a);\n",
            )
        }
        Alpha::Written(alpha) => {
            p = put(out, p, b"float4((");
            p = put_expression(out, p, e.colour, stage, textured);
            p = put(out, p, b").rgb, (");
            p = put_expression(out, p, alpha, stage, textured);
            put(out, p, b").a);\n")
        }
    }
}
