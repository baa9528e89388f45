//! The text of an expression: its operation's form, with its arguments in it. A stage stands beside its arguments, as in `combiners::arguments`.
ghost use Rattle.text.specs.Buffer.{Wrote};
ghost use Rattle.combiners.specs.Combiners.{expression_text};

use combiners::Expression;
use combiners::arguments::put_arg;
use operations::forms::{Form, form_of};
use operations::words::{put_ending, put_joining, put_opening};
use values::StageIndex;

pub(crate) fn put_expression(
    out: &mut [u8],
    at: usize,
    e: Expression,
    stage: StageIndex,
    textured: bool,
) -> usize
    ensures { Wrote out.old at out.new result (expression_text stage textured e) }
{
    let (x, y, z) = (e.arg1, e.arg2, e.arg0);
    match form_of(e.op, textured) {
        Form::Arg1 => put_arg(out, at, x, stage),
        Form::Arg2 => put_arg(out, at, y, stage),
        Form::Both(opening, joining, ending) => {
            let mut p = put_opening(out, at, opening, z, stage);
            p = put_arg(out, p, x, stage);
            p = put_joining(out, p, joining, x, z, stage);
            p = put_arg(out, p, y, stage);
            put_ending(out, p, ending, x, stage)
        }
    }
}
