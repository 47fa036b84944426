#![tactic(auto)]
// Classes of statements and refusal 9: the lowest place of a while with a classed body that is not C or, if none, of `process` where its body is not C.
// Inner functions answer a class and the lowest offence.
mod rules; // classes
mod blocks; // statements in sequence and in statements

ghost use Rattle.front_classes.specs.Judges.{Judges};

use base_codes::{limit, statement};
use front_offences::Shape;
use rules::Class;

// The body of a process as the arrays have it: where the tokens start, how many there are, and the rows of the statements.
#[derive(Clone, Copy)]
struct Body<'a> {
    starts: &'a [u16; limit::TEXT],
    tokens: usize,
    rows: &'a [u16; statement::ROWS],
}

// What is found of a run of rows: their class, and the lowest offence.
#[derive(Clone, Copy)]
struct Summary {
    class: Option<Class>,
    lowest: Option<usize>,
}

// The lowest offence of refusal 9. It takes the two arrays that it reads and no whole tree, so that it asks for no others.
pub fn judge(
    starts: &[u16; limit::TEXT],
    shape: Shape,
    rows: &[u16; statement::ROWS],
) -> Option<usize>
    ensures { Judges starts.now shape rows.now result }
{
    let process = Body {
        starts,
        tokens: shape.tokens,
        rows,
    };
    let end = shape.statements.min(limit::STATEMENTS);
    let body = blocks::block(&process, 0, end);
    let place = front_offences::place_at(starts, shape.tokens, shape.process);
    let whole = front_offences::offence(rules::is_c(body.class), place);
    body.lowest.or(whole)
}
