#![tactic(auto)]
// Refusal 6: types of operators, targets, conditions and initial values.
mod initials; // initial values, by the rows of declared names
mod operators; // types of operators
mod expression; // items of an expression, on a stack of types
mod statements; // targets and conditions, by the rows of statements

ghost use Rattle.front_typing.specs.Judges.{Judges};

use front_offences::Tree;

// The items of an expression: from one to before another.
#[derive(Clone, Copy)]
struct Span {
    from: usize,
    to: usize,
}

// After an item: how many types are on the stack, and the lowest offence so far.
#[derive(Clone, Copy)]
struct Progress {
    depth: usize,
    lowest: Option<usize>,
}

// Of a whole expression: its type and its lowest offence.
#[derive(Clone, Copy)]
struct Judged {
    code: u8,
    lowest: Option<usize>,
}

// The lowest offence of refusal 6.
pub fn judge(tree: &Tree) -> Option<usize>
    ensures { Judges tree.now result }
{
    let initial = initials::initials(tree);
    let stated = statements::statements(tree);
    front_offences::lower(initial, stated)
}
