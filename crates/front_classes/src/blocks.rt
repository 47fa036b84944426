// Statements in sequence: a block is a loop over its statements; statements in statements are a cycle of calls, the rows left falling.
ghost use Rattle.std.specs.Prelude.{◌≡◌, ◌<◌, ◌≤◌};
ghost use Rattle.front_classes.specs.Held.{number_of};
ghost use Rattle.front_classes.specs.Positions.{StatementIs, BlockIs};

use crate::rules::Class;
use crate::{Body, Summary, rules};
use base_codes::{kind, statement as row};
use front_offences::{lower, offence, place_at};

// Number k of row j, as a number of rows or an index of tokens.
fn number(process: &Body, j: usize, k: usize) -> usize
    requires { (j < 512) × (k < 6) }
    ensures { result ≡ number_of process.now.rows.now j k }
{
    usize::from(process.rows[row::ROW * j + k])
}

// An if. A missing else is a block of no rows, which is A as null is.
#[cycle(statements)]
fn if_statement(process: &Body, at: usize, end: usize) -> Summary
    requires { (at < end) × (end ≤ 512) × (number_of process.now.rows.now at 0 ≡ 3) }
    ensures { StatementIs process.now.rows.now process.now.starts.now process.now.tokens at end result }
{
    let other = number(process, at, row::OTHER).clamp(at + 1, end);
    let a = block(process, at + 1, other);
    let b = block(process, other, end);
    Summary {
        class: rules::if_class(a.class, b.class),
        lowest: lower(a.lowest, b.lowest),
    }
}

// A while, which is itself an offence where its body is classed and not C.
#[cycle(statements)]
fn while_statement(process: &Body, at: usize, end: usize) -> Summary
    requires { (at < end) × (end ≤ 512) × (number_of process.now.rows.now at 0 ≡ 5) }
    ensures { StatementIs process.now.rows.now process.now.starts.now process.now.tokens at end result }
{
    let body = block(process, at + 1, end);
    let i = number(process, at, row::TOKEN);
    let place = place_at(process.starts, process.tokens, i);
    let own = offence(rules::body_allowed(body.class), place);
    Summary {
        class: rules::while_class(body.class),
        lowest: lower(own, body.lowest),
    }
}

// A statement, by its kind; assignments and null are A, a wait is C.
#[cycle(statements)]
fn statement(process: &Body, at: usize, end: usize) -> Summary
    requires { (at < end) × (end ≤ 512) }
    ensures { StatementIs process.now.rows.now process.now.starts.now process.now.tokens at end result }
{
    match number(process, at, row::KIND) {
        kind::IF => if_statement(process, at, end),
        kind::WHILE => while_statement(process, at, end),
        kind::WAIT => Summary {
            class: Some(Class::C),
            lowest: None,
        },
        _ => Summary {
            class: Some(Class::A),
            lowest: None,
        },
    }
}

// A block: the statements in sequence from one row up to another. A block of no statements is A. The numbers of rows are brought into their range, so that the calls stay within
// it whatever the array holds.
#[cycle(statements)]
pub(crate) fn block(process: &Body, from: usize, to: usize) -> Summary
    requires { (from ≤ to) × (to ≤ 512) }
    ensures { BlockIs process.now.rows.now process.now.starts.now process.now.tokens from to result }
{
    let mut at = from;
    let mut class = Some(Class::A);
    let mut lowest = None;
    while at < to {
        let end = number(process, at, row::END).clamp(at + 1, to);
        let s = statement(process, at, end);
        class = rules::sequence_class(class, s.class);
        lowest = lower(lowest, s.lowest);
        at = end;
    }
    Summary { class, lowest }
}
