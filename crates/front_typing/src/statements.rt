// Targets and conditions: the rows of statements judged one after the other.
ghost use Rattle.std.specs.Prelude.{◌≡◌, ◌<◌};
ghost use Rattle.base_codes.specs.Limit.{STATEMENTS};
ghost use Rattle.front_typing.specs.Expressions.{name_at, sources_of};
ghost use Rattle.front_typing.specs.Positions.{wanted_code, statement_at, statements_in};

use crate::expression::{expression, name_type};
use crate::{Span, operators};
use base_codes::{limit, statement, types};
use front_offences::Tree;

// The type that a statement of this kind wants of its expression: its target's, or boolean of a condition.
fn wanted_type(tree: &Tree, kind: u16, i: usize) -> u8
    ensures { result ≡ wanted_code kind (name_at (sources_of tree.now) i) }
{
    match kind {
        statement::OUTPUT | statement::VARIABLE => name_type(tree, i),
        statement::IF | statement::WHILE => types::BOOLEAN,
        _ => types::NONE,
    }
}

// The lowest offence of one statement, those inside it aside.
fn statement_at(tree: &Tree, j: usize) -> Option<usize>
    requires { j < STATEMENTS }
    ensures { result ≡ statement_at (sources_of tree.now) tree.now.rows.now j }
{
    let to = usize::from(tree.statement(j, statement::TO));
    if to > limit::TEXT {
        return None;
    }
    let from = usize::from(tree.statement(j, statement::FROM));
    let e = expression(tree, Span { from, to });
    let i = usize::from(tree.statement(j, statement::TOKEN));
    let wanted = wanted_type(tree, tree.statement(j, statement::KIND), i);
    let wrong = front_offences::offence(operators::fits(wanted, e.code), tree.place(i));
    front_offences::lower(e.lowest, wrong)
}

// The lowest of those.
pub(crate) fn statements(tree: &Tree) -> Option<usize>
    ensures { result ≡ statements_in (sources_of tree.now) tree.now.rows.now tree.now.shape.statements }
{
    let end = tree.shape.statements.min(limit::STATEMENTS);
    front_offences::lowest_below(end, |j| statement_at(tree, j))
}
