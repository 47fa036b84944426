// "wrong kind as target": the names of waits and assignments.
ghost use Rattle.std.specs.Prelude.{◌≡◌, ◌<◌};
ghost use Rattle.front_scope.specs.Positions.{fits_in, target_at, targets_in};

use base_codes::{declaration, limit, statement};
use front_offences::Tree;

// A name of a mode fits a statement of a kind: <= wants an output, := a variable, a wait any declared name.
fn target_fits(kind: u16, mode: u16) -> bool
    ensures { result ≡ fits_in kind mode }
{
    match kind {
        statement::WAIT => mode != declaration::NO_MODE,
        statement::OUTPUT => mode == declaration::OUT,
        _ => mode == declaration::VARIABLE,
    }
}

// A wait or an assignment whose name does not fit.
fn target_at(tree: &Tree, j: usize) -> Option<usize>
    requires { j < 512 }
    ensures { result ≡ target_at tree.now.rows.now tree.now.starts.now tree.now.owners.now tree.now.shape.tokens
        tree.now.decls.now tree.now.shape.names j }
{
    let kind = tree.statement(j, statement::KIND);
    if !front_offences::has_name(kind) {
        return None;
    }
    let i = usize::from(tree.statement(j, statement::TOKEN));
    let ok = target_fits(kind, tree.mode(tree.owner(i)));
    front_offences::offence(ok, tree.place(i))
}

// The lowest of those.
pub(crate) fn targets(tree: &Tree) -> Option<usize>
    ensures { result ≡ targets_in tree.now.rows.now tree.now.shape.statements tree.now.starts.now tree.now.owners.now tree.now.shape.tokens
        tree.now.decls.now tree.now.shape.names }
{
    let end = tree.shape.statements.min(limit::STATEMENTS);
    front_offences::lowest_below(end, |j| target_at(tree, j))
}
