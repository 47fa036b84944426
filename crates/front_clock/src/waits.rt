// Waits: the first wait's name, and waits whose name stands for another declaration.
ghost use Rattle.std.specs.Prelude.{◌≡◌, ◌<◌};
ghost use Rattle.front_clock.specs.Positions.{wait_in, stray_at, strays_in};

use base_codes::{limit, statement};
use front_offences::Tree;

// The index of the first wait's name, or 16384. No Option: `owner_in` and `lowest_over` have one test, against n, for an index that is past the last token and for none.
pub(crate) fn first_wait(rows: &[u16; statement::ROWS], s: usize) -> usize
    ensures { result ≡ wait_in rows.now s }
{
    let end = s.min(limit::STATEMENTS);
    for j in 0..end {
        if rows[statement::ROW * j] == statement::WAIT {
            return usize::from(rows[statement::ROW * j + statement::TOKEN]);
        }
    }
    limit::TEXT
}

// A wait whose name stands for another declaration than o.
fn stray_at(tree: &Tree, o: usize, j: usize) -> Option<usize>
    requires { j < 512 }
    ensures { result ≡ stray_at tree.now.rows.now tree.now.starts.now tree.now.owners.now tree.now.shape.tokens o j }
{
    if tree.statement(j, statement::KIND) != statement::WAIT {
        return None;
    }
    let i = usize::from(tree.statement(j, statement::TOKEN));
    let same = tree.owner(i) == o;
    front_offences::offence(same, tree.place(i))
}

// The lowest of those.
pub(crate) fn strays(tree: &Tree, o: usize) -> Option<usize>
    ensures { result ≡ strays_in tree.now.rows.now tree.now.shape.statements tree.now.starts.now tree.now.owners.now tree.now.shape.tokens o }
{
    let end = tree.shape.statements.min(limit::STATEMENTS);
    front_offences::lowest_below(end, |j| stray_at(tree, o, j))
}
