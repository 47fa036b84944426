// Reads of the clock in expressions.
ghost use Rattle.std.specs.Prelude.{◌≡◌, ◌<◌};
ghost use Rattle.front_clock.specs.Positions.{read_at, reads_in};

use base_codes::{item, limit};
use front_offences::Tree;

// An item that is a name and stands for o.
fn read_at(tree: &Tree, o: usize, j: usize) -> Option<usize>
    requires { j < 16384 }
    ensures { result ≡ read_at tree.now.codes.now tree.now.indices.now tree.now.starts.now tree.now.owners.now tree.now.shape.tokens o j }
{
    if tree.codes[j] != item::NAME {
        return None;
    }
    let i = usize::from(tree.indices[j]);
    front_offences::offence(tree.owner(i) != o, tree.place(i))
}

// The lowest of those.
pub(crate) fn reads(tree: &Tree, o: usize) -> Option<usize>
    ensures { result ≡ reads_in tree.now.codes.now tree.now.indices.now tree.now.shape.items
        tree.now.starts.now tree.now.owners.now tree.now.shape.tokens o }
{
    let end = tree.shape.items.min(limit::TEXT);
    front_offences::lowest_below(end, |j| read_at(tree, o, j))
}
