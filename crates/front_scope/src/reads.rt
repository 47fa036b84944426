// "name unknown, output read": the names in expressions.
ghost use Rattle.std.specs.Prelude.{◌≡◌, ◌<◌};
ghost use Rattle.front_scope.specs.Positions.{readable_in, read_at, reads_in};

use base_codes::{declaration, item, limit};
use front_offences::Tree;

// A name of a mode may be read: it is declared, and no output.
fn readable(mode: u16) -> bool
    ensures { result ≡ readable_in mode }
{
    mode != declaration::OUT && mode != declaration::NO_MODE
}

// An item that is a name and may not be read.
fn read_at(tree: &Tree, j: usize) -> Option<usize>
    requires { j < 16384 }
    ensures { result ≡ read_at tree.now.codes.now tree.now.indices.now tree.now.starts.now tree.now.owners.now tree.now.shape.tokens
        tree.now.decls.now tree.now.shape.names j }
{
    if tree.codes[j] != item::NAME {
        return None;
    }
    let i = usize::from(tree.indices[j]);
    let ok = readable(tree.mode(tree.owner(i)));
    front_offences::offence(ok, tree.place(i))
}

// The lowest of those.
pub(crate) fn reads(tree: &Tree) -> Option<usize>
    ensures { result ≡ reads_in tree.now.codes.now tree.now.indices.now tree.now.shape.items
        tree.now.starts.now tree.now.owners.now tree.now.shape.tokens tree.now.decls.now tree.now.shape.names }
{
    let end = tree.shape.items.min(limit::TEXT);
    front_offences::lowest_below(end, |j| read_at(tree, j))
}
