// "declared twice": declared names that stand for an earlier one.
ghost use Rattle.std.specs.Prelude.{◌≡◌, ◌<◌};
ghost use Rattle.front_scope.specs.Positions.{doubled_at, doubled_in};

use base_codes::{declaration, limit};
use front_offences::Tree;

// A declared name that stands for an earlier one.
fn doubled_at(tree: &Tree, j: usize) -> Option<usize>
    requires { j < 65 }
    ensures { result ≡ doubled_at tree.now.decls.now tree.now.starts.now tree.now.owners.now tree.now.shape.tokens j }
{
    let i = usize::from(tree.declared(j, declaration::NAME));
    let o = tree.owner(i);
    let first = o == j;
    front_offences::offence(first, tree.place(i))
}

// The lowest of those.
pub(crate) fn doubled(tree: &Tree) -> Option<usize>
    ensures { result ≡ doubled_in tree.now.decls.now tree.now.shape.names tree.now.starts.now tree.now.owners.now tree.now.shape.tokens }
{
    let end = tree.shape.names.min(limit::NAMES);
    front_offences::lowest_below(end, |j| doubled_at(tree, j))
}
