// "end or of name differing": the names behind `end` and `of` and those that they repeat.
ghost use Rattle.std.specs.Prelude.{◌≡◌};
ghost use Rattle.front_scope.specs.Positions.{differs_in, heads_in};

use crate::owners::same_at;
use base_codes::limit;
use front_offences::Tree;

// A name that must be the same as another, and is not.
fn differs(
    text: &[u8],
    sizes: &[u16; limit::TEXT],
    tree: &Tree,
    a: usize,
    b: usize,
) -> Option<usize>
    ensures { result ≡ differs_in text.now tree.now.starts.now sizes.now tree.now.shape.tokens a b }
{
    let same = same_at(text, tree.starts, sizes, tree.shape.tokens, a, b);
    front_offences::offence(same, tree.place(a))
}

// The lowest of the three names behind `end` and `of`.
pub(crate) fn heads_differ(text: &[u8], sizes: &[u16; limit::TEXT], tree: &Tree) -> Option<usize>
    ensures { result ≡ heads_in text.now tree.now.starts.now sizes.now tree.now.shape }
{
    let shape = tree.shape;
    let a = differs(text, sizes, tree, shape.entity_end, shape.entity);
    let b = differs(text, sizes, tree, shape.arch_of, shape.entity);
    let c = differs(text, sizes, tree, shape.arch_end, shape.arch);
    front_offences::lower(a, front_offences::lower(b, c))
}
