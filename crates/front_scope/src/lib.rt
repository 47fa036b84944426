#![tactic(auto)]
// Names: the declaration that each name stands for, and refusal 5, "name unknown, declared twice, end or of name differing, wrong kind as target, output read".
mod owners; // the declaration that a name stands for
mod heads; // names of entity and architecture
mod doubled; // declared names
mod targets; // names of waits and assignments
mod reads; // names in expressions

ghost use Rattle.front_scope.specs.Resolves.{Resolves};
ghost use Rattle.front_scope.specs.Judges.{Judges};

use base_codes::{declaration, limit};
use front_offences::Tree;

// Every name gets the number of its declaration, or the number of declarations where it has none. The owners are filled here, so there is no tree yet.
pub fn resolve(
    text: &[u8],
    kinds: &[u8; limit::TEXT],
    starts: &[u16; limit::TEXT],
    sizes: &[u16; limit::TEXT],
    n: usize,
    decls: &[u16; declaration::ROWS],
    d: usize,
    owners: &mut [u8; limit::TEXT],
)
    ensures { Resolves text.now kinds.now starts.now sizes.now n decls.now d owners.old owners.new }
{
    let end = n.min(limit::TEXT);
    for i in 0..end {
        owners::settle(text, kinds, starts, sizes, n, decls, d, owners, i);
    }
}

// The lowest offence of refusal 5.
pub fn judge(text: &[u8], sizes: &[u16; limit::TEXT], tree: &Tree) -> Option<usize>
    ensures { Judges text.now sizes.now tree.now result }
{
    let differ = heads::heads_differ(text, sizes, tree);
    let twice = doubled::doubled(tree);
    let wrong = targets::targets(tree);
    let read = reads::reads(tree);
    front_offences::lower(
        differ,
        front_offences::lower(twice, front_offences::lower(wrong, read)),
    )
}
