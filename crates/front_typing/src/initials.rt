// "initial value of wrong type": the rows of declared names judged one after the other.
ghost use Rattle.std.specs.Prelude.{◌≡◌, ◌<◌};
ghost use Rattle.base_codes.specs.Limit.{NAMES};
ghost use Rattle.front_typing.specs.Positions.{initial_fits, initial_at, initials_in};

use base_codes::{declaration, limit};
use front_offences::Tree;

// Whether an initial value is of its name's type; an input's is ignored.
fn initial_fits(mode: u16, t: u16, init: u16) -> bool
    ensures { result ≡ initial_fits mode t init }
{
    mode == declaration::IN
        || match init {
            declaration::NONE => true,
            declaration::BIT => t == declaration::STD_LOGIC,
            _ => t == declaration::INTEGER,
        }
}

// The offence of one declared name's initial value.
fn initial_at(tree: &Tree, j: usize) -> Option<usize>
    requires { j < NAMES }
    ensures { result ≡ initial_at tree.now.decls.now tree.now.starts.now tree.now.shape.tokens j }
{
    let fits = initial_fits(
        tree.declared(j, declaration::MODE),
        tree.declared(j, declaration::TYPE),
        tree.declared(j, declaration::INIT),
    );
    let first = usize::from(tree.declared(j, declaration::VALUE));
    front_offences::offence(fits, tree.place(first))
}

// The lowest of those.
pub(crate) fn initials(tree: &Tree) -> Option<usize>
    ensures { result ≡ initials_in tree.now.decls.now tree.now.shape.names tree.now.starts.now tree.now.shape.tokens }
{
    let end = tree.shape.names.min(limit::NAMES);
    front_offences::lowest_below(end, |j| initial_at(tree, j))
}
