#![tactic(auto)]
// Refusal 8: "the first wait's name is no std_logic input, another wait differs, clock (if that input exists) read".
mod waits; // the first wait, and those that differ
mod reads; // reads of the clock

ghost use Rattle.std.specs.Prelude.{◌≡◌};
ghost use Rattle.front_clock.specs.Positions.{is_clock_in};
ghost use Rattle.front_clock.specs.Judges.{Judges, Owns};

use base_codes::{declaration, limit, statement};
use front_offences::Tree;

// A std_logic input is declared under the number.
fn is_clock(tree: &Tree, o: usize) -> bool
    ensures { result ≡ is_clock_in tree.now.decls.now tree.now.shape.names o }
{
    tree.mode(o) == declaration::IN && tree.type_of(o) == declaration::STD_LOGIC
}

// The number of the clock's declaration, or 65 without a wait: a number that no declared name has, so that what goes by declarations' numbers needs no case more. It is asked when the text
// is judged and the indices of its items are gone, so it takes what it reads and no tree.
pub fn clock_owner(
    rows: &[u16; statement::ROWS],
    s: usize,
    owners: &[u8; limit::TEXT],
    n: usize,
) -> usize
    ensures { Owns rows.now s owners.now n result }
{
    let w = waits::first_wait(rows, s);
    if w < n {
        front_offences::owner_at(owners, n, w)
    } else {
        limit::NAMES
    }
}

// The lowest offence of refusal 8.
pub fn judge(tree: &Tree) -> Option<usize>
    ensures { Judges tree.now result }
{
    let w = waits::first_wait(tree.rows, tree.shape.statements);
    if w >= tree.shape.tokens {
        return None;
    }
    let o = tree.owner(w);
    let stray = waits::strays(tree, o);
    if is_clock(tree, o) {
        let read = reads::reads(tree, o);
        return front_offences::lower(stray, read);
    }
    let first = Some(usize::from(tree.place(w)));
    front_offences::lower(first, stray)
}
