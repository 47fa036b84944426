#![tactic(auto)]
// What the stages after parsing share: the tree of a parsed text and its shape; a token's place, the declaration that a name stands for, by its number, and its mode and type; and the
// lowest place of a stage's offences, which is its answer. A function over an array and a count beside the tree's method is for what asks it where no tree is lent.
mod tree; // all that the judges of a text's rules read

ghost use Rattle.std.specs.Prelude.{◌≡◌, ℕ, Option, ◌+◌, ◌*◌, ◌<◌, ltb, get_or};
ghost use Rattle.base_codes.specs.Declaration.{ROW};
ghost use Rattle.base_codes.specs.Limit.{NAMES};
ghost use Rattle.spec_grammar.specs.Reader.{choose};
ghost use Rattle.spec_language.specs.Lists.{unless};
ghost use Rattle.front_layout.specs.Arrays.{number_in};
ghost use Rattle.front_offences.specs.Lowest.{lowest_of, lower as lower_of, lowest_from};
ghost use Rattle.front_offences.specs.Positions.{has_name, mode_in};

use base_codes::{declaration, limit, statement};
pub use tree::Tree;

// What is known of a parsed text beside its arrays: how many tokens, statements, items and declared names it has, and the indices of its own names and of `process`.
#[derive(Clone, Copy)]
pub struct Shape {
    pub tokens: usize,
    pub statements: usize,
    pub items: usize,
    pub names: usize,
    pub entity: usize,
    pub entity_end: usize,
    pub arch: usize,
    pub arch_of: usize,
    pub process: usize,
    pub arch_end: usize,
}

// The place of the token at an index, or 0 past the last: a number and no Option, since each judge is total over any arrays and would put 0 there itself.
pub fn place_at(places: &[u16; limit::TEXT], n: usize, i: usize) -> u16
    ensures { result ≡ number_in places.now n i }
{
    if i < n && i < limit::TEXT {
        places[i]
    } else {
        0
    }
}

// The lower of two places, each of which is there or not.
pub fn lower(a: Option<usize>, b: Option<usize>) -> Option<usize>
    ensures { result ≡ lower_of a b }
{
    match (a, b) {
        (Some(a), Some(b)) => Some(a.min(b)),
        (None, b) => b,
        (a, None) => a,
    }
}

// The place of an offence where the test fails.
pub fn offence(ok: bool, place: u16) -> Option<usize>
    ensures { result ≡ lowest_of (unless ok place) }
{
    if ok { None } else { Some(usize::from(place)) }
}

// The lowest of the offences at the positions below an end, for whatever definition f says what stands at a position.
pub fn lowest_below<F: Fn(usize) -> Option<usize>>(end: usize, offence_at: F) -> Option<usize>
    requires { (j : ℕ) → j < end → F.pre offence_at j }
    ensures { (f : ℕ → Option ℕ) → ((j : ℕ) → j < end → (r : Option ℕ) → F.post offence_at j r → r ≡ f j) → result ≡ lowest_from f 0 end }
{
    let mut low = None;
    for j in 0..end {
        low = lower(low, offence_at(j));
    }
    low
}

// The number of the declaration that the name at an index stands for, or 0 past the last token, as with places. Beside `place_at` no generic function: a bound and its law would be
// longer than the two lines.
pub fn owner_at(owners: &[u8; limit::TEXT], n: usize, i: usize) -> usize
    ensures { result ≡ number_in owners.now n i }
{
    if i < n && i < limit::TEXT {
        usize::from(owners[i])
    } else {
        0
    }
}

// A wait or an assignment: its row has the index of a name.
pub fn has_name(kind: u16) -> bool
    ensures { result ≡ has_name kind }
{
    matches!(
        kind,
        statement::WAIT | statement::OUTPUT | statement::VARIABLE
    )
}

// Number k of the row under a declaration's number, or what stands for none.
fn number_under(decls: &[u16; declaration::ROWS], d: usize, o: usize, k: usize, none: u16) -> u16
    requires { k < ROW }
    ensures { result ≡ choose (ltb o d) (choose (ltb o NAMES) (get_or decls.now (ROW * o + k) 0) none) none }
{
    if o < d && o < limit::NAMES {
        decls[declaration::ROW * o + k]
    } else {
        none
    }
}

// The mode under a declaration's number, or 3 for none: a code as those of modes are, which the judges compare with them.
pub fn mode_at(decls: &[u16; declaration::ROWS], d: usize, o: usize) -> u16
    ensures { result ≡ mode_in decls.now d o }
{
    number_under(decls, d, o, declaration::MODE, declaration::NO_MODE)
}
