// The declaration that a name stands for: the first of the same name, without regard to case.
ghost use Rattle.std.specs.Prelude.{◌≡◌, ◌<◌};
ghost use Rattle.front_scope.specs.Positions.{same_in, owner_in, filled};

use base_codes::{declaration, limit, token};

// The tokens at two indices are the same without regard to case.
pub(crate) fn same_at(
    text: &[u8],
    starts: &[u16; limit::TEXT],
    sizes: &[u16; limit::TEXT],
    n: usize,
    a: usize,
    b: usize,
) -> bool
    ensures { result ≡ same_in text.now starts.now sizes.now n a b }
{
    let start_a = usize::from(front_offences::place_at(starts, n, a));
    let size_a = usize::from(front_offences::place_at(sizes, n, a));
    let start_b = usize::from(front_offences::place_at(starts, n, b));
    let size_b = usize::from(front_offences::place_at(sizes, n, b));
    front_lexer::parts::same_name(text, start_a, size_a, start_b, size_b)
}

// The number of the first declared name that is the name at an index, or of them all for none; at most 65, so `as u8` loses nothing and `try_from` would add a branch never taken.
fn owner_of(
    text: &[u8],
    starts: &[u16; limit::TEXT],
    sizes: &[u16; limit::TEXT],
    n: usize,
    decls: &[u16; declaration::ROWS],
    d: usize,
    i: usize,
) -> u8
    ensures { result ≡ owner_in text.now starts.now sizes.now n decls.now d i }
{
    let end = d.min(limit::NAMES);
    for j in 0..end {
        let name = usize::from(decls[declaration::ROW * j]);
        if same_at(text, starts, sizes, n, name, i) {
            return j as u8;
        }
    }
    end as u8
}

// A name gets the number of its declaration.
pub(crate) fn settle(
    text: &[u8],
    kinds: &[u8; limit::TEXT],
    starts: &[u16; limit::TEXT],
    sizes: &[u16; limit::TEXT],
    n: usize,
    decls: &[u16; declaration::ROWS],
    d: usize,
    owners: &mut [u8; limit::TEXT],
    i: usize,
)
    requires { i < 16384 }
    ensures { owners.new ≡ filled (owner_in text.now starts.now sizes.now n decls.now d) kinds.now i owners.old }
{
    if kinds[i] == token::NAME {
        owners[i] = owner_of(text, starts, sizes, n, decls, d, i);
    }
}
