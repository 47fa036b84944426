// Reading the arrays; past their ends there is 0.
ghost use Rattle.std.specs.Prelude.{◌≡◌, pos};
ghost use Rattle.front_elaborator.specs.Positions.{field_at, literal_at, bit_at};

use base_codes::{declaration, limit, token};
use front_lexer::parts;

// A field of a declaration.
pub(crate) fn field_at(decls: &[u16; declaration::ROWS], q: usize, c: usize) -> u16
    ensures { result ≡ field_at decls.now q c }
{
    if q < limit::NAMES && c < declaration::ROW {
        decls[declaration::ROW * q + c]
    } else {
        0
    }
}

// The value of the number that token i is, 0 where it passes the limit.
pub(crate) fn literal_at(
    text: &[u8],
    starts: &[u16; limit::TEXT],
    sizes: &[u16; limit::TEXT],
    i: usize,
) -> i32
    ensures { result ≡ pos (literal_at text.now starts.now sizes.now i) }
{
    let start = starts.get(i).copied().unwrap_or(0);
    let size = sizes.get(i).copied().unwrap_or(0);
    let v = parts::number_value(text, usize::from(start), usize::from(size));
    i32::try_from(v).unwrap_or(0)
}

// '0' or '1'.
pub(crate) fn bit_at(kinds: &[u8; limit::TEXT], i: usize) -> i32
    ensures { result ≡ pos (bit_at kinds.now i) }
{
    match kinds.get(i) {
        Some(&token::ONE) => 1,
        _ => 0,
    }
}
