// Parts of a text, and what later stages ask of them: a number's value, and whether two names are the same.
ghost use Rattle.std.specs.Prelude.{◌≡◌, eqb, map, ◌+◌, ◌-◌, ◌*◌, min, ◌≤◌, ◌<◌};
ghost use Rattle.spec_language.specs.Bytes.{lower};
ghost use Rattle.spec_language.specs.Words.{value};
ghost use Rattle.spec_language.specs.Lexing.{equal};
ghost use Rattle.front_token.specs.Places.{part};

use base_codes::limit;
use front_token::bytes;

// So many bytes from a place; past the text's end there are none.
pub fn part_of<'a>(text: &'a [u8], start: usize, size: usize) -> &'a [u8]
    ensures { result.now ≡ part text.now start size }
{
    let rest = &text[start.min(text.len())..];
    &rest[..size.min(rest.len())]
}

fn digit(b: u8) -> u64
    ensures value { result ≡ b - 48 }
    ensures upper_bound { result < 256 }
{
    u64::from(b.saturating_sub(b'0'))
}

// How many digits there are, and the first number above every literal.
const DIGITS: u64 = 10;

const ABOVE: u64 = limit::INTEGER as u64 + 1;

// A value with one digit more, or 2147483648 where it is above that.
fn next_value(v: u64, b: u8) -> u64
    requires { v ≤ 2147483648 }
    ensures { result ≡ min (v * 10 + (b - 48)) 2147483648 }
{
    (v * DIGITS + digit(b)).min(ABOVE)
}

fn digits_value(digits: &[u8]) -> u64
    ensures { result ≡ value 0 digits.now }
{
    let mut v = 0;
    for b in digits {
        v = next_value(v, *b);
    }
    v
}

// The value of the digits of a part, cut at 2147483648.
pub fn number_value(text: &[u8], start: usize, size: usize) -> u64
    ensures { result ≡ value 0 (part text.now start size) }
{
    digits_value(part_of(text, start, size))
}

// Two bytes are the same without regard to case. Most of those that are the same are so as they stand.
fn same_byte(a: u8, b: u8) -> bool
    ensures { result ≡ eqb (lower a) (lower b) }
{
    a == b || bytes::lower_case(a) == bytes::lower_case(b)
}

// Two words are the same without regard to case.
fn same_folded(a: &[u8], b: &[u8]) -> bool
    ensures { result ≡ equal (map lower a.now) (map lower b.now) }
{
    a.len() == b.len() && a.iter().zip(b).all(|(x, y)| same_byte(*x, *y))
}

// Two parts of a text are the same without regard to case.
pub fn same_name(text: &[u8], start_a: usize, size_a: usize, start_b: usize, size_b: usize) -> bool
    ensures { result ≡ equal (map lower (part text.now start_a size_a)) (map lower (part text.now start_b size_b)) }
{
    same_folded(
        part_of(text, start_a, size_a),
        part_of(text, start_b, size_b),
    )
}
