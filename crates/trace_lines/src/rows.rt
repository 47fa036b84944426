// The rows of a file's bytes, and the decimals of a row.
ghost use Rattle.std.specs.Prelude.{◌≡◌, ◌≤◌, length, set};
ghost use Rattle.trace_lines.specs.Rows.{magnitude, upward, downward, decimal_of, decimals};
ghost use Rattle.trace_lines.specs.Reading.{part_end, cut, Reads, short};

use base_codes::limit;
use front_lexer::parts::part_of;

// How many digits there are.
const TEN: u64 = 10;

// A number that is outside integer with either sign: two above the largest integer.
const ABOVE: u64 = limit::INTEGER as u64 + 2;

// Where the byte c stands from a place on, or the end.
pub(crate) fn part_end(s: &[u8], at: usize, c: u8) -> usize
    ensures { result ≡ part_end c s.now at }
{
    for i in at..s.len() {
        if s[i] == c {
            return i;
        }
    }
    s.len().max(at)
}

// The number of digits, or 2147483649 where it is above that; none where there is no digit, or another byte.
fn number(w: &[u8]) -> Option<u32>
    ensures { result ≡ cut (magnitude w.now) }
{
    if w.is_empty() {
        return None;
    }
    let mut v: u64 = 0;
    for b in w {
        if !b.is_ascii_digit() {
            return None;
        }
        v = (v * TEN + u64::from(*b - b'0')).min(ABOVE);
    }
    Some(v as u32)
}

// The integer m, if it is one.
fn upward(m: u32) -> Option<i32>
    ensures { result ≡ upward (Some m) }
{
    i32::try_from(m).ok()
}

// The integer -m, if it is one.
fn downward(m: u32) -> Option<i32>
    ensures { result ≡ downward (Some m) }
{
    i32::try_from(-i64::from(m)).ok()
}

// The integer of a decimal; none where it is unreadable or outside integer.
fn read_decimal(w: &[u8]) -> Option<i32>
    ensures { result ≡ decimal_of w.now }
{
    match w.strip_prefix(b"-") {
        Some(digits) => downward(number(digits)?),
        None => upward(number(w)?),
    }
}

// Stores an integer, unless the index is past the end.
fn store(values: &mut [i32], n: usize, v: i32)
    ensures { values.new ≡ set values.old n v }
{
    if n < values.len() {
        values[n] = v;
    }
}

// The values of a row into a lent array, and how many there are; none where one is unreadable, or there are more than 16.
pub(crate) fn read_row(line: &[u8], values: &mut [i32]) -> Option<usize>
    requires { length line.now ≤ 65536 }
    ensures { Reads (short (decimals line.now)) values.old result values.new }
{
    if line.is_empty() {
        return Some(0);
    }
    let mut n: usize = 0;
    let mut i: usize = 0;
    while i <= line.len() {
        if n >= limit::INPUTS {
            return None;
        }
        let end = part_end(line, i, b' ');
        let v = read_decimal(part_of(line, i, end - i))?;
        store(values, n, v);
        n += 1;
        i = end + 1;
    }
    Some(n)
}
