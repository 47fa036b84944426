// Bytes stored into a lent buffer, one behind another. Each function takes the place to begin at and answers the place behind what it stored; behind
// the buffer's end nothing is stored.
ghost use Rattle.std.specs.Prelude.{◌≡◌, [], ◌∷◌, ◌++◌, ℕ, ◌+◌, ◌<◌};
ghost use Rattle.spec_design.specs.Spelling.{decimal_by, decimal};
ghost use Rattle.trace_lines.specs.Printing.{integer, integers, performed_line, refused_line, refused_text};
ghost use Rattle.trace_lines.specs.Stored.{Puts, tens};

// How many digits there are.
const TEN: usize = 10;

// A byte.
fn put(out: &mut [u8], at: usize, b: u8) -> usize
    ensures { Puts out.old at (b ∷ []) out.new result }
{
    if at < out.len() {
        out[at] = b;
        return at + 1;
    }
    at
}

// The bytes of a text.
fn put_text(out: &mut [u8], at: usize, text: &[u8]) -> usize
    ensures { Puts out.old at text.now out.new result }
{
    let mut k = at;
    for b in text {
        k = put(out, k, *b);
    }
    k
}

// The byte of a digit.
fn digit_byte(n: usize) -> u8
    requires { n < 10 }
    ensures { result ≡ 48 + n }
{
    b'0' + n as u8
}

// The digits of a number, at most 20: those before the last one first.
fn put_digits(out: &mut [u8], at: usize, n: usize) -> usize
    ensures { (f : ℕ) → n < tens f → Puts out.old at (decimal_by f n) out.new result }
{
    if n < TEN {
        return put(out, at, digit_byte(n));
    }
    let next = put_digits(out, at, n / TEN);
    put(out, next, digit_byte(n % TEN))
}

// A number in decimals.
fn put_number(out: &mut [u8], at: usize, n: usize) -> usize
    ensures { Puts out.old at (decimal n) out.new result }
{
    put_digits(out, at, n)
}

// A number after a space.
fn put_spaced(out: &mut [u8], at: usize, n: usize) -> usize
    ensures { Puts out.old at (32 ∷ decimal n) out.new result }
{
    let next = put(out, at, b' ');
    put_number(out, next, n)
}

// Two numbers, a space between them.
fn put_pair(out: &mut [u8], at: usize, m: usize, n: usize) -> usize
    ensures { Puts out.old at (decimal m ++ (32 ∷ decimal n)) out.new result }
{
    let next = put_number(out, at, m);
    put_spaced(out, next, n)
}

// An integer in decimals.
fn put_integer(out: &mut [u8], at: usize, v: i32) -> usize
    ensures { Puts out.old at (integer v) out.new result }
{
    let next = if v < 0 { put(out, at, b'-') } else { at };
    put_number(out, next, v.unsigned_abs() as usize)
}

// Integers, each after a space.
fn put_integers(out: &mut [u8], at: usize, values: &[i32]) -> usize
    ensures { Puts out.old at (integers values.now) out.new result }
{
    let mut k = at;
    for v in values {
        let next = put(out, k, b' ');
        k = put_integer(out, next, *v);
    }
    k
}

// The line of a performed row.
pub(crate) fn performed_line(
    out: &mut [u8],
    n: usize,
    place: usize,
    lines: usize,
    outputs: &[i32],
) -> usize
    ensures { Puts out.old 0 (performed_line n place lines outputs.now) out.new result }
{
    let a = put_pair(out, 0, n, place);
    let b = put_spaced(out, a, lines);
    let c = put_integers(out, b, outputs);
    put(out, c, b'\n')
}

// The line of a refused row.
pub(crate) fn refused_line(out: &mut [u8], n: usize, number: usize) -> usize
    ensures { Puts out.old 0 (refused_line n number) out.new result }
{
    let a = put_number(out, 0, n);
    let b = put_text(out, a, b" refused ");
    let c = put_number(out, b, number);
    put(out, c, b'\n')
}

// The line of a refused text.
pub(crate) fn refused_text(out: &mut [u8], number: usize, place: usize) -> usize
    ensures { Puts out.old 0 (refused_text number place) out.new result }
{
    let a = put_text(out, 0, b"refused ");
    let b = put_pair(out, a, number, place);
    put(out, b, b'\n')
}
