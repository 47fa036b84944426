#![tactic(auto)]
// 32-bit integers of document 01, exact: sums and products through 64 bits, quotients behind tests of what the machine does not divide,
// two's complement, the values of a type. The operators of a text that can be refused are computed here and nowhere else.
ghost use Rattle.std.specs.Prelude.{◌≡◌, ◌&&◌, cond, negsuc, ◌+ℤ◌, ◌-ℤ◌, ◌*ℤ◌, neg_ℤ};
ghost use Rattle.std.specs.Int.Signed.{quot_z, rem_z};
ghost use Rattle.spec_design.specs.Expression.{fine};
ghost use Rattle.spec_design.specs.Types.{eq_z};
ghost use Rattle.base_codes.specs.Fault.{outcome};
ghost use Rattle.spec_semantics.specs.Division.{to_sign, mod_z, by_nonzero};
ghost use Rattle.spec_semantics.specs.Evaluation.{as_integer, bit_of, is_one};
ghost use Rattle.spec_semantics.specs.Twos.{signed32, unsigned32};
ghost use Rattle.base_signed.specs.Signed.{in_type_byte};

use base_codes::fault::Fault;
use base_codes::types;

// Among numbers of 64 bits the least and the greatest that are integers.
const WIDE_LEAST: i64 = -2147483648;

const WIDE_GREATEST: i64 = 2147483647;
// Of the words of 32 bits, the first that stands for a number below zero, and the last.
const UPPER: u32 = 2147483648;

const LAST: u32 = 4294967295;

// A number as an integer, where it is one.
fn narrow(s: i64) -> Result<i32, Fault>
    ensures { outcome result ≡ as_integer s }
{
    if s < WIDE_LEAST || WIDE_GREATEST < s {
        return Err(Fault::OutOfRange);
    }
    Ok(s as i32)
}

// The operators + and -. Both results are computed and one is picked, so that no jump depends on the operator.
pub fn sum(x: i32, minus: bool, y: i32) -> Result<i32, Fault>
    ensures { outcome result ≡ as_integer (cond minus (x -ℤ y) (x +ℤ y)) }
{
    let a = x as i64;
    let b = y as i64;
    let difference = a - b;
    let sum = a + b;
    narrow(if minus { difference } else { sum })
}

// The sign -.
pub fn negate(x: i32) -> Result<i32, Fault>
    ensures { outcome result ≡ as_integer (neg_ℤ x) }
{
    sum(0, true, x)
}

// The operator *.
pub fn multiply(x: i32, y: i32) -> Result<i32, Fault>
    ensures { outcome result ≡ as_integer (x *ℤ y) }
{
    narrow((x as i64) * (y as i64))
}

// The one quotient of integers that is no integer; the machine divides neither these two nor any number by 0.
fn least_by_minus_one(x: i32, y: i32) -> bool
    ensures { result ≡ (eq_z x (negsuc 2147483647) && eq_z y (negsuc 0)) }
{
    x == i32::MIN && y == -1
}

// The operator /, which cuts toward zero as the machine's does.
pub fn divide(x: i32, y: i32) -> Result<i32, Fault>
    ensures { outcome result ≡ by_nonzero y (as_integer (quot_z x y)) }
{
    if y == 0 {
        Err(Fault::ZeroDivisor)
    } else if least_by_minus_one(x, y) {
        Err(Fault::OutOfRange)
    } else {
        Ok(x / y)
    }
}

// A remainder brought to the sign of the right operand: where the signs differ, the right operand more.
fn to_sign(r: i32, y: i32) -> i32
    ensures { result ≡ to_sign r y }
{
    if r == 0 || (r < 0) == (y < 0) {
        return r;
    }
    r + y
}

// The operator mod, with the sign of the right operand.
pub fn modulus(x: i32, y: i32) -> Result<i32, Fault>
    ensures { outcome result ≡ by_nonzero y (fine (mod_z x y)) }
{
    if y == 0 {
        return Err(Fault::ZeroDivisor);
    }
    if least_by_minus_one(x, y) {
        return Ok(0);
    }
    Ok(to_sign(x % y, y))
}

// The operator rem, with the sign of the left operand, as the machine's has.
pub fn remainder(x: i32, y: i32) -> Result<i32, Fault>
    ensures { outcome result ≡ by_nonzero y (fine (rem_z x y)) }
{
    if y == 0 {
        return Err(Fault::ZeroDivisor);
    }
    if least_by_minus_one(x, y) {
        return Ok(0);
    }
    Ok(x % y)
}

// The number of a std_logic or a boolean: 1 where it is true.
pub fn from_bool(b: bool) -> i32
    ensures { result ≡ bit_of b }
{
    i32::from(b)
}

// A std_logic or a boolean from its number.
pub fn is_one(x: i32) -> bool
    ensures { result ≡ is_one x }
{
    x == 1
}

// A number of 32 bits read as two's complement.
pub fn from_bits(n: u32) -> i32
    ensures { result ≡ signed32 n }
{
    if n < UPPER {
        n as i32
    } else {
        -1 - ((LAST - n) as i32)
    }
}

// An integer as 32 bits in two's complement.
pub fn to_bits(x: i32) -> u32
    ensures { result ≡ unsigned32 x }
{
    if x < 0 {
        LAST - ((-1 - x) as u32)
    } else {
        x as u32
    }
}

// Whether v is a value of the type with that type byte.
pub fn in_type(kind: u8, v: i32) -> bool
    ensures { result ≡ in_type_byte kind v }
{
    if kind == types::STD_LOGIC {
        v == 0 || v == 1
    } else {
        kind == types::INTEGER
    }
}
