// The signature section by position: three counts, a type byte for each input, then type and initial value of each output and variable.
ghost use Rattle.std.specs.Prelude.{◌≡◌, ◌<◌, get_or};
ghost use Rattle.base_signed.specs.Signed.{in_type_byte};
ghost use Rattle.image_checks.specs.Places.{outputs_at, variables_at, initial_at};

use base_codes::image;
use base_signed::{from_bits, in_type};
use image_words::{byte, word4};

// The count of inputs (0), outputs (1) or variables (2).
pub fn count(s: &[u8], k: usize) -> usize
    ensures value { result ≡ get_or s.now k 0 }
    ensures upper_bound { result < 256 }
{
    usize::from(byte(s, k))
}

// Where the outputs begin.
pub fn outputs_at(s: &[u8]) -> usize
    ensures value { result ≡ outputs_at s.now }
    ensures upper_bound { result < 512 }
{
    image::COUNTS + count(s, image::INPUTS)
}

// Where the variables begin.
pub fn variables_at(s: &[u8]) -> usize
    ensures value { result ≡ variables_at s.now }
    ensures upper_bound { result < 2048 }
{
    outputs_at(s) + image::SLOT * count(s, image::OUTPUTS)
}

// Whether v is of the type whose type byte stands at a position.
pub fn value_ok(s: &[u8], at: usize, v: i32) -> bool
    ensures { result ≡ in_type_byte (get_or s.now at 0) v }
{
    in_type(byte(s, at), v)
}

// What a slot holds at first: the initial value whose four bytes stand at a position, or 0 where the slot is unused.
pub fn initial(s: &[u8], at: usize, used: bool) -> i32
    ensures { result ≡ initial_at s.now at used }
{
    if used { from_bits(word4(s, at)) } else { 0 }
}
