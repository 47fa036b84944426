// Refusal 12: counts, type bytes, initial values, and a section exactly filled. One pass.
ghost use Rattle.std.specs.Prelude.{◌≡◌, ◌&&◌, ◌+◌, ◌*◌, ◌<◌, ◌≤◌, length, get_or, drop, ltb};
ghost use Rattle.spec_format.specs.Signature.{read_types, read_cell, read_cells, signature_of};
ghost use Rattle.spec_design.specs.Types.{type_of_byte};
ghost use Rattle.base_codes.specs.Image.{SLOT};
ghost use Rattle.base_codes.specs.Limit.{IMAGE};
ghost use Rattle.image_loader.specs.Sections.{is_some};

use base_codes::{image, limit};

// The byte at a position as a count.
pub(crate) fn count(s: &[u8], at: usize) -> usize
    ensures value { result ≡ get_or s.now at 0 }
    ensures upper_bound { result < 256 }
{
    usize::from(image_words::byte(s, at))
}

// There is a type byte at a position.
#[tactic(auto, using(crate::proofs::SignatureLaws::type_there))]
fn type_byte(s: &[u8], at: usize) -> bool
    ensures { result ≡ (ltb at (length s.now) && is_some (type_of_byte (get_or s.now at 0))) }
{
    at < s.len() && base_codes::types::is_type_byte(s[at])
}

// There are n type bytes from a position on.
fn types(s: &[u8], at: usize, n: usize) -> bool
    requires { at + n ≤ IMAGE }
    ensures { result ≡ is_some (read_types n (drop at s.now)) }
{
    (at..at + n).all(|place| type_byte(s, place))
}

// There is a type byte with a value of its type at a position.
fn cell(s: &[u8], at: usize) -> bool
    requires { at ≤ IMAGE }
    ensures { result ≡ is_some (read_cell (drop at s.now)) }
{
    at + image::SLOT <= s.len()
        && base_signed::in_type(s[at], base_signed::from_bits(image_words::word4(s, at + 1)))
}

// There are n types with their initial values from a position on.
fn cells(s: &[u8], at: usize, n: usize) -> bool
    requires { at + SLOT * n ≤ IMAGE }
    ensures { result ≡ is_some (read_cells n (drop at s.now)) }
{
    (0..n).all(|k| cell(s, at + image::SLOT * k))
}

// The section is a signature's; where not, the image is refused by 12.
pub(crate) fn has_signature(s: &[u8]) -> bool
    ensures { result ≡ is_some (signature_of s.now) }
{
    if s.len() < image::COUNTS {
        return false;
    }
    let inputs = count(s, image::INPUTS);
    let outputs = count(s, image::OUTPUTS);
    let variables = count(s, image::VARIABLES);
    inputs <= limit::INPUTS
        && outputs <= limit::OUTPUTS
        && variables <= limit::VARIABLES
        && types(s, image::COUNTS, inputs)
        && cells(s, image::COUNTS + inputs, outputs)
        && cells(s, image::COUNTS + inputs + image::SLOT * outputs, variables)
        && s.len() <= image::COUNTS + inputs + image::SLOT * outputs + image::SLOT * variables
}
