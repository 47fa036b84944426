// Bytes stored into a buffer: numbers of one, two and four bytes, and operations.
ghost use Rattle.std.specs.Prelude.{◌≡◌, ◌∷◌, ◌++◌, ◌<◌, ◌≤◌, set, length};
ghost use Rattle.std.proofs.lemmas.List.Edits.{sets};
ghost use Rattle.spec_format.specs.Words.{bytes2, bytes4};
ghost use Rattle.spec_semantics.specs.Twos.{unsigned32};
ghost use Rattle.base_codes.specs.Operation.{width_of};
ghost use Rattle.image_encoder.specs.Emitted.{op_bytes};

use base_codes::operation;
use image_words::byte_of;

// How many bytes a two-byte number has.
const WORD: usize = 2;

// Stores a byte, unless the place is past the end. By index: the contract of a slice's get_mut does not say what the slice is afterwards.
pub(crate) fn put(image: &mut [u8], at: usize, b: u8)
    ensures { image.new ≡ set image.old at b }
{
    if at < image.len() {
        image[at] = b;
    }
}

// Stores bytes one behind another.
pub(crate) fn put_all(image: &mut [u8], at: usize, bytes: &[u8])
    requires { (at < 2000000) × (length bytes.now ≤ 32) }
    ensures { image.new ≡ sets image.old at bytes.now }
{
    for (k, b) in bytes.iter().enumerate() {
        put(image, at + k, *b);
    }
}

// Stores a two-byte number.
pub(crate) fn put2(image: &mut [u8], at: usize, n: u32)
    requires { at < 2000000 }
    ensures { image.new ≡ sets image.old at (bytes2 n) }
{
    put_all(image, at, &n.to_le_bytes()[..WORD]);
}

// Stores two two-byte numbers.
pub(crate) fn put_words(image: &mut [u8], at: usize, a: u32, b: u32)
    requires { at < 1000000 }
    ensures { image.new ≡ sets image.old at (bytes2 a ++ bytes2 b) }
{
    put2(image, at, a);
    put2(image, at + WORD, b);
}

// Stores a four-byte number.
pub(crate) fn put4(image: &mut [u8], at: usize, n: u32)
    requires { at < 1000000 }
    ensures { image.new ≡ sets image.old at (bytes4 n) }
{
    put_all(image, at, &n.to_le_bytes());
}

// Stores a type byte and a four-byte initial value.
pub(crate) fn put_cell(image: &mut [u8], at: usize, kind: u8, value: i32)
    requires { at < 900000 }
    ensures { image.new ≡ sets image.old at (kind ∷ bytes4 (unsigned32 value)) }
{
    put(image, at, kind);
    put_all(image, at + 1, &value.to_le_bytes());
}

// Stores an operation, and answers how many bytes it has.
#[tactic(auto, unfolding(crate::specs::Emitted::op_bytes))]
pub(crate) fn put_op(image: &mut [u8], at: usize, code: u8, arg: i32) -> usize
    requires { at < 900000 }
    ensures { (result ≡ width_of code) × (result ≤ 5) × (image.new ≡ sets image.old at (op_bytes code arg)) }
{
    let width = operation::width(code);
    if code == operation::INTEGER {
        put_cell(image, at, code, arg);
        return width;
    }
    put(image, at, code);
    if width != 1 {
        put(image, at + 1, byte_of(base_signed::to_bits(arg), 0));
    }
    width
}
