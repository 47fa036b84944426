#![tactic(auto)]
// The image of a design that stands in arrays: followers, reaches, code, and the image's bytes in the caller's buffer.
ghost use Rattle.std.specs.Prelude.{◌≡◌, false, ◌<◌, ◌≤◌};
ghost use Rattle.base_ir.specs.Arrays.{Bounded};
ghost use Rattle.image_encoder.specs.Outcome.{LinesStored, BodyStored, Encodes, counts_ok};

use base_codes::{image, limit, statement};
use base_ir::Declared;
use image_flow::Links;

mod bytes;
mod sections;

// A buffer is too short for the image, which has this many bytes.
#[derive(Clone, Copy, PartialEq, Eq)]
pub struct TooShort {
    pub needed: usize,
}

// The lines section of n statements.
fn put_body(
    image: &mut [u8],
    at: usize,
    codes: &[u8; limit::TEXT],
    rows: &[u16; statement::ROWS],
    n: usize,
)
    requires { (at < 1000) × (n ≤ 512) }
    ensures { LinesStored codes.now rows.now n at image.old image.new }
{
    let mut links = Links {
        next: [0; limit::STATEMENTS],
        other: [0; limit::STATEMENTS],
    };
    let mut reach = [0; limit::STATEMENTS];
    image_flow::find(rows, n, &mut links, &mut reach);
    sections::put_lines(image, at, codes, rows, n, &links, &reach);
}

// The lines section of n statements and, behind it, the code section of their k operations.
fn put_statements(
    image: &mut [u8],
    at: usize,
    codes: &[u8; limit::TEXT],
    args: &[i32; limit::TEXT],
    rows: &[u16; statement::ROWS],
    k: usize,
    n: usize,
)
    requires { (at < 1000) × (k ≤ 16384) × (n ≤ 512) }
    ensures { BodyStored codes.now args.now rows.now k n at image.old image.new }
{
    put_body(image, at, codes, rows, n);
    sections::put_code(image, at + image::LINE * n, codes, args, k);
}

// Encodes a design whose counts are within the limits.
fn write_counted(
    codes: &[u8; limit::TEXT],
    args: &[i32; limit::TEXT],
    rows: &[u16; statement::ROWS],
    d: Declared,
    image: &mut [u8],
) -> Result<usize, TooShort>
    requires { Bounded d }
    ensures { Encodes codes.now args.now rows.now d image.old image.new result }
{
    let s = sections::signature_size(d);
    let c = sections::run_width(codes, 0, d.operations);
    let size = image::HEADER + s + image::LINE * d.statements + c;
    if image.len() < size {
        return Err(TooShort { needed: size });
    }
    sections::put_front(image, d, c);
    put_statements(
        image,
        image::HEADER + s,
        codes,
        args,
        rows,
        d.operations,
        d.statements,
    );
    Ok(size)
}

// Whether its counts are within the limits.
fn within(d: Declared) -> bool
    ensures { result ≡ counts_ok d }
{
    d.operations <= limit::TEXT
        && d.statements <= limit::STATEMENTS
        && d.inputs.count <= limit::INPUTS
        && d.outputs.count <= limit::OUTPUTS
        && d.variables.count <= limit::VARIABLES
}

// Encodes a design; counts past the limits are those of no design, and nothing is written for them.
pub fn write(
    codes: &[u8; limit::TEXT],
    args: &[i32; limit::TEXT],
    rows: &[u16; statement::ROWS],
    d: Declared,
    image: &mut [u8],
) -> Result<usize, TooShort>
    ensures { Encodes codes.now args.now rows.now d image.old image.new result
        × (counts_ok d ≡ false → (result ≡ Err (record { needed = 0 })) × (image.new ≡ image.old)) }
{
    if !within(d) {
        return Err(TooShort { needed: 0 });
    }
    write_counted(codes, args, rows, d, image)
}
