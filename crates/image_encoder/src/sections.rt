// The sections of an image stored into a buffer, each at its place: header, signature, lines, code.
ghost use Rattle.std.specs.Prelude.{◌≡◌, [], ◌∷◌, ◌++◌, ◌+◌, ◌%◌, ◌<◌, ◌≤◌};
ghost use Rattle.std.proofs.lemmas.List.Edits.{sets};
ghost use Rattle.base_codes.specs.Image.{HEADER, SIGNATURE, LINE_NEXT};
ghost use Rattle.base_ir.specs.Arrays.{row_in, Bounded};
ghost use Rattle.spec_format.specs.Words.{bytes2, bytes4};
ghost use Rattle.spec_format.specs.Image.{raw_bytes, raws_bytes};
ghost use Rattle.image_encoder.specs.Emitted.{code_from, run_width, kind_byte, line_at, lines_from, types_from, cells_from, slots_from, signature_from, signature_size, lines_size, sections_of, header_of};

use crate::bytes::{put_all, put_cell, put_op, put_words, put2, put4};
use base_codes::operation::width;
use base_codes::{image, limit, statement};
use base_ir::{Declared, Names};
use image_flow::Links;

// How many bytes of the header a section's start has; its length stands behind it.
const START_SIZE: usize = image::SIGNATURE_SIZE - image::SIGNATURE;

// Where a section starts, and its length.
fn put_section(image: &mut [u8], at: usize, start: u32, size: usize)
    requires { (at < 1000) × (size < 1000000) }
    ensures { image.new ≡ sets image.old at (bytes4 start ++ bytes4 size) }
{
    put4(image, at, start);
    put4(image, at + START_SIZE, size as u32);
}

// The places of three sections of these lengths, one behind another.
fn put_sections(image: &mut [u8], s: usize, l: usize, c: usize)
    requires { (s < 1000000) × (l < 1000000) × (c < 1000000) }
    ensures { image.new ≡ sets image.old SIGNATURE (sections_of s l c) }
{
    put_section(image, image::SIGNATURE, image::FIRST, s);
    put_section(image, image::LINES, (image::HEADER + s) as u32, l);
    put_section(image, image::CODE, (image::HEADER + s + l) as u32, c);
}

// The header of an image whose sections have these lengths.
fn put_header(image: &mut [u8], s: usize, l: usize, c: usize)
    requires { (s < 1000000) × (l < 1000000) × (c < 1000000) }
    ensures { image.new ≡ sets image.old 0 (header_of s l c) }
{
    put_words(image, image::FORM, image::FORM_1, image::THREE);
    put_sections(image, s, l, c);
}

// The types of declared names.
#[tactic(auto, using(crate::proofs::SectionsLaws::types_first))]
fn put_types(image: &mut [u8], at: usize, names: &Names)
    requires { (at < 1000) × (names.now.count ≤ 32) }
    ensures { image.new ≡ sets image.old at (types_from names.now.types 0 names.now.count) }
{
    put_all(image, at, &names.types[..names.count]);
}

// Their types and initial values.
fn put_cells(image: &mut [u8], at: usize, names: &Names)
    requires { (at < 1000) × (names.now.count ≤ 32) }
    ensures { image.new ≡ sets image.old at (cells_from names.now.types names.now.values 0 names.now.count) }
{
    for k in 0..names.count {
        put_cell(image, at + image::SLOT * k, names.types[k], names.values[k]);
    }
}

// How many bytes the signature section has.
pub(crate) fn signature_size(d: Declared) -> usize
    requires { Bounded d }
    ensures { result ≡ signature_size d }
{
    image::COUNTS + d.inputs.count + image::SLOT * d.outputs.count + image::SLOT * d.variables.count
}

// The counts of inputs, outputs and variables.
fn put_counts(image: &mut [u8], inputs: usize, outputs: usize, variables: usize)
    requires { (inputs ≤ 16) × (outputs ≤ 16) × (variables ≤ 32) }
    ensures { image.new ≡ sets image.old HEADER (inputs ∷ outputs ∷ variables ∷ []) }
{
    let counts = [inputs as u8, outputs as u8, variables as u8];
    put_all(image, image::INPUT_COUNT, &counts);
}

// The outputs and, behind them, the variables.
#[tactic(auto, using(crate::proofs::SectionsLaws::slots_made))]
fn put_slots(image: &mut [u8], at: usize, d: Declared)
    requires { (at < 100) × Bounded d }
    ensures { image.new ≡ sets image.old at (slots_from d) }
{
    put_cells(image, at, &d.outputs);
    put_cells(image, at + image::SLOT * d.outputs.count, &d.variables);
}

// The signature section.
#[tactic(auto, using(crate::proofs::SectionsLaws::signature_made))]
fn put_signature(image: &mut [u8], d: Declared)
    requires { Bounded d }
    ensures { image.new ≡ sets image.old HEADER (signature_from d) }
{
    put_counts(image, d.inputs.count, d.outputs.count, d.variables.count);
    put_types(image, image::INPUT_TYPES, &d.inputs);
    put_slots(image, image::INPUT_TYPES + d.inputs.count, d);
}

// Header and signature section of a design whose code has c bytes.
pub(crate) fn put_front(image: &mut [u8], d: Declared, c: usize)
    requires { Bounded d × (c < 1000000) }
    ensures { image.new ≡ sets image.old 0 (header_of (signature_size d) (lines_size d) c ++ signature_from d) }
{
    put_header(image, signature_size(d), image::LINE * d.statements, c);
    put_signature(image, d);
}

// How many bytes the operations from an index up to another have.
pub(crate) fn run_width(codes: &[u8; limit::TEXT], from: usize, to: usize) -> usize
    ensures value { result ≡ run_width codes.now from to }
    ensures upper_bound { result ≤ 81920 }
{
    let stop = to.min(limit::TEXT);
    let mut w = 0;
    for i in from..stop {
        w += width(codes[i]);
    }
    w
}

// How many bytes there are.
const BYTES: u16 = u8::MAX as u16 + 1;

// The kind byte of a line: a loop is a branch.
fn kind_byte(kind: u16) -> u8
    ensures { result ≡ kind_byte kind }
{
    match kind {
        statement::WHILE => image::BRANCH,
        _ => (kind % BYTES) as u8,
    }
}

// Kind and target of statement j.
fn put_act(image: &mut [u8], at: usize, rows: &[u16; statement::ROWS], j: usize)
    requires { (at < 900000) × (j < 512) }
    ensures { image.new ≡ sets image.old at (kind_byte (row_in rows.now j).kind ∷ (row_in rows.now j).target % 256 ∷ []) }
{
    let row = statement::ROW * j;
    let target = rows[row + statement::TARGET];
    put_all(image, at, &[kind_byte(rows[row]), (target % BYTES) as u8]);
}

// The followers and the reach of the line at a place.
fn put_followers(image: &mut [u8], at: usize, next: u16, other: u16, reach: u16)
    requires { at < 900000 }
    ensures { image.new ≡ sets image.old (at + LINE_NEXT) (bytes2 next ++ (bytes2 other ++ bytes2 reach)) }
{
    put_words(
        image,
        at + image::LINE_NEXT,
        u32::from(next),
        u32::from(other),
    );
    put2(image, at + image::LINE_REACH, u32::from(reach));
}

// The line of statement j.
fn put_row(
    image: &mut [u8],
    at: usize,
    rows: &[u16; statement::ROWS],
    j: usize,
    offset: usize,
    size: usize,
    next: u16,
    other: u16,
    reach: u16,
)
    requires { (at < 900000) × (j < 512) × (offset < 50000000) × (size < 100000) }
    ensures { image.new ≡ sets image.old at (raw_bytes (line_at (row_in rows.now j) offset size next other reach)) }
{
    put_act(image, at, rows, j);
    put_words(image, at + image::LINE_CODE, offset as u32, size as u32);
    put_followers(image, at, next, other, reach);
}

// How many bytes the code of statement j has.
fn code_size(codes: &[u8; limit::TEXT], rows: &[u16; statement::ROWS], j: usize) -> usize
    requires { j < 512 }
    ensures value { result ≡ run_width codes.now (row_in rows.now j).from (row_in rows.now j).to }
    ensures upper_bound { result ≤ 81920 }
{
    let from = rows[statement::ROW * j + statement::FROM];
    let to = rows[statement::ROW * j + statement::TO];
    run_width(codes, usize::from(from), usize::from(to))
}

// The lines of n statements with these followers and reaches.
pub(crate) fn put_lines(
    image: &mut [u8],
    at: usize,
    codes: &[u8; limit::TEXT],
    rows: &[u16; statement::ROWS],
    n: usize,
    links: &Links,
    reaches: &[u16; limit::STATEMENTS],
)
    requires { (at < 1000) × (n ≤ 512) }
    ensures { image.new ≡ sets image.old at (raws_bytes (lines_from codes.now rows.now links.now reaches.now 0 n 0)) }
{
    let mut p = 0;
    for j in 0..n {
        let size = code_size(codes, rows, j);
        put_row(
            image,
            at + image::LINE * j,
            rows,
            j,
            p,
            size,
            links.next[j],
            links.other[j],
            reaches[j],
        );
        p += size;
    }
}

// The code of k operations.
pub(crate) fn put_code(
    image: &mut [u8],
    at: usize,
    codes: &[u8; limit::TEXT],
    args: &[i32; limit::TEXT],
    k: usize,
)
    requires { (at < 100000) × (k ≤ 16384) }
    ensures { image.new ≡ sets image.old at (code_from codes.now args.now 0 k) }
{
    let mut p = at;
    for i in 0..k {
        p += put_op(image, p, codes[i], args[i]);
    }
}
