#![tactic(auto)]
// The public operations in the forms that document 01 names, none with a `requires`. `compile` and `cycle` (the state by `&mut`) are proved where they stand and
// named here again; `fresh`, `direct` and `direct_fresh` store the caller's own state record (calls.rt); the opened image holds the caller's bytes and the bounds
// of the three sections, which it lends out as parts of those bytes, and `token_at` a part of the text.
pub mod calls;

ghost use Rattle.std.specs.Prelude.{◌≡◌, ◌+◌, length};
ghost use Rattle.spec_language.specs.Lexer.{token_at};
ghost use Rattle.spec_interface.specs.Lending.{Lends};
ghost use Rattle.base_answers.specs.Answers.{told};
ghost use Rattle.api_rattle.specs.Lending.{opening_of, bounds_in};

use base_answers::{Refusal, Sections};
pub use calls::{direct, direct_fresh, fresh};
pub use image_compiler::compile;
pub use image_runtime::advance_state as cycle;

// The bounds of three empty sections.
const NO_SECTIONS: Sections = Sections {
    signature: 0,
    lines: 0,
    code: 0,
    end: 0,
};

// An image with what opening it has found: the bounds of its sections, or the refusal.
#[derive(Clone, Copy)]
pub struct Image<'a> {
    pub bytes: &'a [u8],
    pub opening: Result<Sections, Refusal>,
}

// What opening finds.
pub fn find(bytes: &[u8]) -> Result<Sections, Refusal>
    ensures { told result ≡ opening_of bytes.now }
{
    image_loader::open(bytes)
}

// The bytes from a start up to an end, as that part; an empty part where they do not lie in the bytes.
fn between<'a>(bytes: &'a [u8], start: usize, end: usize) -> &'a [u8]
    ensures { Lends bytes.entry start end result }
{
    if end < start {
        return &bytes[0..0];
    }
    if bytes.len() < end {
        return &bytes[0..0];
    }
    &bytes[start..end]
}

// Any bytes opened as an image, or refused by 11, 12 or 13.
pub fn open<'a>(bytes: &'a [u8]) -> Image<'a>
    ensures { (result.bytes ≡ bytes.entry) × (told result.opening ≡ opening_of bytes.now) }
{
    Image {
        bytes,
        opening: find(bytes),
    }
}

// The signature section.
pub fn signature<'a>(i: Image<'a>) -> &'a [u8]
    ensures { Lends i.entry.bytes (bounds_in i.entry.opening).signature (bounds_in i.entry.opening).lines result }
{
    let at = i.opening.unwrap_or(NO_SECTIONS);
    between(i.bytes, at.signature, at.lines)
}

// The lines section.
pub fn lines<'a>(i: Image<'a>) -> &'a [u8]
    ensures { Lends i.entry.bytes (bounds_in i.entry.opening).lines (bounds_in i.entry.opening).code result }
{
    let at = i.opening.unwrap_or(NO_SECTIONS);
    between(i.bytes, at.lines, at.code)
}

// The code section.
pub fn code<'a>(i: Image<'a>) -> &'a [u8]
    ensures { Lends i.entry.bytes (bounds_in i.entry.opening).code (bounds_in i.entry.opening).end result }
{
    let at = i.opening.unwrap_or(NO_SECTIONS);
    between(i.bytes, at.code, at.end)
}

// So many bytes from a start on, as that part; an empty part where they do not lie in the bytes.
fn part<'a>(bytes: &'a [u8], start: usize, n: usize) -> &'a [u8]
    ensures { Lends bytes.entry start (start + n) result }
{
    if bytes.len() < start {
        return between(bytes, 1, 0);
    }
    if bytes.len() - start < n {
        return between(bytes, 1, 0);
    }
    between(bytes, start, start + n)
}

// The length of the token that starts at a place, or 0.
fn token_length(text: &[u8], place: usize) -> usize
    ensures { result ≡ length (token_at text.now place) }
{
    let t = front_lexer::token_at(text, place);
    t.len()
}

// The token that starts at a place, as that part of the text: at the place itself; or an empty part where none starts.
pub fn token_at<'a>(text: &'a [u8], place: usize) -> &'a [u8]
    ensures { (result.now ≡ token_at text.now place) × Lends text.entry place (place + length (token_at text.now place)) result }
{
    let n = token_length(text, place);
    part(text, place, n)
}
