// What starts at a place of a text.
ghost use Rattle.std.specs.Prelude.{◌≡◌, suc, ◌≤◌, ◌<◌, length, get_or, drop};
ghost use Rattle.spec_language.specs.Bytes.{mark, in_word, is_digit};
ghost use Rattle.spec_language.specs.Words.{is_dashes};
ghost use Rattle.spec_language.specs.Lexer.{run, word_start, number_start, start_from};
ghost use Rattle.front_token.specs.Kinds.{Kinds};
ghost use Rattle.front_token.specs.Pieces.{placed, piece_at};

use crate::kinds::{BYTES, ByteKind};
use crate::{bytes, marks, runs, words};
use base_codes::token;

// A gap (a blank or a comment) up to an end, a token with its kind up to an end, or no token.
#[derive(Clone, Copy)]
pub enum Piece {
    Gap(usize),
    Token(u8, usize),
    Nothing,
}

// A word: a malformed one is no token.
fn word_at(table: &[ByteKind; BYTES], text: &[u8], at: usize) -> Piece
    requires { Kinds table.now × (at ≤ length text.now) }
    ensures { result ≡ placed (word_start (run in_word (drop at text.now))) at }
{
    let end = runs::word_end(table, text, at);
    let word = &text[at..end];
    if words::well_made(table, word) {
        Piece::Token(words::word_kind(word), end)
    } else {
        Piece::Nothing
    }
}

// A number: digits only.
fn number_at(table: &[ByteKind; BYTES], text: &[u8], at: usize) -> Piece
    requires { Kinds table.now }
    ensures { result ≡ placed (number_start (run is_digit (drop at text.now))) at }
{
    Piece::Token(token::NUMBER, runs::digits_end(table, text, at))
}

// "-- opens a comment".
fn opens_comment(text: &[u8], at: usize) -> bool
    requires { at < length text.now }
    ensures { result ≡ is_dashes (get_or text.now at 0) (drop (suc at) text.now) }
{
    text[at] == b'-' && bytes::byte_at(text, at + 1) == b'-'
}

// A comment, a mark, or a literal in quotes, which opens no comment.
fn mark_at(text: &[u8], at: usize) -> Piece
    requires { at < length text.now }
    ensures { result ≡ placed (start_from mark (get_or text.now at 0) (drop (suc at) text.now)) at }
{
    if opens_comment(text, at) {
        Piece::Gap(runs::comment_end(text, at + 1))
    } else {
        marks::fixed_at(text, at)
    }
}

// What starts at a place, by the kind of the byte there; past the text's end, nothing.
pub fn piece_at(table: &[ByteKind; BYTES], text: &[u8], at: usize) -> Piece
    requires { Kinds table.now }
    ensures { result ≡ piece_at text.now at }
{
    if at >= text.len() {
        return Piece::Nothing;
    }
    match bytes::kind_of(table, text[at]) {
        ByteKind::Letter => word_at(table, text, at),
        ByteKind::Blank => Piece::Gap(at + 1),
        ByteKind::Digit => number_at(table, text, at),
        ByteKind::Quote | ByteKind::Mark => mark_at(text, at),
        ByteKind::Underscore | ByteKind::Other => Piece::Nothing,
    }
}
