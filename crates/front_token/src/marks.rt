#![tactic(auto, unfolding(crate::specs::Fixed::fixed_kind, crate::specs::Fixed::of_length, spec_language::specs::Bytes::fixed, spec_language::specs::Bytes::bytes, spec_language::specs::Lexing::equal))]
// Marks and the literals '0' and '1', the longest first.
ghost use Rattle.std.specs.Prelude.{◌≡◌, [], ◌∷◌, ◌<◌, length, drop};
ghost use Rattle.spec_language.specs.Lexer.{fixed_start};
ghost use Rattle.spec_language.specs.Bytes.{fixed};
ghost use Rattle.front_token.specs.Pieces.{placed};
ghost use Rattle.front_token.specs.Fixed.{fixed_kind, of_length};

use crate::bytes;
use crate::pieces::Piece;
use base_codes::token;

// The kind of the literal that three bytes are.
fn of_three(b: u8, c: u8, d: u8) -> Option<u8>
    ensures { result ≡ fixed_kind (of_length 3 fixed) (b ∷ c ∷ d ∷ []) }
{
    match (b, c, d) {
        (b'\'', b'0', b'\'') => Some(token::ZERO),
        (b'\'', b'1', b'\'') => Some(token::ONE),
        _ => None,
    }
}

// The kind of the mark that two bytes are.
fn of_two(b: u8, c: u8) -> Option<u8>
    ensures { result ≡ fixed_kind (of_length 2 fixed) (b ∷ c ∷ []) }
{
    match (b, c) {
        (b':', b'=') => Some(token::BECOMES),
        (b'/', b'=') => Some(token::NE),
        (b'<', b'=') => Some(token::LE),
        (b'>', b'=') => Some(token::GE),
        _ => None,
    }
}

// The kind of the mark that one byte is.
fn of_one(b: u8) -> Option<u8>
    ensures { result ≡ fixed_kind (of_length 1 fixed) (b ∷ []) }
{
    match b {
        b'(' => Some(token::LP),
        b')' => Some(token::RP),
        b';' => Some(token::SEMI),
        b':' => Some(token::COLON),
        b',' => Some(token::COMMA),
        b'+' => Some(token::PLUS),
        b'-' => Some(token::MINUS),
        b'=' => Some(token::EQ),
        b'<' => Some(token::LT),
        b'>' => Some(token::GT),
        b'*' => Some(token::TIMES),
        b'/' => Some(token::DIVIDE),
        _ => None,
    }
}

// "the longest taken first".
pub(crate) fn fixed_at(text: &[u8], at: usize) -> Piece
    requires { at < length text.now }
    ensures { result ≡ placed (fixed_start fixed (drop at text.now)) at }
{
    let b = text[at];
    let c = bytes::byte_at(text, at + 1);
    let d = bytes::byte_at(text, at + 2);
    if let Some(kind) = of_three(b, c, d) {
        Piece::Token(kind, at + 3)
    } else if let Some(kind) = of_two(b, c) {
        Piece::Token(kind, at + 2)
    } else if let Some(kind) = of_one(b) {
        Piece::Token(kind, at + 1)
    } else {
        Piece::Nothing
    }
}
