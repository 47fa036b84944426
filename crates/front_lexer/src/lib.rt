#![tactic(auto)]
// The lexer: the tokens of a text into lent arrays, and the token at a place.
ghost use Rattle.std.specs.Prelude.{◌≡◌};
ghost use Rattle.spec_language.specs.Lexer.{token_at};
ghost use Rattle.front_lexer.specs.Tokens.{Lexing};

pub mod parts;

use base_answers::Refusal;
use base_codes::limit;
use front_token::pieces::Piece;
use front_token::{bytes, kinds, pieces};

// Writes the kind, the place and the size of each token, in order, and answers how many there are, or refusal 1 or 2. Each turn of the loop passes a blank,
// another gap or a token; blanks are passed here, since there are as many of them as of tokens.
pub fn lex(
    text: &[u8],
    kinds: &mut [u8; limit::TEXT],
    starts: &mut [u16; limit::TEXT],
    sizes: &mut [u16; limit::TEXT],
) -> Result<usize, Refusal>
    ensures { Lexing text.now result kinds.old kinds.new starts.old starts.new
        sizes.old sizes.new }
{
    if text.len() > limit::TEXT {
        return Err(Refusal::TextTooLong);
    }
    let table = kinds::table();
    let mut i = 0;
    let mut n = 0;
    while i < text.len() {
        if bytes::is_blank(&table, text[i]) {
            i += 1;
        } else {
            match pieces::piece_at(&table, text, i) {
                Piece::Gap(end) => i = end,
                Piece::Token(kind, end) => {
                    kinds[n] = kind;
                    starts[n] = i as u16;
                    sizes[n] = (end - i) as u16;
                    n += 1;
                    i = end;
                }
                Piece::Nothing => return Err(Refusal::NoToken(i)),
            }
        }
    }
    Ok(n)
}

// The token that starts at a place, as that part of the text, or an empty part. Pieces after the place are not read; blanks are passed here, as in `lex`.
pub fn token_at<'a>(text: &'a [u8], place: usize) -> &'a [u8]
    ensures { result.now ≡ token_at text.now place }
{
    let table = kinds::table();
    let mut i = 0;
    while i < text.len() {
        if place < i {
            return &[];
        }
        if bytes::is_blank(&table, text[i]) {
            i += 1;
        } else {
            match pieces::piece_at(&table, text, i) {
                Piece::Gap(end) => i = end,
                Piece::Token(_, end) => {
                    if i == place {
                        return &text[i..end];
                    }
                    i = end;
                }
                Piece::Nothing => return &[],
            }
        }
    }
    &[]
}
