#![tactic(auto)]
// Tokens that pass a limit wherever they stand, "name 32 bytes" and "literal 2147483647": a flag for each token, read by the parser.
ghost use Rattle.std.specs.Prelude.{◌≡◌};
ghost use Rattle.spec_language.specs.Words.{value};
ghost use Rattle.front_token.specs.Places.{part};
ghost use Rattle.front_limits.specs.Flags.{number_flag, flag_of, marked};

use base_codes::limit;
use base_codes::token::{NAME, NUMBER};
use front_lexer::parts::number_value;

// The longest name, and the largest literal.
const MOST_BYTES: u16 = limit::NAME as u16;

const MOST: u64 = limit::INTEGER as u64;

// Whether the number in a part of the text is above the largest literal.
fn number_flag(text: &[u8], start: usize, size: usize) -> u8
    ensures { result ≡ number_flag (value 0 (part text.now start size)) }
{
    u8::from(number_value(text, start, size) > MOST)
}

// The flag of a token of this kind that has so many bytes from a place on. Only a number's bytes are read.
fn flag(text: &[u8], kind: u8, start: u16, size: u16) -> u8
    ensures { result ≡ flag_of text.now kind start size }
{
    match kind {
        NAME => u8::from(size > MOST_BYTES),
        NUMBER => number_flag(text, usize::from(start), usize::from(size)),
        _ => 0,
    }
}

// Writes the flag of each token, 1 where it passes a limit and 0 elsewhere, of as many tokens as the arrays have room for. The flags are bytes and no bools:
// the same array holds bytes of other stages later (no heap, fixed memory).
pub fn mark(
    text: &[u8],
    kinds: &[u8; limit::TEXT],
    starts: &[u16; limit::TEXT],
    sizes: &[u16; limit::TEXT],
    n: usize,
    long: &mut [u8; limit::TEXT],
)
    ensures { long.new ≡ marked text.now kinds.now starts.now sizes.now n long.old }
{
    for i in 0..n.min(limit::TEXT) {
        long[i] = flag(text, kinds[i], starts[i], sizes[i]);
    }
}
