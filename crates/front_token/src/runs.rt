// Where the longest run of bytes from a place ends.
ghost use Rattle.std.specs.Prelude.{◌≡◌, ℕ, Bool};
ghost use Rattle.spec_language.specs.Bytes.{in_word, is_digit, not_lf};
ghost use Rattle.front_token.specs.Kinds.{Kinds};
ghost use Rattle.front_token.specs.Places.{Tells, end_of_run};

use crate::bytes;
use crate::kinds::{BYTES, ByteKind};

// The end of the bytes that pass a test.
fn run_end<P: Fn(u8) -> bool>(passes: P, text: &[u8], at: usize) -> usize
    requires { P.IsAlwaysCallable passes }
    ensures { (p : ℕ → Bool) → Tells (P.post passes) p → result ≡ end_of_run p text.now at }
{
    for i in at..text.len() {
        if !passes(text[i]) {
            return i;
        }
    }
    at.max(text.len())
}

// The end of the letters, digits and underscores.
pub(crate) fn word_end(table: &[ByteKind; BYTES], text: &[u8], at: usize) -> usize
    requires { Kinds table.now }
    ensures { result ≡ end_of_run in_word text.now at }
{
    run_end(|b| bytes::in_word(table, b), text, at)
}

// The end of the digits.
pub(crate) fn digits_end(table: &[ByteKind; BYTES], text: &[u8], at: usize) -> usize
    requires { Kinds table.now }
    ensures { result ≡ end_of_run is_digit text.now at }
{
    run_end(|b| bytes::is_digit(table, b), text, at)
}

// The end of a comment: the next LF, or the text's end.
pub(crate) fn comment_end(text: &[u8], at: usize) -> usize
    ensures { result ≡ end_of_run not_lf text.now at }
{
    run_end(|b| b != b'\n', text, at)
}
