// Bytes put behind those of a line.
ghost use Rattle.std.specs.Prelude.{◌≡◌, [], ◌∷◌, map};
ghost use Rattle.spec_language.specs.Bytes.{lower};
ghost use Rattle.trace_header.specs.Lines.{Puts};

use crate::ROOM;
use front_token::bytes::lower_case;

// One byte; where there is no room, none.
pub(crate) fn put(out: &mut [u8; ROOM], n: usize, b: u8) -> usize
    ensures { Puts out.old n (b ∷ []) out.new result }
{
    if n < ROOM {
        out[n] = b;
        n + 1
    } else {
        n
    }
}

// The bytes of a word, folded to lower case.
pub(crate) fn put_folded(word: &[u8], out: &mut [u8; ROOM], n: usize) -> usize
    ensures { Puts out.old n (map lower word.now) out.new result }
{
    let mut m = n;
    for b in word {
        m = put(out, m, lower_case(*b));
    }
    m
}
