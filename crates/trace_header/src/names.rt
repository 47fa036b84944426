// Names at their places in the text, in lower case.
ghost use Rattle.std.specs.Prelude.{◌∷◌, map, min};
ghost use Rattle.base_codes.specs.Limit.{VARIABLES};
ghost use Rattle.spec_language.specs.Bytes.{lower};
ghost use Rattle.front_token.specs.Places.{part};
ghost use Rattle.trace_header.specs.Lines.{Puts};
ghost use Rattle.trace_header.specs.Positions.{label_at, labels_from};

use crate::{ROOM, bytes};
use base_codes::limit;
use front_lexer::parts::part_of;

// A space and the name that starts at a place.
fn put_name(text: &[u8], start: u16, size: u16, out: &mut [u8; ROOM], m: usize) -> usize
    ensures { Puts out.old m (32 ∷ map lower (part text.now start size)) out.new result }
{
    let next = bytes::put(out, m, b' ');
    let word = part_of(text, usize::from(start), usize::from(size));
    bytes::put_folded(word, out, next)
}

// All names, in declared order; as many as the arrays have room for.
pub(crate) fn put_names(
    text: &[u8],
    starts: &[u16; limit::VARIABLES],
    sizes: &[u16; limit::VARIABLES],
    count: usize,
    out: &mut [u8; ROOM],
    m: usize,
) -> usize
    ensures { Puts out.old m (labels_from (label_at text.now starts.now sizes.now) 0 (min count VARIABLES)) out.new result }
{
    let mut next = m;
    for k in 0..count.min(limit::VARIABLES) {
        next = put_name(text, starts[k], sizes[k], out, next);
    }
    next
}
