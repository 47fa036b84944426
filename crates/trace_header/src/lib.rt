#![tactic(auto)]
// The header of a trace, from the text: `cycle wait lines`, then the output names in lower case, at the places that the front end hands out.
ghost use Rattle.std.specs.Prelude.{◌≡◌, []};
ghost use Rattle.trace_header.specs.Lines.{line_of, Headed, Shows};
ghost use Rattle.trace_header.specs.Positions.{header_at};

mod bytes;
mod names;

use base_codes::{limit, statement};
use base_ir::Names;

// Bytes that a line has room for: `cycle wait lines`, a space and a name for each output, the end, and some to spare.
pub const ROOM: usize = 560;

// Bytes and how many of them count; those behind are 0.
#[derive(Clone, Copy)]
pub struct Line {
    pub bytes: [u8; ROOM],
    pub size: usize,
}

// No bytes.
fn blank() -> Line
    ensures { result ≡ line_of [] }
{
    let bytes = [0u8; ROOM];
    Line { bytes, size: 0 }
}

// The header with these outputs' names.
fn named_line(text: &[u8], outputs: Names) -> Line
    ensures { Shows result.bytes result.size (header_at text.now outputs) }
{
    let mut bytes = [0u8; ROOM];
    let first = bytes::put_folded(b"cycle wait lines", &mut bytes, 0);
    let starts = outputs.starts;
    let sizes = outputs.sizes;
    let next = names::put_names(text, &starts, &sizes, outputs.count, &mut bytes, first);
    let size = bytes::put(&mut bytes, next, b'\n');
    Line { bytes, size }
}

// The header of an accepted text; of a refused one no bytes. The arrays of its design are of no use here.
pub fn header(text: &[u8]) -> Line
    ensures { Headed text.now result }
{
    let mut ops = [0u8; limit::TEXT];
    let mut args = [0i32; limit::TEXT];
    let mut lines = [0u16; statement::ROWS];
    match front_accept::accept(text, &mut ops, &mut args, &mut lines) {
        Ok(declared) => named_line(text, declared.outputs),
        Err(_) => blank(),
    }
}
