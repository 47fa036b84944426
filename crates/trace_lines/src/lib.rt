#![tactic(auto)]
// The trace in chunks: `start` compiles the text once, `first` is where the trace stands before the first row, and each call of `fill` checks the image
// once and puts the lines of as many rows into a lent buffer as it has room for. What is printed for a whole text is a refusal of `start` alone, or a
// header and then the lines.
ghost use Rattle.std.specs.Prelude.{◌≡◌, true, ◌≤◌, ◌+◌, min, length, take};
ghost use Rattle.spec_format.specs.Cycle.{cycle_of};
ghost use Rattle.trace_lines.specs.Rows.{decimals};
ghost use Rattle.trace_lines.specs.Reading.{short};
ghost use Rattle.trace_lines.specs.Stored.{Puts};
ghost use Rattle.trace_lines.specs.Chunks.{OpenedAt, line_of, shown, room, Shows, goes_on, first_of, next_of, has_more, fill_by, fill_of, Fills, begun_of};
ghost use Rattle.base_answers.specs.Answers.{done, cycle_told};
ghost use Rattle.spec_interface.specs.Compile.{compile_of};

mod printing;
mod rows;

use base_answers::{Counts, Refusal, Sections, State};
use base_codes::{image, limit, refusal};
use front_lexer::parts::part_of;

// Bytes that no line has more of.
const LINE: usize = 512;

// A row run: the state after it, and how many bytes of its line stand in the buffer.
#[derive(Clone, Copy)]
struct Ran {
    state: State,
    size: usize,
}

// Where a trace stands: the state, the number of the next row, and where that row begins.
#[derive(Clone, Copy)]
pub struct Progress {
    pub state: State,
    pub number: usize,
    pub at: usize,
}

// Lines of rows: where the trace stands after them, and how many bytes of the buffer they fill. No bytes: there is no row any more, the buffer has no
// room for a line, or the image is refused.
#[derive(Clone, Copy)]
pub struct Filled {
    pub progress: Progress,
    pub size: usize,
}

// The only line of a trace that has no rows, a refusal: how many bytes of it stand in the buffer.
#[derive(Clone, Copy, Debug, PartialEq, Eq)]
pub struct OnlyLine {
    pub size: usize,
}

// The line of the row n for a cycle's answer, the state after it and its output row.
fn show(answer: Result<Counts, Refusal>, place: u16, n: usize, row: &[i32], out: &mut [u8]) -> usize
    ensures { Puts out.old 0 (line_of n (cycle_told answer) place row.now) out.new result }
{
    match answer {
        Ok(c) => printing::performed_line(out, n, usize::from(place), c.lines, row),
        Err(r) => printing::refused_line(out, n, r.number() as usize),
    }
}

// The line of a row of these inputs; the lent output row is as long as the outputs are many.
fn run_row(
    image: &[u8],
    at: Sections,
    s: State,
    n: usize,
    inputs: &[i32],
    row: &mut [i32],
    out: &mut [u8],
) -> Ran
    requires { OpenedAt image.now at }
    ensures { (result.state ≡ (cycle_of image.now s inputs.now row.old).state)
        × Puts out.old 0 (shown n (cycle_of image.now s inputs.now row.old)) out.new result.size }
{
    let a = image_runtime::cycle_opened(image, at, s, inputs, row);
    let state = a.state;
    let answer = a.answer;
    let size = show(answer, state.place, n, row, out);
    Ran { state, size }
}

// The number of outputs of an image, at most 16.
fn outputs_of(image: &[u8]) -> usize
    ensures { result ≡ room image.now }
{
    usize::from(image_words::byte(image, image::OUTPUT_COUNT)).min(limit::OUTPUTS)
}

// The line of a row of these inputs, with an output row of its own.
fn call_row(image: &[u8], at: Sections, s: State, n: usize, inputs: &[i32], out: &mut [u8]) -> Ran
    requires { OpenedAt image.now at }
    ensures { Shows image.now s n (Some inputs.now) out.old result.state out.new result.size }
{
    let mut row = [0i32; limit::OUTPUTS];
    let m = outputs_of(image);
    run_row(image, at, s, n, inputs, &mut row[0..m], out)
}

// The line of the row that these bytes are.
fn row_line(image: &[u8], at: Sections, s: State, n: usize, line: &[u8], out: &mut [u8]) -> Ran
    requires { OpenedAt image.now at × (length line.now ≤ 65536) }
    ensures { Shows image.now s n (short (decimals line.now)) out.old result.state out.new result.size }
{
    let mut values = [0i32; limit::INPUTS];
    match rows::read_row(line, &mut values) {
        Some(k) => {
            let k = k.min(values.len());
            call_row(image, at, s, n, &values[..k], out)
        }
        None => {
            let size = printing::refused_line(out, n, refusal::BAD_ROW);
            Ran { state: s, size }
        }
    }
}

// Whether there is a row at a place: rows of more than 65,536 bytes are not traced, so no row's number is that high.
#[tactic(auto, unfolding(crate::specs::Chunks::goes_on))]
fn goes_on(length: usize, number: usize, at: usize) -> bool
    ensures { result ≡ goes_on length number at }
{
    length <= limit::TRACED && at < length && number < limit::TRACED
}

// Where the trace stands before the first row.
pub fn first(image: &[u8]) -> Progress
    ensures { result ≡ first_of image.now }
{
    let f = image_runtime::fresh(image);
    let state = f.state;
    Progress {
        state: state,
        number: 0,
        at: 0,
    }
}

// The line of the next row, which is there.
fn next(image: &[u8], at: Sections, rows: &[u8], p: Progress, out: &mut [u8]) -> Filled
    requires { OpenedAt image.now at × (goes_on (length rows.now) p.number p.at ≡ true) }
    ensures { (result.progress ≡ (next_of image.now rows.now p).1)
        × Puts out.old 0 (next_of image.now rows.now p).0 out.new result.size }
{
    let state = p.state;
    let number = p.number;
    let from = p.at;
    let end = rows::part_end(rows, from, b'\n');
    let ran = row_line(
        image,
        at,
        state,
        number,
        part_of(rows, from, end - from),
        out,
    );
    let after = ran.state;
    let progress = Progress {
        state: after,
        number: number + 1,
        at: (end + 1).min(rows.len()),
    };
    Filled {
        progress: progress,
        size: ran.size,
    }
}

// The line of the next row, put behind the first `size` bytes of the buffer.
fn append(
    image: &[u8],
    at: Sections,
    rows: &[u8],
    p: Progress,
    size: usize,
    out: &mut [u8],
) -> Filled
    requires { OpenedAt image.now at × (goes_on (length rows.now) p.number p.at ≡ true) × (size ≤ length out.old) }
    ensures { (result.progress ≡ (next_of image.now rows.now p).1)
        × Puts out.old size (next_of image.now rows.now p).0 out.new result.size }
{
    let line = next(image, at, rows, p, &mut out[size..]);
    let progress = line.progress;
    Filled {
        progress: progress,
        size: size + line.size,
    }
}

// Whether a line more is put: there is room for any line, and there is a row.
#[tactic(auto, unfolding(crate::specs::Chunks::has_more))]
fn has_more(free: usize, length: usize, p: Progress) -> bool
    ensures { result ≡ has_more free length p }
{
    free >= LINE && goes_on(length, p.number, p.at)
}

// The lines of rows, from where the trace stands at p on, as many as there is room for.
fn fill_opened(image: &[u8], at: Sections, rows: &[u8], p: Progress, out: &mut [u8]) -> Filled
    requires { OpenedAt image.now at }
    ensures { Fills (fill_by (length rows.now) image.now rows.now p (length out.old))
        out.old result out.new }
{
    let mut q = p;
    let mut size: usize = 0;
    while has_more(out.len() - size, rows.len(), q) {
        let line = append(image, at, rows, q, size, out);
        q = line.progress;
        size = line.size;
    }
    Filled {
        progress: q,
        size: size,
    }
}

// The lines of rows on an image that is checked once: as many as the buffer has room for, from where the trace stands at p on. A refused image has none.
pub fn fill(image: &[u8], rows: &[u8], p: Progress, out: &mut [u8]) -> Filled
    ensures { Fills (fill_of image.now rows.now p (length out.old)) out.old result out.new }
{
    let opened = image_loader::open(image);
    match opened {
        Ok(at) => fill_opened(image, at, rows, p, out),
        Err(_) => Filled {
            progress: p,
            size: 0,
        },
    }
}

// The beginning of a trace whose text was compiled to n bytes.
fn begin(n: usize, length: usize, out: &mut [u8]) -> Result<usize, OnlyLine>
    ensures { (result ≡ (begun_of (done n) length out.old).0) × (out.new ≡ (begun_of (done n) length out.old).1) }
{
    if length > limit::TRACED {
        let size = printing::refused_text(out, refusal::BAD_ROW, 0);
        return Err(OnlyLine { size });
    }
    Ok(n)
}

// The beginning of the trace: the number of the image's bytes, for a header and rows; or the refusal of the text or of the rows, which is then all of it.
pub fn start(text: &[u8], rows: &[u8], image: &mut [u8], out: &mut [u8]) -> Result<usize, OnlyLine>
    ensures { (result ≡ (begun_of (compile_of text.now image.old).answer (length rows.now) out.old).0)
        × (out.new ≡ (begun_of (compile_of text.now image.old).answer (length rows.now) out.old).1)
        × (image.new ≡ (compile_of text.now image.old).buffer) }
{
    match image_compiler::compile(text, image) {
        Ok(n) => begin(n, rows.len(), out),
        Err(r) => {
            let number = r.number() as usize;
            let size = printing::refused_text(out, number, r.place());
            Err(OnlyLine { size })
        }
    }
}
