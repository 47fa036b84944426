#![tactic(auto)]
// Many rows in one call, for the benchmark of tests/outside: the loop over the rows runs here, so that the C interface is passed once and not for every row.
// Inputs hold the rows one after another, `width` values each; at most `count` of them are run, and only whole ones. Each answers the lines performed in all.
// Two of the three functions read alike, since the benchmark calls each by its name.
ghost use Rattle.std.specs.Prelude.{◌≡◌, ◌+◌, ◌≤◌, length, take, drop};
ghost use Rattle.base_answers.specs.Answers.{lines_of, done, cycle_told};
ghost use Rattle.spec_format.specs.Opening.{open_of};
ghost use Rattle.spec_format.specs.State.{fresh_of};
ghost use Rattle.spec_format.specs.Cycle.{cycle_of};
ghost use Rattle.spec_semantics.specs.Advances.{start_of, cycle_answer};
ghost use Rattle.image_loader.specs.Open.{open_answer};
ghost use Rattle.spec_behaviour.specs.Direct.{direct_fresh};
ghost use Rattle.test_bench.specs.Rows.{Cycle, direct_cycle, Runs, Adds};

use base_answers::{Advanced, Counts, Refusal, Sections, State};

// What runs a cycle: an image or a text.
trait Cycles {
    // What a cycle leaves of a state, an input row and an output row as it is lent.
    ghost cycle: { Self → Cycle };

    fn run(&self, s: State, inputs: &[i32], row: &mut [i32]) -> Advanced
        ensures answer { cycle_told result.answer ≡ cycle_answer (cycle self.now s inputs.now row.old).answer }
        ensures state { result.state ≡ (cycle self.now s inputs.now row.old).state }
        ensures row { row.new ≡ (cycle self.now s inputs.now row.old).row };
}

// An image that was opened before.
#[derive(Clone, Copy)]
struct Opened<'a> {
    image: &'a [u8],
    at: Sections,
    ghost opened: { done at ≡ open_answer image.now (open_of image.now) },
}

impl Cycles for Opened<'_> {
    ghost cycle = { λ o. cycle_of o.image.now };

    fn run(&self, s: State, inputs: &[i32], row: &mut [i32]) -> Advanced {
        image_runtime::cycle_opened(self.image, self.at, s, inputs, row)
    }
}

// An image that is checked for every row.
#[derive(Clone, Copy)]
struct Checked<'a> {
    image: &'a [u8],
}

impl Cycles for Checked<'_> {
    ghost cycle = { λ o. cycle_of o.image.now };

    fn run(&self, s: State, inputs: &[i32], row: &mut [i32]) -> Advanced {
        image_runtime::cycle(self.image, s, inputs, row)
    }
}

// A text, without an image.
#[derive(Clone, Copy)]
struct Direct<'a> {
    text: &'a [u8],
}

impl Cycles for Direct<'_> {
    ghost cycle = { λ o. direct_cycle o.text.now };

    fn run(&self, s: State, inputs: &[i32], row: &mut [i32]) -> Advanced {
        direct_runtime::run(self.text, s, inputs, row)
    }
}

// The lines performed so far, and the state.
#[derive(Clone, Copy)]
struct Progress {
    lines: usize,
    state: State,
}

// The lines that an answer tells.
fn lines_of(c: Result<Counts, Refusal>) -> usize
    ensures { result ≡ lines_of c }
{
    match c {
        Ok(counts) => counts.lines,
        Err(_) => 0,
    }
}

// One row. Where the sum of the lines is above the largest number, it is that number.
fn run_row<C: Cycles>(
    cycles: &C,
    p: Progress,
    inputs: &[i32],
    from: usize,
    width: usize,
    row: &mut [i32],
) -> Progress
    requires { from + width ≤ length inputs.now }
    ensures { Adds (C.cycle cycles.now p.state (take width (drop from inputs.now)) row.old) p.lines result row.new }
{
    let end = from + width;
    let a = cycles.run(p.state, &inputs[from..end], row);
    let state = a.state;
    let lines = p.lines.saturating_add(lines_of(a.answer));
    Progress { lines, state }
}

// The rows, one after another.
fn run_rows<C: Cycles>(
    cycles: &C,
    s: State,
    inputs: &[i32],
    width: usize,
    count: usize,
    row: &mut [i32],
) -> usize
    ensures { Runs (C.cycle cycles.now) s inputs.now width count row.old result row.new }
{
    let mut p = Progress { lines: 0, state: s };
    let mut from = 0;
    for _i in 0..count {
        if inputs.len() - from < width {
            return p.lines;
        }
        p = run_row(cycles, p, inputs, from, width, row);
        from += width;
    }
    p.lines
}

// The rows on an image that is checked once. A refused image: 0, as every row on it is refused.
#[unsafe(no_mangle)]
pub extern "C" fn rabtishu_bench_opened(
    image: &[u8],
    inputs: &[i32],
    width: usize,
    count: usize,
    row: &mut [i32],
) -> usize
    ensures { Runs (cycle_of image.now) (start_of (fresh_of image.now)) inputs.now width count row.old result row.new }
{
    let f = image_runtime::fresh(image);
    let s = f.state;
    let opened = image_loader::open(image);
    match opened {
        Ok(at) => {
            let cycles = Opened { image, at };
            run_rows(&cycles, s, inputs, width, count, row)
        }
        Err(_) => 0,
    }
}

// The rows on an image that is checked for every row.
#[unsafe(no_mangle)]
pub extern "C" fn rabtishu_bench_checked(
    image: &[u8],
    inputs: &[i32],
    width: usize,
    count: usize,
    row: &mut [i32],
) -> usize
    ensures { Runs (cycle_of image.now) (start_of (fresh_of image.now)) inputs.now width count row.old result row.new }
{
    let f = image_runtime::fresh(image);
    let cycles = Checked { image };
    run_rows(&cycles, f.state, inputs, width, count, row)
}

// The rows from a text, without an image.
#[unsafe(no_mangle)]
pub extern "C" fn rabtishu_bench_direct(
    text: &[u8],
    inputs: &[i32],
    width: usize,
    count: usize,
    row: &mut [i32],
) -> usize
    ensures { Runs (direct_cycle text.now) (start_of (direct_fresh text.now)) inputs.now width count row.old result row.new }
{
    let f = direct_runtime::fresh(text);
    let cycles = Direct { text };
    run_rows(&cycles, f.state, inputs, width, count, row)
}
