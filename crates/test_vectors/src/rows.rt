// The rows of a case, each by the cycle on the image and by the direct run from the text.
ghost use Rattle.std.specs.Prelude.{◌≡◌};
ghost use Rattle.base_answers.specs.Answers.{cycle_told};
ghost use Rattle.spec_format.specs.Cycle.{cycle_of};
ghost use Rattle.spec_semantics.specs.Advances.{cycle_answer};

use crate::print;
use base_answers::{Advanced, Counts, Refusal, State};
use base_files::shown::Spaced;
use image_words::{byte, word4};
use std::io;

// The answer of a run, the output row and the state after it.
fn print_run(
    rt: &impl Print,
    answer: Result<Counts, Refusal>,
    row: &[i32],
    state: &State,
) -> io::Result<()> {
    print::cycled(rt, answer)?;
    let outputs = Spaced(row);
    print!(rt; " row{outputs}")?;
    print::state(rt, state)
}

// The direct run beside what the table gave: `same`, or its own answer.
fn print_direct(
    rt: &impl Print,
    text: &[u8],
    before: State,
    inputs: &[i32],
    row: &mut [i32],
    by_table: Result<Counts, Refusal>,
    after: State,
    table_row: &[i32],
) -> io::Result<()> {
    let d = direct_runtime::run(text, before, inputs, row);
    if by_table == d.answer && after == d.state && *table_row == *row {
        return rt.print(" same");
    }
    rt.print(" direct")?;
    print_run(rt, d.answer, row, &d.state)
}

// A cycle on an image by a state record of the caller's own, which is lent to it.
fn advance(image: &[u8], s: State, inputs: &[i32], row: &mut [i32]) -> Advanced
    ensures { (cycle_told result.answer ≡ cycle_answer (cycle_of image.now s inputs.now row.old).answer)
        × (result.state ≡ (cycle_of image.now s inputs.now row.old).state)
        × (row.new ≡ (cycle_of image.now s inputs.now row.old).row) }
{
    let mut state = s;
    let answer = image_runtime::advance_state(image, &mut state, inputs, row);
    Advanced { state, answer }
}

// One row by table and text; the state that the table leaves.
fn run_row(
    rt: &impl Print,
    text: &[u8],
    image: &[u8],
    before: State,
    inputs: &[i32],
    row: &mut [i32],
    direct_row: &mut [i32],
) -> io::Result<State> {
    let a = advance(image, before, inputs, row);
    print_run(rt, a.answer, row, &a.state)?;
    print_direct(rt, text, before, inputs, direct_row, a.answer, a.state, row)?;
    rt.print("\n")?;
    Ok(a.state)
}

// A row of a case, with two output rows of the length that it tells.
fn run_case_row(
    rt: &impl Print,
    text: &[u8],
    image: &[u8],
    before: State,
    row: &[u8],
) -> io::Result<State> {
    let mut inputs = [0i32; 20];
    for (k, v) in inputs.iter_mut().enumerate() {
        *v = base_signed::from_bits(word4(row, 2 + 4 * k));
    }
    let mut by_table = [99i32; 20];
    let mut by_text = [99i32; 20];
    let n = usize::from(byte(row, 0)).min(inputs.len());
    let m = usize::from(byte(row, 1));
    if m > by_table.len() {
        return Ok(before);
    }
    run_row(
        rt,
        text,
        image,
        before,
        &inputs[..n],
        &mut by_table[..m],
        &mut by_text[..m],
    )
}

// The fresh state of the image, and whether it is that of the text.
fn print_fresh(rt: &impl Print, text: &[u8], image: &[u8]) -> io::Result<State> {
    rt.print(" fresh")?;
    let f = image_runtime::fresh(image);
    if let Err(r) = f.answer {
        print::refusal(rt, r)?;
    }
    print::state(rt, &f.state)?;
    if f.state == direct_runtime::fresh(text).state {
        rt.print(" same")?;
    }
    rt.print("\n")?;
    Ok(f.state)
}

// All rows, one after another from the fresh state on.
pub(crate) fn run(rt: &impl Print, text: &[u8], image: &[u8], rows: &[u8]) -> io::Result<()> {
    let mut s = print_fresh(rt, text, image)?;
    let mut at = 0;
    while at < rows.len() {
        let end = at + 2 + 4 * usize::from(rows[at]);
        if rows.len() < end {
            return Ok(());
        }
        s = run_case_row(rt, text, image, s, &rows[at..end])?;
        at = end;
    }
    Ok(())
}

// The answer to the fresh state of a text that is refused.
pub(crate) fn print_fresh_of_text(rt: &impl Print, text: &[u8]) -> io::Result<()> {
    rt.print(" fresh")?;
    let d = direct_runtime::fresh(text);
    if let Err(r) = d.answer {
        print::refusal(rt, r)?;
    }
    print::state(rt, &d.state)?;
    rt.print("\n")
}

// The direct run of a text that is refused.
pub(crate) fn print_run_of_text(rt: &impl Print, text: &[u8]) -> io::Result<()> {
    let mut row = [99i32; 2];
    let inputs = [0i32; 2];
    let first = direct_runtime::fresh(text).state;
    let d = direct_runtime::run(text, first, &inputs, &mut row);
    print_run(rt, d.answer, &row, &d.state)?;
    rt.print("\n")
}
