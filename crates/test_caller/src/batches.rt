// Many rows in one call on an image: the rows that are run singly, laid end to end.
use crate::rows::{COUNT, Rows};
use crate::{calls, print, rows};
use base_answers::State;
use std::io;

// The input rows: every row's value in all its inputs.
fn fill(values: &mut [i32], inputs: usize) {
    if inputs > 0 {
        for (row, v) in values.chunks_mut(inputs).zip(rows::VALUES) {
            row.fill(v);
        }
    }
}

// How many places all rows have. No image has more than 16 in a row.
fn places(row: usize) -> usize {
    if row <= 16 { COUNT * row } else { 0 }
}

// A call, printed.
fn call(
    rt: &impl Print,
    image: &[u8],
    s: State,
    count: usize,
    inputs: &[i32],
    outputs: &mut [i32],
    numbers: &mut [u32],
) -> io::Result<()> {
    let a = calls::rows(image, s, count, inputs, outputs, numbers);
    print!(rt; " rows {count}")?;
    print::done(rt, a.answer)?;
    print::answers_of(rt, numbers)?;
    print::row(rt, outputs)?;
    print::state(rt, &a.state)?;
    rt.print("\n")
}

// A call with this count, where inputs, outputs and answers are those of all rows: 128 places hold eight rows of 16.
fn run_count(rt: &impl Print, image: &[u8], rows: Rows, s: State, count: usize) -> io::Result<()> {
    let mut inputs = [0i32; 128];
    let mut outputs = [99i32; 128];
    let mut numbers = [99u32; 24];
    fill(&mut inputs, rows.inputs);
    let n = places(rows.inputs).min(inputs.len());
    let m = places(rows.outputs).min(outputs.len());
    call(
        rt,
        image,
        s,
        count,
        &inputs[..n],
        &mut outputs[..m],
        &mut numbers,
    )
}

// All rows; then a count of one more, for which they are too few.
pub(crate) fn run(rt: &impl Print, image: &[u8], rows: Rows, s: State) -> io::Result<()> {
    run_count(rt, image, rows, s, COUNT)?;
    run_count(rt, image, rows, s, COUNT + 1)
}
