// Calls on an image or on a text: the fresh state, rows one after another, rows and states that are refused.
use crate::{calls, print};
use base_answers::{Advanced, FreshState, State};
use std::io;

// What is called: the operations on an image, or those on a text; and how many inputs and outputs a row has.
#[derive(Clone, Copy)]
pub(crate) struct Rows {
    pub(crate) on_image: bool,
    pub(crate) inputs: usize,
    pub(crate) outputs: usize,
}

// How many rows are run, and the value of all inputs in each.
pub(crate) const COUNT: usize = 8;

pub(crate) const VALUES: [i32; COUNT] = [1, 0, 7, 7, -5, 1, -2147483648, -5];

// A record that no image or text has: a call that is refused leaves it so.
pub(crate) fn marked() -> State {
    let mut outputs = [0i32; 16];
    let mut variables = [0i32; 32];
    outputs[15] = 3;
    variables[31] = -5;
    State {
        place: 7,
        outputs,
        variables,
    }
}

fn start_of(bytes: &[u8], on_image: bool, s: State) -> FreshState {
    if on_image {
        calls::fresh(bytes, s)
    } else {
        calls::direct_fresh(bytes, s)
    }
}

// The fresh state asked for with a record that is marked.
pub(crate) fn start(rt: &impl Print, bytes: &[u8], on_image: bool) -> io::Result<State> {
    rt.print(" fresh")?;
    let f = start_of(bytes, on_image, marked());
    print::done(rt, f.answer)?;
    print::state(rt, &f.state)?;
    Ok(f.state)
}

fn advance(bytes: &[u8], on_image: bool, s: State, inputs: &[i32], row: &mut [i32]) -> Advanced {
    if on_image {
        calls::cycle(bytes, s, inputs, row)
    } else {
        calls::direct(bytes, s, inputs, row)
    }
}

// A call, printed; the state that it leaves.
fn call(
    rt: &impl Print,
    bytes: &[u8],
    on_image: bool,
    s: State,
    inputs: &[i32],
    row: &mut [i32],
) -> io::Result<State> {
    let a = advance(bytes, on_image, s, inputs, row);
    rt.print(" cycle")?;
    print::cycled(rt, a.answer)?;
    print::row(rt, row)?;
    print::state(rt, &a.state)?;
    Ok(a.state)
}

// A call with the same value in all inputs.
pub(crate) fn run_row(
    rt: &impl Print,
    bytes: &[u8],
    rows: Rows,
    s: State,
    v: i32,
) -> io::Result<State> {
    let inputs = [v; 20];
    let mut row = [99i32; 20];
    if rows.outputs > row.len() {
        return Ok(s);
    }
    call(
        rt,
        bytes,
        rows.on_image,
        s,
        &inputs[..rows.inputs.min(inputs.len())],
        &mut row[..rows.outputs],
    )
}

// The rows, one after another.
fn run_rows(rt: &impl Print, bytes: &[u8], rows: Rows, first: State) -> io::Result<State> {
    let mut s = first;
    for v in VALUES {
        s = run_row(rt, bytes, rows, s, v)?;
        rt.print("\n")?;
    }
    Ok(s)
}

fn with_output(s: State, v: i32) -> State {
    let mut outputs = s.outputs;
    outputs[0] = v;
    State { outputs, ..s }
}

fn with_variable(s: State, v: i32) -> State {
    let mut variables = s.variables;
    variables[31] = v;
    State { variables, ..s }
}

fn run_one(rt: &impl Print, bytes: &[u8], rows: Rows, s: State) -> io::Result<()> {
    run_row(rt, bytes, rows, s, 1)?;
    rt.print("\n")
}

// 17 inputs, then 17 outputs: more than any image has.
fn run_long_rows(rt: &impl Print, bytes: &[u8], rows: Rows, s: State) -> io::Result<()> {
    run_one(rt, bytes, Rows { inputs: 17, ..rows }, s)?;
    run_one(
        rt,
        bytes,
        Rows {
            outputs: 17,
            ..rows
        },
        s,
    )
}

// A place that no line has, a slot that few texts use, and an output that is no std_logic.
fn run_other_states(rt: &impl Print, bytes: &[u8], rows: Rows, s: State) -> io::Result<()> {
    run_one(rt, bytes, rows, State { place: 513, ..s })?;
    run_one(rt, bytes, rows, with_variable(s, 1))?;
    run_one(rt, bytes, rows, with_output(s, 2))
}

// All calls.
pub(crate) fn run(rt: &impl Print, bytes: &[u8], rows: Rows) -> io::Result<()> {
    let first = start(rt, bytes, rows.on_image)?;
    rt.print("\n")?;
    let last = run_rows(rt, bytes, rows, first)?;
    run_long_rows(rt, bytes, rows, last)?;
    run_other_states(rt, bytes, rows, last)
}
