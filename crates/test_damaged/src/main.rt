#![tactic(auto)]
// Calls on damaged images, states and rows: a line for each case. The arguments come in pairs, an image's file and a file of cases. A case is 28 bytes:
//   0, 1      how many bytes of the image are taken; past its end they are 0
//   2 to 8    position, number of bytes (0 to 4), and what is written there
//   9         1: the state is the one that the call before left; 0: the fresh state of the image, not damaged
//   10, 11    the place to write into the state; 65535: none
//   12 to 16  the slot to write, outputs from 0, variables from 16, and its value; slot 255: none
//   17 to 25  number of inputs, the value of the first, the value of the others
//   26        length of the output row; it holds 99 before the call
//   27        1: the answers of opening and of the fresh state are printed too
// Of tally: each field one more and one less (1 to 144), each bit of the header (145 to 368), cut at each length (369 to 502), a byte longer (503 to 506),
// places (507 to 521), each slot 1 and -1 (522 to 617), sums at the ends of the range (618 to 669), rows of other lengths (670 to 711), the trace of
// document 01 (712 to 717), the codes of *, /, mod and rem for + (718 to 757), other codes for + (758 to 765), codes for < (766 to 772).
// gate has inputs a : std_logic, n : integer, outputs q : std_logic := '0', m : integer := -5, variables f : std_logic := '1', k : integer := 2147483647,
// j : integer, which the image starts at -2147483648, and the body: if a = '1' then k := k - n; m <= -n; wait; else f := f xor a; if not (n >= 0) or n /= 5
// then q <= not f and a; null; else m <= n + k - j; end if; wait; if (k <= n) and (n > j) then j := j - 1; end if; end if;
// Of gate: each field one more and one less (1 to 334), input values (335 to 370), each slot 2 and -1 (371 to 466), its std_logic slots (467 to 470), row
// lengths (471 to 486), every place and the ends of the range (487 to 540), rows in turn (541 to 552), *, /, mod, rem (553 to 581).
use base_answers::{Counts, Refusal, State};
use base_files::shown::{Record, Refused, Spaced};
use image_words::{byte, word2, word4};
use std::env::Env;
use std::io;
use std::rt::Files;

// How many bytes a case has.
const CASE: usize = 28;

fn print_refusal(rt: &impl Print, r: Refusal) -> io::Result<()> {
    rt.print(Refused {
        number: r.number(),
        place: r.place(),
    })
}

fn print_state(rt: &impl Print, s: &State) -> io::Result<()> {
    rt.print(Record {
        place: s.place,
        outputs: &s.outputs,
        variables: &s.variables,
    })
}

fn print_opened(rt: &impl Print, image: &[u8]) -> io::Result<()> {
    rt.print(" open")?;
    match image_loader::open(image) {
        Ok(at) => {
            let signature = at.signature;
            let lines = at.lines;
            let code = at.code;
            let end = at.end;
            print!(rt; " {signature} {lines} {code} {end}")
        }
        Err(r) => print_refusal(rt, r),
    }
}

fn print_fresh(rt: &impl Print, image: &[u8]) -> io::Result<()> {
    rt.print(" fresh")?;
    let f = image_runtime::fresh(image);
    if let Err(r) = f.answer {
        print_refusal(rt, r)?;
    }
    print_state(rt, &f.state)
}

fn print_cycled(rt: &impl Print, answer: Result<Counts, Refusal>) -> io::Result<()> {
    rt.print(" cycle")?;
    match answer {
        Ok(counts) => {
            let lines = counts.lines;
            print!(rt; " {lines}")
        }
        Err(r) => print_refusal(rt, r),
    }
}

// The byte i of the image, damaged.
fn damaged_byte(image: &[u8], case: &[u8], i: usize) -> u8 {
    let position = word2(case, 2) as usize;
    if position <= i && i - position < usize::from(byte(case, 4)) {
        byte(case, 5 + (i - position))
    } else {
        byte(image, i)
    }
}

fn damage(image: &[u8], case: &[u8], bytes: &mut [u8]) {
    for (i, b) in bytes.iter_mut().enumerate() {
        *b = damaged_byte(image, case, i);
    }
}

fn with_slot(s: State, k: usize, v: i32) -> State {
    let mut outputs = s.outputs;
    let mut variables = s.variables;
    match k {
        0..16 => outputs[k] = v,
        16..48 => variables[k - 16] = v,
        _ => {}
    }
    State {
        place: s.place,
        outputs,
        variables,
    }
}

fn with_place(s: State, place: u16) -> State {
    if place == 65535 {
        return s;
    }
    State { place, ..s }
}

// The state that a case calls with.
fn state_of(image: &[u8], case: &[u8], before: State) -> State {
    let s = if byte(case, 9) == 0 {
        image_runtime::fresh(image).state
    } else {
        before
    };
    with_slot(
        with_place(s, word2(case, 10) as u16),
        usize::from(byte(case, 12)),
        base_signed::from_bits(word4(case, 13)),
    )
}

fn input_row(case: &[u8]) -> [i32; 20] {
    let mut row = [base_signed::from_bits(word4(case, 22)); 20];
    row[0] = base_signed::from_bits(word4(case, 18));
    row
}

// A call, printed; the state that it leaves.
fn call(
    rt: &impl Print,
    image: &[u8],
    s: State,
    inputs: &[i32],
    row: &mut [i32],
) -> io::Result<State> {
    let a = image_runtime::cycle(image, s, inputs, row);
    print_cycled(rt, a.answer)?;
    let outputs = Spaced(row);
    print!(rt; " row{outputs}")?;
    print_state(rt, &a.state)?;
    rt.print("\n")?;
    Ok(a.state)
}

// The call of a case on its image. Rows are no longer than 20 values.
fn call_case(rt: &impl Print, image: &[u8], case: &[u8], s: State) -> io::Result<State> {
    if byte(case, 27) == 1 {
        print_opened(rt, image)?;
        print_fresh(rt, image)?;
    }
    let inputs = input_row(case);
    let mut row = [99i32; 20];
    let n = usize::from(byte(case, 17)).min(inputs.len());
    let m = usize::from(byte(case, 26)).min(row.len());
    call(rt, image, s, &inputs[..n], &mut row[..m])
}

fn run_case(rt: &impl Print, image: &[u8], case: &[u8], before: State) -> io::Result<State> {
    let s = state_of(image, case, before);
    let mut bytes = [0u8; 1024];
    damage(image, case, &mut bytes);
    let n = (word2(case, 0) as usize).min(bytes.len());
    call_case(rt, &bytes[..n], case, s)
}

fn run_cases(rt: &impl Print, image: &[u8], cases: &[u8]) -> io::Result<()> {
    let mut s = image_runtime::fresh(image).state;
    for (number, case) in cases.chunks_exact(CASE).enumerate() {
        print!(rt; "{number}:")?;
        s = run_case(rt, image, case, s)?;
    }
    Ok(())
}

// The cases of the file that the argument j names, on the image that the argument i names.
fn run_pair(rt: &(impl Env + Files + Print + Eprint), i: usize, j: usize) -> io::Result<()> {
    let mut image = [0u8; 4096];
    let mut cases = [0u8; 65536];
    let size = base_files::read_argument(rt, i, &mut image)?.unwrap_or(0);
    let n = base_files::read_argument(rt, j, &mut cases)?.unwrap_or(0);
    run_cases(rt, &image[..size], &cases[..n])
}

fn main(rt: HostRuntime) -> io::Result<()> {
    let names = base_files::arg_count(&rt).saturating_sub(1);
    for pair in 0..names / 2 {
        run_pair(&rt, 2 * pair + 1, 2 * pair + 2)?;
    }
    Ok(())
}
