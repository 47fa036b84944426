// One call of the direct run on a design in arrays: refusals 14 and 15, then a cycle.
ghost use Rattle.std.specs.Prelude.{◌≡◌, true, ◌≤◌, ◌<◌, length, take, Ok};
ghost use Rattle.std.proofs.Math.Option.{none};
ghost use Rattle.spec_design.specs.Process.{Process, WellFormed};
ghost use Rattle.spec_semantics.specs.Rows.{row_refusal, kept_at_first};
ghost use Rattle.spec_semantics.specs.Records.{pad};
ghost use Rattle.spec_semantics.specs.Comparison.{laid};
ghost use Rattle.spec_semantics.specs.DirectRow.{fits_text, kept_of, cycled, direct_row};
ghost use Rattle.direct_cycle.specs.Calls.{Design, call_of, fed_of, place_by, left_by, row_by};
ghost use Rattle.base_ir.specs.Arrays.{NamesIn, Holds, Bounded};
ghost use Rattle.spec_semantics.specs.Advances.{Advances};

use crate::checks::{row_check, state_right};
use base_answers::{Advanced, Counts, Refusal, State, operator_refusal, refused};
use base_codes::{limit, record};
use base_ir::Declared;
use direct_expressions::evaluation::number;
use direct_statements::Progress;
use direct_statements::cycles::cycle;

// The greatest number that a place can be.
const LAST: usize = u16::MAX as usize;

// The output row of a performed cycle: as many outputs as it has places for.
fn write_row(outputs: &[i32; limit::OUTPUTS], row: &mut [i32])
    requires { (length outputs.now ≡ 16) × (length row.old ≤ 16) }
    ensures { row.new ≡ take (length row.old) outputs.now }
{
    let n = row.len();
    row.copy_from_slice(&outputs[0..n]);
}

// A performed cycle: the place, what was counted, the slots, the output row. The two tests hold for no accepted text.
fn performed(
    s: State,
    p: usize,
    counts: Counts,
    outputs: [i32; limit::OUTPUTS],
    variables: [i32; limit::VARIABLES],
    row: &mut [i32],
) -> Advanced
    ensures { p < 65536 → length row.old ≤ 16
        → (result ≡ record { state = record { place = p; outputs = outputs; variables = variables }; answer = Ok counts }) × (row.new ≡ take (length row.old) outputs) }
{
    if limit::OUTPUTS < row.len() {
        return refused(s, Refusal::BadState);
    }
    if LAST < p {
        return refused(s, Refusal::BadState);
    }
    write_row(&outputs, row);
    let state = State {
        place: p as u16,
        outputs: outputs,
        variables: variables,
    };
    Advanced {
        state: state,
        answer: Ok(counts),
    }
}

// What a cycle leaves that came to r, with its slots: passed, it is at the beginning again; refused, it hands back the state.
fn concluded(
    s: State,
    r: Progress,
    outputs: [i32; limit::OUTPUTS],
    variables: [i32; limit::VARIABLES],
    row: &mut [i32],
) -> Advanced
    ensures { place_by r < 65536 → length row.old ≤ 16
        → (result ≡ left_by s r outputs variables) × (row.new ≡ row_by r outputs row.old) }
{
    match r {
        Progress::Passed(n) => {
            let counts = Counts { lines: n };
            performed(s, limit::BEGINNING, counts, outputs, variables, row)
        }
        Progress::Reached(p, n) => {
            let counts = Counts { lines: n };
            performed(s, p, counts, outputs, variables, row)
        }
        Progress::Refused(q, x) => refused(s, operator_refusal(q, x)),
    }
}

// One cycle, where row and state are right: it works on copies of the slots in use, which become the state's.
fn run(
    codes: &[u8],
    args: &[i32],
    rows: &[u16],
    size: usize,
    output_count: usize,
    variable_count: usize,
    inputs: &[i32],
    s: State,
    row: &mut [i32],
) -> Advanced
    ensures { (p : Process) → Design p codes.now args.now rows.now size → output_count ≡ length p.outputs → variable_count ≡ length p.variables
        → length row.old ≡ length p.outputs → fits_text p s ≡ true
        → Advances (cycled p (kept_of p s) (call_of inputs.now row.old)) result row.new }
{
    if limit::OUTPUTS < output_count {
        return refused(s, Refusal::BadState);
    }
    if limit::VARIABLES < variable_count {
        return refused(s, Refusal::BadState);
    }
    let mut outputs = s.outputs;
    let mut variables = s.variables;
    let r = cycle(
        codes,
        args,
        rows,
        size,
        s.place as usize,
        inputs,
        &mut outputs[0..output_count],
        &mut variables[0..variable_count],
    );
    concluded(s, r, outputs, variables, row)
}

// One call, where the row is right: refusal 15, or a cycle.
fn judged(
    codes: &[u8],
    args: &[i32],
    rows: &[u16],
    d: Declared,
    inputs: &[i32],
    s: State,
    row: &mut [i32],
) -> Advanced
    requires { Bounded d }
    ensures { (p : Process) → Holds p d codes.now args.now rows.now → WellFormed p
        → row_refusal p (fed_of inputs.now (length row.old)) ≡ none
        → Advances (direct_row p s (call_of inputs.now row.old)) result row.new }
{
    let right = state_right(rows, d, s);
    if right {
        return run(
            codes,
            args,
            rows,
            d.statements,
            d.outputs.count,
            d.variables.count,
            inputs,
            s,
            row,
        );
    }
    refused(s, Refusal::BadState)
}

// One call on a design: 14, then 15, then a cycle. A refused one hands back the state, and the output row is as it was.
pub fn advance(
    codes: &[u8],
    args: &[i32],
    rows: &[u16],
    d: Declared,
    inputs: &[i32],
    s: State,
    row: &mut [i32],
) -> Advanced
    requires { Bounded d }
    ensures { (p : Process) → Holds p d codes.now args.now rows.now → WellFormed p
        → Advances (direct_row p s (call_of inputs.now row.old)) result row.new }
{
    let i = d.inputs.count;
    let types = d.inputs.types;
    let check = row_check(&types[0..i], inputs, d.outputs.count, row.len());
    match check {
        Ok(()) => judged(codes, args, rows, d, inputs, s, row),
        Err(k) => refused(s, Refusal::BadRow(k)),
    }
}

// Puts values into slots, and 0 after them.
fn fill(values: &[i32], slots: &mut [i32])
    ensures { slots.new ≡ pad (length slots.old) values.now }
{
    for k in 0..slots.len() {
        slots[k] = number(values, k);
    }
}

// "The fresh state has place 512 and the initial values."
pub fn fresh(d: Declared) -> State
    requires { Bounded d }
    ensures { (p : Process) → NamesIn p d → result ≡ laid (kept_at_first p) }
{
    let o = d.outputs.count;
    let outputs = d.outputs.values;
    let mut first = [0i32; limit::OUTPUTS];
    fill(&outputs[0..o], &mut first);
    let v = d.variables.count;
    let variables = d.variables.values;
    let mut second = [0i32; limit::VARIABLES];
    fill(&variables[0..v], &mut second);
    State {
        place: record::BEGINNING,
        outputs: first,
        variables: second,
    }
}
