#![tactic(auto)]
// A cycle on the sections of an opened image.
ghost use Rattle.std.specs.Prelude.{◌≡◌, List, suc, ◌<◌, length, take, ℤ, true, Ok};
ghost use Rattle.std.proofs.Math.Option.{none, some};
ghost use Rattle.spec_format.specs.Image.{Table};
ghost use Rattle.spec_format.specs.Signature.{Signature, types, type_bytes, signature_of};
ghost use Rattle.image_walk.specs.Fields.{reach_at};
ghost use Rattle.image_walk.specs.Follow.{went, follow_at};
ghost use Rattle.spec_format.specs.State.{place_allowed};
ghost use Rattle.base_answers.specs.Answers.{cycle_told};
ghost use Rattle.spec_format.specs.Cycle.{row_place, row_of};
ghost use Rattle.spec_format.specs.State.{state_ok};
ghost use Rattle.image_cycle.specs.Moves.{row_after, Moves};
ghost use Rattle.spec_semantics.specs.Advances.{cycle_answer};
ghost use Rattle.image_cycle.specs.Ran.{Checked, ran_for};

use base_answers::{Advanced, Counts, Refusal, State, operator_refusal, refused};
use base_codes::limit;
use image_evaluator::Named;
use image_walk::Followed;

// The greatest number that a place can be.
const LAST: u32 = u16::MAX as u32;

// The first n bytes.
fn first<'a>(s: &'a [u8], n: usize) -> &'a [u8]
    ensures { result.now ≡ take n s.now }
{
    if s.len() < n {
        return s;
    }
    &s[0..n]
}

// Follows the lines from line x on, as many as its reach allows, over the signature's type bytes.
// The sections are lent one by one: as one struct of references they cost a row of a short program up to 7 % more instructions.
fn follow_line(
    signature: &[u8],
    lines: &[u8],
    code: &[u8],
    x: u32,
    inputs: &[i32],
    outputs: &mut [i32],
    variables: &mut [i32],
) -> Followed
    ensures { (σ : Signature) → signature_of signature.now ≡ some σ
        → went result outputs.new variables.new ≡ follow_at lines.now code.now (type_bytes σ.inputs) (type_bytes (types σ.variables))
        inputs.now (suc (reach_at lines.now x)) x 0 outputs.old variables.old }
{
    let most = image_walk::most(lines, x);
    let mut kinds = [0u8; limit::VARIABLES];
    let n = image_checks::types::variable_types(signature, &mut kinds);
    image_walk::follow(
        lines,
        code,
        x,
        most,
        &Named {
            kinds: image_checks::types::input_types(signature),
            values: inputs,
        },
        first(&kinds, n),
        outputs,
        variables,
    )
}

// Follows the lines from a place on.
pub fn follow_from(
    signature: &[u8],
    lines: &[u8],
    code: &[u8],
    place: u16,
    inputs: &[i32],
    outputs: &mut [i32],
    variables: &mut [i32],
) -> Followed
    ensures { (t : Table) → Checked signature.now lines.now code.now t → place_allowed t.lines place ≡ true
        → went result outputs.new variables.new ≡ ran_for t lines.now code.now place inputs.now outputs.old variables.old }
{
    let x = image_checks::lines::first_line(lines, place) as u32;
    follow_line(signature, lines, code, x, inputs, outputs, variables)
}

// A performed cycle: the wait reached, what was counted, and the slots. No line of an opened image is that high.
fn performed(
    s: State,
    p: u32,
    counts: Counts,
    outputs: [i32; limit::OUTPUTS],
    variables: [i32; limit::VARIABLES],
) -> Advanced
    ensures { p < 65536 → result ≡ record { state = record { place = p; outputs = outputs; variables = variables }; answer = Ok counts } }
{
    if LAST < p {
        return refused(s, Refusal::BadState);
    }
    let state = State {
        place: p as u16,
        outputs: outputs,
        variables: variables,
    };
    Advanced {
        state: state,
        answer: Ok(counts),
    }
}

// One cycle, where rows and state are right.
fn run(signature: &[u8], lines: &[u8], code: &[u8], inputs: &[i32], s: State) -> Advanced
    ensures { (t : Table) (o : List ℤ) → Checked signature.now lines.now code.now t
        → row_place t.signature inputs.now (length o) ≡ none → state_ok t s ≡ true → Moves (row_of t s inputs.now o) result }
{
    let outputs_before = s.outputs;
    let variables_before = s.variables;
    let mut outputs = outputs_before;
    let mut variables = variables_before;
    let f = follow_from(
        signature,
        lines,
        code,
        s.place,
        inputs,
        &mut outputs,
        &mut variables,
    );
    match f {
        Followed::Reached(p, n) => {
            let counts = Counts { lines: n as usize };
            performed(s, p, counts, outputs, variables)
        }
        Followed::Stopped(q, x) => {
            let at = x as usize;
            refused(s, operator_refusal(q, at))
        }
        Followed::Spent => refused(s, Refusal::BadState),
    }
}

// One cycle, where the rows are right: refusal 15, or the cycle.
fn judged(signature: &[u8], lines: &[u8], code: &[u8], inputs: &[i32], s: State) -> Advanced
    ensures { (t : Table) (o : List ℤ) → Checked signature.now lines.now code.now t
        → row_place t.signature inputs.now (length o) ≡ none → Moves (row_of t s inputs.now o) result }
{
    let right = image_checks::states::state_ok(signature, lines, s);
    if right {
        return run(signature, lines, code, inputs, s);
    }
    refused(s, Refusal::BadState)
}

// The output row of a cycle: it gets the outputs where the cycle was performed.
fn show(a: Advanced, row: &mut [i32]) -> Advanced
    ensures { (result ≡ a) × (row.new ≡ row_after (cycle_told a.answer) a.state.outputs row.old) }
{
    if a.answer.is_ok() {
        image_checks::rows::write_row(&a.state.outputs, row);
    }
    a
}

// One cycle on the sections of an opened image: 14, then 15, then the lines. A refused one hands back the state, and the output row is as it was.
pub fn advance(
    signature: &[u8],
    lines: &[u8],
    code: &[u8],
    inputs: &[i32],
    s: State,
    row: &mut [i32],
) -> Advanced
    ensures { (t : Table) → Checked signature.now lines.now code.now t
        → (cycle_told result.answer ≡ cycle_answer (row_of t s inputs.now row.old).answer)
        × (result.state ≡ (row_of t s inputs.now row.old).state)
        × (row.new ≡ (row_of t s inputs.now row.old).row) }
{
    match image_checks::rows::row_place(signature, inputs, row.len()) {
        Ok(()) => show(judged(signature, lines, code, inputs, s), row),
        Err(k) => refused(s, Refusal::BadRow(k)),
    }
}
