#![tactic(auto)]
// Many rows in one call on an image (document 02, slip 1): the image is opened once, the three lengths are held to the count's due, and then each row is a cycle
// from the state that the one before it left, with its own part of inputs, outputs and answers.
ghost use Rattle.std.specs.Prelude.{◌≡◌, false, ◌&&◌, ◌||◌, ◌*◌, eqb, length, Err};
ghost use Rattle.std.proofs.Math.Option.{some};
ghost use Rattle.base_answers.specs.Answers.{done, told};
ghost use Rattle.spec_format.specs.Opening.{opened, open_of};
ghost use Rattle.spec_format.specs.Signature.{Signature, signature_of};
ghost use Rattle.spec_format.specs.Image.{Table};
ghost use Rattle.spec_format.specs.Cycle.{calls_of};
ghost use Rattle.spec_format.specs.Batch.{calls_in, batch_of, batch_answer};
ghost use Rattle.image_loader.specs.Open.{open_answer};
ghost use Rattle.image_batch.specs.Batches.{Batches, Parts, call_at, Steps, Due, Runs};

use base_answers::{Refusal, Sections, State};
use base_codes::{image, record};
use image_checks::signature::count;

// The call's answer, the state after the last row, and whether a row was performed.
#[derive(Clone, Copy)]
pub struct Outcome {
    pub performed: bool,
    pub state: State,
    pub answer: Result<(), Refusal>,
}

// How many values an input row and an output row of the image have.
#[derive(Clone, Copy)]
struct Widths {
    inputs: usize,
    outputs: usize,
}

// The rows so far: where the next one's parts begin, whether a row was performed, and the state.
#[derive(Clone, Copy)]
struct Progress {
    input: usize,
    output: usize,
    answer: usize,
    performed: bool,
    state: State,
}

// Whether a length is that of so many rows of a width. No product is formed, since the count may be any number.
fn due(len: usize, count: usize, width: usize) -> bool
    ensures { result ≡ eqb len (count * width) }
{
    if width == 0 {
        return len == 0;
    }
    len % width == 0 && len / width == count
}

// Whether the lengths of inputs, outputs and answers are all the count's due.
fn all_due(width: Widths, count: usize, inputs: usize, outputs: usize, answers: usize) -> bool
    ensures { result ≡ (eqb inputs (count * width.inputs) && (eqb outputs (count * width.outputs) && eqb answers (count * 3))) }
{
    due(inputs, count, width.inputs)
        && due(outputs, count, width.outputs)
        && due(answers, count, record::ANSWER)
}

// The widths by the counts of a signature section.
fn widths_in(signature: &[u8]) -> Widths
    ensures { (σ : Signature) → signature_of signature.now ≡ some σ → (result.inputs ≡ length σ.inputs) × (result.outputs ≡ length σ.outputs) }
{
    Widths {
        inputs: count(signature, image::INPUTS),
        outputs: count(signature, image::OUTPUTS),
    }
}

// The widths of an image that was opened.
fn widths_of(image: &[u8], at: Sections) -> Widths
    requires { done at ≡ open_answer image.now (open_of image.now) }
    ensures { (t : Table) → open_of image.now ≡ opened t → (result.inputs ≡ length t.signature.inputs) × (result.outputs ≡ length t.signature.outputs) }
{
    widths_in(&image[at.signature..at.lines])
}

// One row on an image that was opened before.
fn row(
    image: &[u8],
    at: Sections,
    width: Widths,
    p: Progress,
    inputs: &[i32],
    outputs: &mut [i32],
    answers: &mut [u32],
) -> Progress
    requires at_value { done at ≡ open_answer image.now (open_of image.now) }
    requires parts { Parts width p inputs.now outputs.old answers.old }
    ensures { Steps (call_at image.now width p inputs.now outputs.old)
        width p result outputs.old outputs.new answers.old answers.new }
{
    let from = p.input;
    let to = p.output;
    let told = p.answer;
    let input = from + width.inputs;
    let output = to + width.outputs;
    let answer = told + record::ANSWER;
    let a = image_runtime::cycle_opened(
        image,
        at,
        p.state,
        &inputs[from..input],
        &mut outputs[to..output],
    );
    answers[told..answer].copy_from_slice(&base_answers::numbers::answered(a.answer));
    Progress {
        input,
        output,
        answer,
        performed: p.performed || a.answer.is_ok(),
        state: a.state,
    }
}

// The rows of an image that was opened before, as many as the count says.
fn rows(
    image: &[u8],
    at: Sections,
    width: Widths,
    s: State,
    count: usize,
    inputs: &[i32],
    outputs: &mut [i32],
    answers: &mut [u32],
) -> Progress
    requires at_value { done at ≡ open_answer image.now (open_of image.now) }
    requires due { Due width count inputs.now outputs.old answers.old }
    ensures { Runs (calls_of image.now s (calls_in count width.inputs width.outputs inputs.now outputs.old)) s result outputs.new answers.new }
{
    let mut p = Progress {
        input: 0,
        output: 0,
        answer: 0,
        performed: false,
        state: s,
    };
    for _ in 0..count {
        p = row(image, at, width, p, inputs, outputs, answers);
    }
    p
}

// A refused call: the state as it came.
fn refused(s: State, r: Refusal) -> Outcome
    ensures { result ≡ record { performed = false; state = s; answer = Err r } }
{
    Outcome {
        performed: false,
        state: s,
        answer: Err(r),
    }
}

// Many rows on an image that was opened before: 17, or the rows.
fn opened_cycles(
    image: &[u8],
    at: Sections,
    s: State,
    count: usize,
    inputs: &[i32],
    outputs: &mut [i32],
    answers: &mut [u32],
) -> Outcome
    requires { done at ≡ open_answer image.now (open_of image.now) }
    ensures { Batches (batch_of image.now s count inputs.now outputs.old answers.old) result outputs.new answers.new }
{
    let width = widths_of(image, at);
    if !all_due(width, count, inputs.len(), outputs.len(), answers.len()) {
        return refused(s, Refusal::BadLengths);
    }
    let p = rows(image, at, width, s, count, inputs, outputs, answers);
    Outcome {
        performed: p.performed,
        state: p.state,
        answer: Ok(()),
    }
}

// Many rows on an image: 11, 12, 13, then 17, or the rows one after another, each answered for itself. A refused call hands back the state, and outputs and
// answers are as they were; a refused row leaves its part of the outputs, and the next one goes on from the state before it.
pub fn cycles(
    image: &[u8],
    s: State,
    count: usize,
    inputs: &[i32],
    outputs: &mut [i32],
    answers: &mut [u32],
) -> Outcome
    ensures { Batches (batch_of image.now s count inputs.now outputs.old answers.old) result outputs.new answers.new }
{
    match image_loader::open(image) {
        Ok(at) => opened_cycles(image, at, s, count, inputs, outputs, answers),
        Err(r) => refused(s, r),
    }
}

// Many rows on an image, by which the caller's own state record advances: the new state is stored only where a row was performed.
pub fn advance_rows(
    image: &[u8],
    state: &mut State,
    count: usize,
    inputs: &[i32],
    outputs: &mut [i32],
    answers: &mut [u32],
) -> Result<(), Refusal>
    ensures { let c = batch_of image.now state.old count inputs.now outputs.old answers.old in
        (told result ≡ batch_answer c.answer)
        × (state.new ≡ c.state)
        × (outputs.new ≡ c.rows)
        × (answers.new ≡ c.answers) }
{
    let r = cycles(image, *state, count, inputs, outputs, answers);
    if r.performed {
        *state = r.state;
    }
    r.answer
}
