#![tactic(auto)]
// The run-time on whole images: whatever the bytes, the state and the rows are, a call is performed or refused as document 01 says.
ghost use Rattle.std.specs.Prelude.{◌≡◌, ◌+◌, ◌≤◌, length, []};
ghost use Rattle.base_answers.specs.Answers.{lines_of, cycle_told, told, done};
ghost use Rattle.spec_format.specs.Opening.{open_of};
ghost use Rattle.spec_format.specs.State.{fresh_of};
ghost use Rattle.spec_semantics.specs.Records.{state_for};
ghost use Rattle.spec_format.specs.Cycle.{cycle_of};
ghost use Rattle.image_loader.specs.Open.{open_answer};
ghost use Rattle.spec_semantics.specs.Advances.{Advances, start_of, cycle_answer, fresh_answer};
ghost use Rattle.image_runtime.specs.Calls.{way_of, first_reach};

use base_answers::{Advanced, Counts, FreshState, Refusal, Sections, State, refused};
use base_codes::{limit, record};

// A cycle on an image that was opened before, by the sections that `open` answered: for callers that run many rows on one image and check it once.
pub fn cycle_opened(
    image: &[u8],
    at: Sections,
    s: State,
    inputs: &[i32],
    row: &mut [i32],
) -> Advanced
    requires { done at ≡ open_answer image.now (open_of image.now) }
    ensures { Advances (cycle_of image.now s inputs.now row.old) result row.new }
{
    let signature = at.signature;
    let lines = at.lines;
    let code = at.code;
    let end = at.end;
    image_cycle::advance(
        &image[signature..lines],
        &image[lines..code],
        &image[code..end],
        inputs,
        s,
        row,
    )
}

// One cycle on an image: 11, 12, 13, then 14, 15, 16 or 18, or the cycle performed. A refused one hands back the state, and the row is as it was.
pub fn cycle(image: &[u8], s: State, inputs: &[i32], row: &mut [i32]) -> Advanced
    ensures { let c = cycle_of image.now s inputs.now row.old in
        (cycle_told result.answer ≡ cycle_answer c.answer)
        × (result.state ≡ c.state)
        × (row.new ≡ c.row)
        × (lines_of result.answer ≡ length (way_of c.answer))
        × (lines_of result.answer ≤ first_reach image.now s.place + 1) }
{
    match image_loader::open(image) {
        Ok(at) => cycle_opened(image, at, s, inputs, row),
        Err(r) => refused(s, r),
    }
}

// One cycle on an image, by which the caller's own state record advances: the new state is stored only where the cycle was performed.
pub fn advance_state(
    image: &[u8],
    state: &mut State,
    inputs: &[i32],
    row: &mut [i32],
) -> Result<Counts, Refusal>
    ensures { let c = cycle_of image.now state.old inputs.now row.old in
        (cycle_told result ≡ cycle_answer c.answer)
        × (state.new ≡ c.state)
        × (row.new ≡ c.row)
        × (lines_of result ≡ length (way_of c.answer))
        × (lines_of result ≤ first_reach image.now state.old.place + 1) }
{
    let a = cycle(image, *state, inputs, row);
    if a.answer.is_ok() {
        *state = a.state;
    }
    a.answer
}

// The fresh state of an image that opened, by its signature section.
fn fresh_on_sections(image: &[u8], at: Sections) -> State
    requires { done at ≡ open_answer image.now (open_of image.now) }
    ensures { result ≡ start_of (fresh_of image.now) }
{
    let signature = at.signature;
    let lines = at.lines;
    image_checks::states::fresh(&image[signature..lines])
}

// Place 512 with 0 in every slot.
fn blank() -> State
    ensures { result ≡ state_for 512 (record { outputs = []; variables = [] }) }
{
    State {
        place: record::BEGINNING,
        outputs: [0i32; limit::OUTPUTS],
        variables: [0i32; limit::VARIABLES],
    }
}

// The fresh state of an image, or refusal 11, 12 or 13.
pub fn fresh(image: &[u8]) -> FreshState
    ensures { (told result.answer ≡ fresh_answer (fresh_of image.now)) × (result.state ≡ start_of (fresh_of image.now)) }
{
    match image_loader::open(image) {
        Ok(at) => FreshState {
            state: fresh_on_sections(image, at),
            answer: Ok(()),
        },
        Err(r) => FreshState {
            state: blank(),
            answer: Err(r),
        },
    }
}
