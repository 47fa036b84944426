// The calls on texts and images. Those that advance the caller's own state record store the new state only where the call was done; the cycle on an
// image is `image_runtime::advance_state`, many rows in one call `image_batch::advance_rows`.
ghost use Rattle.std.specs.Prelude.{◌≡◌};
ghost use Rattle.base_answers.specs.Answers.{cycle_told, told};
ghost use Rattle.spec_format.specs.State.{fresh_of};
ghost use Rattle.spec_behaviour.specs.Direct.{direct_of, direct_fresh};
ghost use Rattle.direct_cycle.specs.Calls.{call_of};
ghost use Rattle.spec_interface.specs.Entry.{state_after};
ghost use Rattle.spec_semantics.specs.Advances.{cycle_answer, fresh_answer};

use base_answers::{Counts, Refusal, State};

// One cycle from a text, without an image.
pub fn direct(
    text: &[u8],
    state: &mut State,
    inputs: &[i32],
    row: &mut [i32],
) -> Result<Counts, Refusal>
    ensures { let c = direct_of text.now state.old (call_of inputs.now row.old) in
        (cycle_told result ≡ cycle_answer c.answer)
        × (state.new ≡ c.state)
        × (row.new ≡ c.row) }
{
    let a = direct_runtime::run(text, *state, inputs, row);
    if a.answer.is_ok() {
        *state = a.state;
    }
    a.answer
}

// The fresh state of an image.
pub fn fresh(image: &[u8], state: &mut State) -> Result<(), Refusal>
    ensures { (told result ≡ fresh_answer (fresh_of image.now)) × (state.new ≡ state_after (fresh_of image.now) state.old) }
{
    let f = image_runtime::fresh(image);
    if f.answer.is_ok() {
        *state = f.state;
    }
    f.answer
}

// The fresh state of a text, without an image.
pub fn direct_fresh(text: &[u8], state: &mut State) -> Result<(), Refusal>
    ensures { (told result ≡ fresh_answer (direct_fresh text.now)) × (state.new ≡ state_after (direct_fresh text.now) state.old) }
{
    let f = direct_runtime::fresh(text);
    if f.answer.is_ok() {
        *state = f.state;
    }
    f.answer
}
