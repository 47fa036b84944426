// The operations that take the caller's own state record by `&mut`, one function for each: a record is lent to the operation, and stands beside its answer
// as the operation has left it.
use base_answers::{Advanced, FreshState, Refusal, State};

// The answer to many rows, and the state after them.
#[derive(Clone, Copy)]
pub(crate) struct AfterRows {
    pub(crate) state: State,
    pub(crate) answer: Result<(), Refusal>,
}

// The fresh state of an image.
pub(crate) fn fresh(image: &[u8], s: State) -> FreshState {
    let mut state = s;
    let answer = api_rattle::fresh(image, &mut state);
    FreshState { state, answer }
}

// The fresh state of a text.
pub(crate) fn direct_fresh(text: &[u8], s: State) -> FreshState {
    let mut state = s;
    let answer = api_rattle::direct_fresh(text, &mut state);
    FreshState { state, answer }
}

// A cycle on an image.
pub(crate) fn cycle(image: &[u8], s: State, inputs: &[i32], row: &mut [i32]) -> Advanced {
    let mut state = s;
    let answer = api_rattle::cycle(image, &mut state, inputs, row);
    Advanced { state, answer }
}

// Many rows on an image.
pub(crate) fn rows(
    image: &[u8],
    s: State,
    count: usize,
    inputs: &[i32],
    outputs: &mut [i32],
    answers: &mut [u32],
) -> AfterRows {
    let mut state = s;
    let answer = image_batch::advance_rows(image, &mut state, count, inputs, outputs, answers);
    AfterRows { state, answer }
}

// A cycle from a text.
pub(crate) fn direct(text: &[u8], s: State, inputs: &[i32], row: &mut [i32]) -> Advanced {
    let mut state = s;
    let answer = api_rattle::direct(text, &mut state, inputs, row);
    Advanced { state, answer }
}
