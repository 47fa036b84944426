#![tactic(auto)]
// The C interface: eight functions with plain names, for C and Rust to link; include/rabtishu.h declares them. Whatever is lent, each call is done or
// refused as document 01 says; a refused one writes nothing but its answer. Functions on an image and on a text are two that read alike, since C calls each by its name.
mod record;

ghost use Rattle.std.specs.Prelude.{◌≡◌};
ghost use Rattle.spec_interface.specs.CInterface.{compile_in_c, open_in_c, fresh_in_c, cycle_in_c, batch_in_c, direct_fresh_in_c, direct_in_c, token_in_c};

use base_answers::numbers::answered;
use base_codes::record::{ANSWER, STATE};

// A text to an image in the caller's buffer.
#[unsafe(no_mangle)]
pub extern "C" fn rabtishu_compile(text: &[u8], image: &mut [u8], answer: &mut [u32; ANSWER])
    ensures { (answer.new ≡ (compile_in_c text.now image.old).0) × (image.new ≡ (compile_in_c text.now image.old).1) }
{
    *answer = answered(image_compiler::compile(text, image));
}

// Any bytes checked as an image.
#[unsafe(no_mangle)]
pub extern "C" fn rabtishu_open(image: &[u8], answer: &mut [u32; ANSWER])
    ensures { answer.new ≡ open_in_c image.now }
{
    *answer = answered(image_loader::open(image));
}

// The fresh state of an image.
#[unsafe(no_mangle)]
pub extern "C" fn rabtishu_fresh(image: &[u8], state: &mut [i32; STATE], answer: &mut [u32; ANSWER])
    ensures { (answer.new ≡ (fresh_in_c image.now state.old).0) × (state.new ≡ (fresh_in_c image.now state.old).1) }
{
    let f = image_runtime::fresh(image);
    *answer = answered(f.answer);
    if f.answer.is_ok() {
        *state = record::from_state(f.state);
    }
}

// One cycle on an image.
#[unsafe(no_mangle)]
pub extern "C" fn rabtishu_cycle(
    image: &[u8],
    state: &mut [i32; STATE],
    inputs: &[i32],
    row: &mut [i32],
    answer: &mut [u32; ANSWER],
)
    ensures { let c = cycle_in_c image.now state.old inputs.now row.old in
        (answer.new ≡ c.answer)
        × (state.new ≡ c.slots)
        × (row.new ≡ c.row) }
{
    let s = record::to_state(*state);
    let a = image_runtime::cycle(image, s, inputs, row);
    *answer = answered(a.answer);
    if a.answer.is_ok() {
        *state = record::from_state(a.state);
    }
}

// Many rows on an image in one call.
#[unsafe(no_mangle)]
pub extern "C" fn rabtishu_cycles(
    image: &[u8],
    state: &mut [i32; STATE],
    count: usize,
    inputs: &[i32],
    outputs: &mut [i32],
    answers: &mut [u32],
    answer: &mut [u32; ANSWER],
)
    ensures { let c = batch_in_c image.now state.old count inputs.now outputs.old answers.old in
        (answer.new ≡ c.answer)
        × (state.new ≡ c.slots)
        × (outputs.new ≡ c.rows)
        × (answers.new ≡ c.answers) }
{
    let s = record::to_state(*state);
    let r = image_batch::cycles(image, s, count, inputs, outputs, answers);
    *answer = answered(r.answer);
    if r.performed {
        *state = record::from_state(r.state);
    }
}

// The fresh state of a text.
#[unsafe(no_mangle)]
pub extern "C" fn rabtishu_direct_fresh(
    text: &[u8],
    state: &mut [i32; STATE],
    answer: &mut [u32; ANSWER],
)
    ensures { (answer.new ≡ (direct_fresh_in_c text.now state.old).0) × (state.new ≡ (direct_fresh_in_c text.now state.old).1) }
{
    let f = direct_runtime::fresh(text);
    *answer = answered(f.answer);
    if f.answer.is_ok() {
        *state = record::from_state(f.state);
    }
}

// One cycle from a text, without an image.
#[unsafe(no_mangle)]
pub extern "C" fn rabtishu_direct(
    text: &[u8],
    state: &mut [i32; STATE],
    inputs: &[i32],
    row: &mut [i32],
    answer: &mut [u32; ANSWER],
)
    ensures { let c = direct_in_c text.now state.old inputs.now row.old in
        (answer.new ≡ c.answer)
        × (state.new ≡ c.slots)
        × (row.new ≡ c.row) }
{
    let s = record::to_state(*state);
    let a = direct_runtime::run(text, s, inputs, row);
    *answer = answered(a.answer);
    if a.answer.is_ok() {
        *state = record::from_state(a.state);
    }
}

// The length of the token that starts at a place, or 0.
#[unsafe(no_mangle)]
pub extern "C" fn rabtishu_token_at(text: &[u8], place: usize) -> usize
    ensures { result ≡ token_in_c text.now place }
{
    front_lexer::token_at(text, place).len()
}
