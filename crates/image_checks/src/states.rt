// The state record judged against the sections, and the fresh state.
ghost use Rattle.std.specs.Prelude.{◌≡◌, List, ℕ, ◌≤◌, ◌<◌, length, drop};
ghost use Rattle.std.proofs.Math.Option.{some};
ghost use Rattle.spec_format.specs.Signature.{signature_of};
ghost use Rattle.spec_format.specs.Image.{Table};
ghost use Rattle.spec_format.specs.State.{state_ok, fresh_table};
ghost use Rattle.spec_semantics.specs.Records.{pad, zeros};
ghost use Rattle.image_checks.specs.Places.{Opens, slots_at, initials_at, place_at};

use super::signature::{count, initial, outputs_at, value_ok, variables_at};
use base_answers::State;
use base_codes::{image, limit, record};
use image_words::byte;

// Whether a place is the beginning or a wait's line.
#[tactic(auto, unfolding(crate::specs::Places::place_at))]
pub fn place_ok(lines: &[u8], place: u16) -> bool
    ensures { result ≡ place_at lines.now place }
{
    let p = usize::from(place);
    place == record::BEGINNING
        || (p < lines.len() / image::LINE && byte(lines, p * image::LINE) == image::WAIT)
}

// Whether slots are unused ones: 0.
fn unused_ok(slots: &[i32]) -> bool
    ensures { result ≡ zeros slots.now }
{
    slots.iter().all(|v| *v == 0)
}

// Whether slots hold values of the n outputs or variables that begin at a position, and 0 after them. Most slots of a state are unused, so those have a loop of
// their own.
fn slots_ok(signature: &[u8], at: usize, n: usize, slots: &[i32]) -> bool
    requires { at < 2048 }
    ensures { result ≡ slots_at signature.now at n slots.now }
{
    if slots.len() < n {
        return false;
    }
    let (used, unused) = slots.split_at(n);
    for (k, v) in used.iter().enumerate() {
        if !value_ok(signature, at + image::SLOT * k, *v) {
            return false;
        }
    }
    unused_ok(unused)
}

// Refusal 15: whether the state is one of the opened image.
pub fn state_ok(signature: &[u8], lines: &[u8], s: State) -> bool
    ensures { (t : Table) (code : List ℕ) → Opens signature.now lines.now code t → result ≡ state_ok t s }
{
    place_ok(lines, s.place)
        && slots_ok(
            signature,
            outputs_at(signature),
            count(signature, image::OUTPUTS),
            &s.outputs,
        )
        && slots_ok(
            signature,
            variables_at(signature),
            count(signature, image::VARIABLES),
            &s.variables,
        )
}

// Puts the initial values of the n outputs or variables that begin at a position into slots, and 0 after them.
fn fill(signature: &[u8], at: usize, n: usize, slots: &mut [i32])
    requires { at < 2048 }
    ensures { slots.new ≡ pad (length slots.old) (initials_at signature.now at n) }
{
    for (k, slot) in slots.iter_mut().enumerate() {
        *slot = initial(signature, at + image::SLOT * k + 1, k < n);
    }
}

// The fresh state: the beginning, and the initial values.
pub fn fresh(signature: &[u8]) -> State
    ensures { (t : Table) → signature_of signature.now ≡ some t.signature → result ≡ fresh_table t }
{
    let mut outputs = [0i32; limit::OUTPUTS];
    fill(
        signature,
        outputs_at(signature),
        count(signature, image::OUTPUTS),
        &mut outputs,
    );
    let mut variables = [0i32; limit::VARIABLES];
    fill(
        signature,
        variables_at(signature),
        count(signature, image::VARIABLES),
        &mut variables,
    );
    State {
        place: record::BEGINNING,
        outputs,
        variables,
    }
}
