// Rows and states judged: refusals 14 and 15.
ghost use Rattle.std.specs.Prelude.{◌≡◌, cond, ◌<◌, length, get_or, pos, ltb};
ghost use Rattle.spec_design.specs.Types.{eq_z};
ghost use Rattle.base_signed.specs.Signed.{in_type_byte};
ghost use Rattle.direct_cycle.specs.Checks.{check_of, wrong_in, row_is, slots_in, place_in, in_use, state_is};
ghost use Rattle.base_ir.specs.Arrays.{Bounded};

use base_answers::State;
use base_codes::{kind, limit, statement};
use base_ir::Declared;
use base_signed::in_type;
use direct_statements::blocks::entry;

// Every value is of its type; else the lowest index of one that is not.
fn first_wrong(types: &[u8], inputs: &[i32]) -> Result<(), usize>
    requires { length inputs.now ≡ length types.now }
    ensures { result ≡ check_of (wrong_in types.now inputs.now 0) }
{
    for k in 0..inputs.len() {
        if !in_type(types[k], inputs[k]) {
            return Err(k);
        }
    }
    Ok(())
}

// Refusal 14, as the place: both lengths first, then the input values; `room` is the output row's length.
pub(crate) fn row_check(
    types: &[u8],
    inputs: &[i32],
    outputs: usize,
    room: usize,
) -> Result<(), usize>
    ensures { result ≡ check_of (row_is types.now inputs.now outputs room) }
{
    if inputs.len() != types.len() {
        return Err(0);
    }
    if room != outputs {
        return Err(0);
    }
    first_wrong(types, inputs)
}

// Whether slot k holds a value of its type, or 0 where it is unused.
fn slot_right(types: &[u8], k: usize, v: i32) -> bool
    ensures { result ≡ cond (ltb k (length types.now)) (in_type_byte (get_or types.now k 0) v) (eq_z v (pos 0)) }
{
    if k < types.len() {
        in_type(types[k], v)
    } else {
        v == 0
    }
}

// Whether slots hold values of these types, and 0 after them.
fn slots_right(types: &[u8], slots: &[i32]) -> bool
    ensures { result ≡ slots_in types.now slots.now }
{
    for k in 0..slots.len() {
        if !slot_right(types, k, slots[k]) {
            return false;
        }
    }
    types.len() <= slots.len()
}

// Whether a place is the beginning or a wait's number.
#[tactic(auto, unfolding(crate::specs::Checks::place_in))]
fn place_right(rows: &[u16], size: usize, place: usize) -> bool
    requires { place < 65536 }
    ensures { result ≡ place_in rows.now size place }
{
    place == limit::BEGINNING || place < size && entry(rows, statement::ROW * place) == kind::WAIT
}

// Refusal 15: place, outputs and variables of the state.
fn state_check(
    rows: &[u16],
    size: usize,
    output_types: &[u8],
    variable_types: &[u8],
    s: State,
) -> bool
    ensures value { result ≡ state_is rows.now size output_types.now variable_types.now s }
    ensures outputs_len { (length s.outputs ≡ 16) × (length s.variables ≡ 32) }
{
    let right = place_right(rows, size, s.place as usize);
    if right {
        let outputs = s.outputs;
        let also = slots_right(output_types, &outputs);
        if also {
            let variables = s.variables;
            return slots_right(variable_types, &variables);
        }
    }
    false
}

// Refusal 15 for what a design declares.
pub(crate) fn state_right(rows: &[u16], d: Declared, s: State) -> bool
    requires { Bounded d }
    ensures value { result ≡ state_is rows.now d.statements (in_use d.outputs) (in_use d.variables) s }
    ensures outputs_len { (length s.outputs ≡ 16) × (length s.variables ≡ 32) }
{
    let o = d.outputs.count;
    let v = d.variables.count;
    let outputs = d.outputs.types;
    let variables = d.variables.types;
    state_check(rows, d.statements, &outputs[0..o], &variables[0..v], s)
}
