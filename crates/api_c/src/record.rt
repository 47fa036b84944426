// The state record from the 49 numbers of a C caller, and back.
ghost use Rattle.std.specs.Prelude.{◌≡◌, length};
ghost use Rattle.spec_interface.specs.CInterface.{place_of_c, state_of_c, c_of_state};

use base_answers::State;
use base_codes::{limit, record as numbers};

// A place; a number outside 0 to 65535 is read as 65535, which no state may have.
fn place_from(x: i32) -> u16
    ensures { result ≡ place_of_c x }
{
    u16::try_from(x).unwrap_or(u16::MAX)
}

// The state record of 49 numbers.
pub(crate) fn to_state(slots: [i32; numbers::STATE]) -> State
    ensures { result ≡ state_of_c slots }
{
    let place = place_from(slots[numbers::PLACE]);
    let mut outputs = [0i32; limit::OUTPUTS];
    outputs.copy_from_slice(&slots[numbers::OUTPUTS..numbers::VARIABLES]);
    let mut variables = [0i32; limit::VARIABLES];
    variables.copy_from_slice(&slots[numbers::VARIABLES..numbers::STATE]);
    State {
        place,
        outputs,
        variables,
    }
}

// 49 numbers.
fn blank() -> [i32; numbers::STATE]
    ensures { length result ≡ 49 }
{
    [0i32; numbers::STATE]
}

// The 49 numbers of a state record.
pub(crate) fn from_state(s: State) -> [i32; numbers::STATE]
    ensures { result ≡ c_of_state s }
{
    let mut slots = blank();
    slots[numbers::PLACE] = i32::from(s.place);
    slots[numbers::OUTPUTS..numbers::VARIABLES].copy_from_slice(&s.outputs);
    slots[numbers::VARIABLES..numbers::STATE].copy_from_slice(&s.variables);
    slots
}
