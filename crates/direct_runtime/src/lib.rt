#![tactic(auto)]
// The direct run: a cycle from the text, without an image; whatever the text, the state and the rows are, it is performed or refused as document 01 says.
ghost use Rattle.std.specs.Prelude.{◌≡◌, []};
ghost use Rattle.base_answers.specs.Answers.{cycle_told, told};
ghost use Rattle.spec_design.specs.Process.{Process, WellFormed};
ghost use Rattle.base_ir.specs.Arrays.{Holds, Bounded};
ghost use Rattle.spec_semantics.specs.Records.{state_for};
ghost use Rattle.spec_semantics.specs.DirectRow.{direct_row};
ghost use Rattle.spec_behaviour.specs.Direct.{direct_of, direct_fresh};
ghost use Rattle.direct_cycle.specs.Calls.{call_of};
ghost use Rattle.spec_semantics.specs.Advances.{Advances, start_of, cycle_answer, fresh_answer};

use base_answers::{Advanced, FreshState, State, refused};
use base_codes::{limit, record, statement};
use base_ir::Declared;

// One call on the design of an accepted text.
fn run_design(
    ops: &[u8; limit::TEXT],
    args: &[i32; limit::TEXT],
    lines: &[u16; statement::ROWS],
    d: Declared,
    s: State,
    inputs: &[i32],
    row: &mut [i32],
) -> Advanced
    requires { Bounded d }
    ensures { (p : Process) → Holds p d ops.now args.now lines.now → WellFormed p
        → Advances (direct_row p s (call_of inputs.now row.old)) result row.new }
{
    direct_cycle::calls::advance(ops, args, lines, d, inputs, s, row)
}

// One call on any text: refusals 1 to 9, then 14, 15, 16 or 18, or the cycle performed. A refused one hands back the state, and the row is as it was.
pub fn run(text: &[u8], s: State, inputs: &[i32], row: &mut [i32]) -> Advanced
    ensures { (cycle_told result.answer ≡ cycle_answer (direct_of text.now s (call_of inputs.now row.old)).answer)
        × (result.state ≡ (direct_of text.now s (call_of inputs.now row.old)).state)
        × (row.new ≡ (direct_of text.now s (call_of inputs.now row.old)).row) }
{
    let mut ops = [0u8; limit::TEXT];
    let mut args = [0i32; limit::TEXT];
    let mut lines = [0u16; statement::ROWS];
    match front_accept::accept(text, &mut ops, &mut args, &mut lines) {
        Ok(declared) => run_design(&ops, &args, &lines, declared, s, inputs, row),
        Err(r) => refused(s, r),
    }
}

// Place 512 with 0 in every slot.
fn blank() -> State
    ensures { result ≡ state_for 512 (record { outputs = []; variables = [] }) }
{
    State {
        place: record::BEGINNING,
        outputs: [0i32; limit::OUTPUTS],
        variables: [0i32; limit::VARIABLES],
    }
}

// The fresh state of any text, or refusal 1 to 9.
pub fn fresh(text: &[u8]) -> FreshState
    ensures { (told result.answer ≡ fresh_answer (direct_fresh text.now)) × (result.state ≡ start_of (direct_fresh text.now)) }
{
    let mut ops = [0u8; limit::TEXT];
    let mut args = [0i32; limit::TEXT];
    let mut lines = [0u16; statement::ROWS];
    match front_accept::accept(text, &mut ops, &mut args, &mut lines) {
        Ok(declared) => FreshState {
            state: direct_cycle::calls::fresh(declared),
            answer: Ok(()),
        },
        Err(r) => FreshState {
            state: blank(),
            answer: Err(r),
        },
    }
}
