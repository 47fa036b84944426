// One cycle of a body: it is entered, and whenever passed, started again.
ghost use Rattle.std.specs.Prelude.{◌≡◌, true, ◌||◌, [], ◌*◌, ◌≤◌, eqb};
ghost use Rattle.base_codes.specs.Limit.{BEGINNING};
ghost use Rattle.spec_design.specs.Statement.{Stmt, has};
ghost use Rattle.spec_semantics.specs.Equations.{cycle as cycle_of};
ghost use Rattle.base_ir.specs.Entries.{Block};
ghost use Rattle.spec_semantics.specs.DirectRow.{place_for};
ghost use Rattle.direct_statements.specs.Holding.{HeldIn};
ghost use Rattle.direct_statements.specs.Standing.{run, counted, Stands};
ghost use Rattle.direct_statements.specs.Running.{Enters};

use crate::Progress;
use crate::blocks::{go_on, resume, start};
use base_codes::limit;

// "the body is started, or resumed at the wait that is the place": 512 is the beginning.
fn enter(
    codes: &[u8],
    args: &[i32],
    rows: &[u16],
    size: usize,
    place: usize,
    inputs: &[i32],
    outputs: &mut [i32],
    variables: &mut [i32],
) -> Progress
    requires { size ≤ 512 }
    ensures result_bound { counted result ≤ 512 * size }
    ensures enters { Enters codes.now args.now rows.now size place inputs.now outputs.old variables.old result outputs.new variables.new }
{
    if place == limit::BEGINNING {
        return start(codes, args, rows, 0, size, inputs, outputs, variables, 0);
    }
    resume(
        codes, args, rows, 0, size, place, inputs, outputs, variables,
    )
}

// One cycle of the body whose rows are 0 .. size: "whenever passed, it is started again without stopping".
pub fn cycle(
    codes: &[u8],
    args: &[i32],
    rows: &[u16],
    size: usize,
    place: usize,
    inputs: &[i32],
    outputs: &mut [i32],
    variables: &mut [i32],
) -> Progress
    ensures { (s : Stmt) → HeldIn codes.now args.now rows.now s 0 size → Block s → size ≤ 512
        → (eqb place BEGINNING || has s 0 place) ≡ true
        → Stands (cycle_of s (place_for place) inputs.now (run [] outputs.old variables.old)) result outputs.new variables.new }
{
    if limit::STATEMENTS < size {
        return Progress::Passed(0);
    }
    let r = enter(codes, args, rows, size, place, inputs, outputs, variables);
    go_on(codes, args, rows, 0, size, inputs, outputs, variables, r)
}
