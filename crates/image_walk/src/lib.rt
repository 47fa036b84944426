#![tactic(auto)]
// Lines of an opened image: one performed (its fields read from the lines section, its code evaluated, its target stored), and lines followed up to a wait.
// A line is lent as its own bytes: it is line 0 of what is lent.
ghost use Rattle.std.specs.Prelude.{◌≡◌, cond, suc, ◌*◌, set, take, drop, eqb};
ghost use Rattle.base_codes.specs.Image as M;
ghost use Rattle.base_codes.specs.Fault.{outcome};
ghost use Rattle.spec_design.specs.Expression.{fine};
ghost use Rattle.spec_semantics.specs.Evaluation.{is_one};
ghost use Rattle.image_evaluator.specs.Stack.{Room};
ghost use Rattle.image_walk.specs.declared.Move.TheVariants.{Next};
ghost use Rattle.image_walk.specs.Fields.{kind_at, target_at, next_at, other_at, reach_at};
ghost use Rattle.image_walk.specs.Moves.{value_at, Valued, Performs, PerformsLine};
ghost use Rattle.image_walk.specs.Follow.{went, follow_at};

use base_codes::fault::Fault;
use base_codes::{image, limit};
use image_evaluator::{Found, Named, Stack};

// What a line leads to: the end of the cycle at this wait, or the line to follow.
#[derive(Clone, Copy)]
pub enum Move {
    Wait,
    Next(u32),
}

// How many lines may be followed from line x on: its reach, and one more.
pub fn most(lines: &[u8], x: u32) -> u32
    ensures { result ≡ suc (reach_at lines.now x) }
{
    image_words::word2(lines, (x as usize) * image::LINE + image::LINE_REACH) + 1
}

// The bytes of line x; fewer, or none, where the section ends before.
fn line_of<'a>(lines: &'a [u8], x: u32) -> &'a [u8]
    ensures { result.now ≡ take M.LINE (drop (x * M.LINE) lines.now) }
{
    let at = (x as usize) * image::LINE;
    let end = at + image::LINE;
    if end <= lines.len() {
        return &lines[at..end];
    }
    if lines.len() < at {
        return &lines[0..0];
    }
    &lines[at..]
}

// The kind byte of a line.
fn kind(line: &[u8]) -> u8
    ensures { result ≡ kind_at line.now 0 }
{
    image_words::byte(line, image::LINE_KIND)
}

// The target byte of a line.
fn target(line: &[u8]) -> u8
    ensures { result ≡ target_at line.now 0 }
{
    image_words::byte(line, image::LINE_TARGET)
}

// The line that is next to a line.
fn next(line: &[u8]) -> u32
    ensures { result ≡ next_at line.now 0 }
{
    image_words::word2(line, image::LINE_NEXT)
}

// The line that a branch takes for a value.
fn branch(line: &[u8], v: i32) -> u32
    ensures { result ≡ cond (is_one v) (next_at line.now 0) (other_at line.now 0) }
{
    if base_signed::is_one(v) {
        next(line)
    } else {
        image_words::word2(line, image::LINE_OTHER)
    }
}

// Stores a value in the row that lines of kind w store into, if the line is of that kind and the row has that place.
fn store(row: &mut [i32], w: u8, k: u8, n: usize, v: i32)
    ensures { row.new ≡ cond (eqb k w) (set row.old n v) row.old }
{
    if k != w {
        return;
    }
    if n < row.len() {
        row[n] = v;
    }
}

// What a line does with its value: a branch takes a line by it, any other stores it in its target. Answers the line that follows.
fn settle(line: &[u8], f: Found, outputs: &mut [i32], variables: &mut [i32]) -> u32
    requires { Valued line.now 0 }
    ensures { Performs line.now 0 (fine f) outputs.old variables.old (fine (Next result)) outputs.new variables.new }
{
    let k = kind(line);
    let v = f.value;
    if k == image::BRANCH {
        return branch(line, v);
    }
    let n = target(line) as usize;
    store(outputs, image::OUTPUT, k, n, v);
    store(variables, image::VARIABLE, k, n, v);
    next(line)
}

// The value of a line's code. The evaluator's stack is lent, whatever it holds.
fn value(
    line: &[u8],
    code: &[u8],
    inputs: &Named,
    variables: &Named,
    stack: &mut Stack,
) -> Result<Found, Fault>
    requires { Room stack.old.values stack.old.tags 0 }
    ensures value { outcome result ≡ value_at line.now code.now 0
        inputs.now.kinds.now variables.now.kinds.now inputs.now.values.now variables.now.values.now }
    ensures room { Room stack.new.values stack.new.tags 0 }
{
    let start = image_words::word2(line, image::LINE_CODE) as usize;
    let size = image_words::word2(line, image::LINE_CODE_SIZE) as usize;
    image_evaluator::evaluate(code, start, size, inputs, variables, stack)
}

// Performs a line that has a value: settled, or the refusal of an operator.
fn operate(
    line: &[u8],
    code: &[u8],
    inputs: &Named,
    variable_types: &[u8],
    outputs: &mut [i32],
    variables: &mut [i32],
    stack: &mut Stack,
) -> Result<Move, Fault>
    requires { Room stack.old.values stack.old.tags 0 × Valued line.now 0 }
    ensures performs_line { PerformsLine line.now code.now inputs.now.kinds.now variable_types.now inputs.now.values.now
        outputs.old variables.old (outcome result) outputs.new variables.new }
    ensures room { Room stack.new.values stack.new.tags 0 }
{
    let read = Named {
        kinds: variable_types,
        values: variables,
    };
    let e = value(line, code, inputs, &read, stack);
    Ok(Move::Next(settle(line, e?, outputs, variables)))
}

// Performs a line: its value is stored in its target, or decides which line follows.
fn perform(
    line: &[u8],
    code: &[u8],
    inputs: &Named,
    variable_types: &[u8],
    outputs: &mut [i32],
    variables: &mut [i32],
    stack: &mut Stack,
) -> Result<Move, Fault>
    requires { Room stack.old.values stack.old.tags 0 }
    ensures performs_line { PerformsLine line.now code.now inputs.now.kinds.now variable_types.now inputs.now.values.now
        outputs.old variables.old (outcome result) outputs.new variables.new }
    ensures room { Room stack.new.values stack.new.tags 0 }
{
    let k = kind(line);
    if k == image::WAIT {
        return Ok(Move::Wait);
    }
    if k == image::NULL {
        return Ok(Move::Next(next(line)));
    }
    operate(
        line,
        code,
        inputs,
        variable_types,
        outputs,
        variables,
        stack,
    )
}

// Where lines lead: to a wait, with the number of lines performed; to a refusal at a line; or to no wait within the lines allowed.
#[derive(Clone, Copy)]
pub enum Followed {
    Reached(u32, u32),
    Stopped(Fault, u32),
    Spent,
}

// Follows the lines from a line on, at most `most` of them.
pub fn follow(
    lines: &[u8],
    code: &[u8],
    first: u32,
    most: u32,
    inputs: &Named,
    variable_types: &[u8],
    outputs: &mut [i32],
    variables: &mut [i32],
) -> Followed
    ensures { went result outputs.new variables.new ≡ follow_at lines.now code.now inputs.now.kinds.now variable_types.now inputs.now.values.now
        most first 0 outputs.old variables.old }
{
    let mut stack = Stack {
        values: [0; limit::ITEMS],
        tags: [0; limit::ITEMS],
    };
    let mut x = first;
    for n in 0..most {
        let m = perform(
            line_of(lines, x),
            code,
            inputs,
            variable_types,
            outputs,
            variables,
            &mut stack,
        );
        match m {
            Err(q) => return Followed::Stopped(q, x),
            Ok(step) => match step {
                Move::Wait => return Followed::Reached(x, n + 1),
                Move::Next(y) => x = y,
            },
        }
    }
    Followed::Spent
}
