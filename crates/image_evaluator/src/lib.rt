#![tactic(auto)]
// Evaluates the postfix code of a line on a stack of values, each a number with its type.
mod operand;

ghost use Rattle.std.specs.Prelude.{◌≡◌, ◌↔◌, ◌+◌, ◌<◌, ◌≤◌, true, length};
ghost use Rattle.spec_design.specs.Types.{integer, plain};
ghost use Rattle.spec_design.specs.Expression.{Out};
ghost use Rattle.base_codes.specs.Operation.{NOT, PLUS, MINUS, unary_for, binary_for};
ghost use Rattle.image_evaluator.specs.Position.{ROOM, next_of, fetch_at, pushed, pushed_within};
ghost use Rattle.base_codes.specs.Types.{tag_of};
ghost use Rattle.base_codes.specs.Fault.{outcome};
ghost use Rattle.image_evaluator.specs.Value.{Cell, machine_for, code_value, part_value, evaluated_of};
ghost use Rattle.image_evaluator.specs.Operators.{unary_next, binary_next};
ghost use Rattle.image_evaluator.specs.Stack.{cells_of, Room, Says};

use base_codes::fault::Fault;
use base_codes::{limit, operation, types};

// The value of an expression: the number of its type, and its number.
#[derive(Clone, Copy)]
pub struct Found {
    pub kind: u8,
    pub value: i32,
}

// The data inputs or the variables, as an expression reads them: their type bytes, and their numbers.
#[derive(Clone, Copy)]
pub struct Named<'a> {
    pub kinds: &'a [u8],
    pub values: &'a [i32],
}

// The stack of an evaluation: the numbers on it, and the numbers of their types.
#[derive(Drop)]
pub struct Stack {
    pub values: [i32; limit::ITEMS],
    pub tags: [u8; limit::ITEMS],
}

// After an operation: the depth of the stack, and the byte of the next operation.
#[derive(Clone, Copy)]
struct Progress {
    depth: usize,
    at: usize,
}

// Puts an answer on the stack at element i, the last there.
fn keep(stack: &mut Stack, i: usize, e: Result<Found, Fault>, at: usize) -> Result<Progress, Fault>
    requires { Room stack.old.values stack.old.tags i × (i < ROOM) }
    ensures { (o : Out Cell) → outcome e ≡ evaluated_of o
        → Says stack.new.values stack.new.tags result (pushed o at (cells_of stack.old.values stack.old.tags i)) }
{
    let f = e?;
    stack.values[i] = f.value;
    stack.tags[i] = f.kind;
    Ok(Progress { depth: i + 1, at })
}

// Pushes an operand.
fn push(
    stack: &mut Stack,
    depth: usize,
    e: Result<Found, Fault>,
    at: usize,
) -> Result<Progress, Fault>
    requires { Room stack.old.values stack.old.tags depth }
    ensures { (o : Out Cell) → outcome e ≡ evaluated_of o
        → Says stack.new.values stack.new.tags result (pushed_within ROOM o at (cells_of stack.old.values stack.old.tags depth)) }
{
    if limit::ITEMS <= depth {
        return Err(Fault::NoExpression);
    }
    keep(stack, depth, e, at)
}

// Whether the operator is `not`, of what is no integer: of a std_logic or a boolean.
fn is_not(op: u8, t: u8) -> bool
    ensures { result ≡ true ↔ (op ≡ NOT) × (t ≡ tag_of (plain integer) → ⊥) }
{
    op == operation::NOT && t != types::INTEGER
}

// Applies an operator of one operand. `not` of a std_logic or a boolean comes first and by itself, as sums do below: it is never refused and keeps its operand's
// type, so that nothing is tested behind it and no tag stored.
fn apply_unary(stack: &mut Stack, depth: usize, op: u8, at: usize) -> Result<Progress, Fault>
    requires { Room stack.old.values stack.old.tags depth }
    ensures { Says stack.new.values stack.new.tags result (unary_next (unary_for op) at (cells_of stack.old.values stack.old.tags depth)) }
{
    if depth < 1 {
        return Err(Fault::NoExpression);
    }
    let i = depth - 1;
    let t = stack.tags[i];
    if is_not(op, t) {
        base_operators::apply_not(&mut stack.values, i);
        return Ok(Progress { depth: i + 1, at });
    }
    base_operators::apply_unary(&mut stack.values, i, op, t)?;
    stack.tags[i] = operation::result_type(op, t);
    Ok(Progress { depth: i + 1, at })
}

// Whether the operator is + or - of integers.
fn is_sum(op: u8, t: u8) -> bool
    ensures { result ≡ true ↔ (t ≡ tag_of (plain integer)) × (PLUS ≤ op) × (op ≤ MINUS) }
{
    t == types::INTEGER && operation::PLUS <= op && op <= operation::MINUS
}

// Applies an operator of two operands; the left one lies below the right one. Sums come first and by themselves: most operators are sums, and the refusal of one is
// then tested where it is found, and not once more behind the table's answer.
fn apply_binary(stack: &mut Stack, depth: usize, op: u8, at: usize) -> Result<Progress, Fault>
    requires { Room stack.old.values stack.old.tags depth }
    ensures { Says stack.new.values stack.new.tags result (binary_next (binary_for op) at (cells_of stack.old.values stack.old.tags depth)) }
{
    if depth <= 1 {
        return Err(Fault::NoExpression);
    }
    let j = depth - 1;
    let i = j - 1;
    let t = stack.tags[i];
    if t != stack.tags[j] {
        return Err(Fault::NoExpression);
    }
    if is_sum(op, t) {
        base_operators::apply_sum(&mut stack.values, i, op)?;
        stack.tags[i] = operation::result_type(op, t);
        return Ok(Progress { depth: i + 1, at });
    }
    base_operators::apply_binary(&mut stack.values, i, op, t)?;
    stack.tags[i] = operation::result_type(op, t);
    Ok(Progress { depth: i + 1, at })
}

// Performs the operation at a byte.
fn step(
    code: &[u8],
    at: usize,
    inputs: &Named,
    variables: &Named,
    stack: &mut Stack,
    depth: usize,
) -> Result<Progress, Fault>
    requires { Room stack.old.values stack.old.tags depth × (at < length code.now) }
    ensures { Says stack.new.values stack.new.tags result
        (next_of (machine_for inputs.now.kinds.now variables.now.kinds.now inputs.now.values.now variables.now.values.now) ROOM
        (fetch_at code.now at) at (cells_of stack.old.values stack.old.tags depth)) }
{
    let op = code[at];
    if op == operation::INTEGER {
        let e = operand::integer(code, at);
        return push(stack, depth, e, at + operation::width(operation::INTEGER));
    }
    if op == operation::STD_LOGIC {
        let e = operand::bit(code, at);
        return push(stack, depth, e, at + operation::width(operation::STD_LOGIC));
    }
    if op == operation::INPUT {
        let e = operand::named(code, at, inputs);
        return push(stack, depth, e, at + operation::width(operation::INPUT));
    }
    if op == operation::VARIABLE {
        let e = operand::named(code, at, variables);
        return push(stack, depth, e, at + operation::width(operation::VARIABLE));
    }
    if operation::operands(op) == 1 {
        return apply_unary(stack, depth, op, at + 1);
    }
    apply_binary(stack, depth, op, at + 1)
}

// Runs the operations of the code over a lent stack, no more of them than an expression has.
fn run(code: &[u8], inputs: &Named, variables: &Named, stack: &mut Stack) -> Result<Found, Fault>
    requires { Room stack.old.values stack.old.tags 0 }
    ensures value { outcome result ≡ evaluated_of
        (code_value (machine_for inputs.now.kinds.now variables.now.kinds.now inputs.now.values.now variables.now.values.now) code.now) }
    ensures room { Room stack.new.values stack.new.tags 0 }
{
    let mut depth: usize = 0;
    let mut at: usize = 0;
    let mut left: usize = limit::ITEMS;
    // A while, since the body finds the next byte: a for over the operations left would test the end of the code twice.
    while at < code.len() {
        if left == 0 {
            return Err(Fault::NoExpression);
        }
        let next = step(code, at, inputs, variables, stack, depth)?;
        depth = next.depth;
        at = next.at;
        left -= 1;
    }
    if depth == 1 {
        return Ok(Found {
            kind: stack.tags[0],
            value: stack.values[0],
        });
    }
    Err(Fault::NoExpression)
}

// The value of the code of a line: `size` bytes of the code section from the byte `start` on, over the data inputs and the
// variables. The stack is lent, whatever it holds: clearing it for every line costs as much as an operation.
pub fn evaluate(
    code: &[u8],
    start: usize,
    size: usize,
    inputs: &Named,
    variables: &Named,
    stack: &mut Stack,
) -> Result<Found, Fault>
    requires { Room stack.old.values stack.old.tags 0 }
    ensures value { outcome result ≡ evaluated_of
        (part_value (machine_for inputs.now.kinds.now variables.now.kinds.now inputs.now.values.now variables.now.values.now) code.now start size) }
    ensures room { Room stack.new.values stack.new.tags 0 }
{
    if code.len() < start {
        return Err(Fault::NoExpression);
    }
    if code.len() - start < size {
        return Err(Fault::NoExpression);
    }
    let end = start + size;
    run(&code[start..end], inputs, variables, stack)
}
