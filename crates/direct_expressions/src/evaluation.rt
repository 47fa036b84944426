// The value of an expression: its operations, one after another, on a stack of numbers.
ghost use Rattle.std.specs.Prelude.{◌≡◌, ◌+◌, length, get_or, pos};
ghost use Rattle.spec_design.specs.Expression.{Expr};
ghost use Rattle.spec_semantics.specs.Evaluation.{evaluate as evaluate_of};
ghost use Rattle.spec_semantics.specs.Twos.{unsigned32};
ghost use Rattle.base_ir.specs.Operations.{op as operation, ops};
ghost use Rattle.base_ir.specs.Arrays.{ops_from};
ghost use Rattle.base_codes.specs.Stack.{stack_of};
ghost use Rattle.direct_expressions.specs.Machine.{kind_of, unary_next, binary_next, pushed_within, step_of, top_of, value_in, Performable};
ghost use Rattle.base_codes.specs.Fault.{outcome};
ghost use Rattle.direct_expressions.specs.Stack.{Room, Says};

use base_codes::fault::Fault;
use base_codes::{limit, operation, types};

// The k-th number of a row; 0 where it has none.
pub fn number(row: &[i32], k: usize) -> i32
    ensures { result ≡ get_or row.now k (pos 0) }
{
    row.get(k).copied().unwrap_or(0)
}

// The k-th code; 0 where there is none.
fn code_at(codes: &[u8], k: usize) -> u8
    ensures { result ≡ get_or codes.now k 0 }
{
    codes.get(k).copied().unwrap_or(0)
}

// The number of a row at the index that an operation has.
fn named(row: &[i32], arg: i32) -> i32
    ensures { result ≡ get_or row.now (unsigned32 arg) (pos 0) }
{
    number(row, base_signed::to_bits(arg) as usize)
}

// The number of a type from an operator's argument.
fn kind(arg: i32) -> u8
    ensures { result ≡ kind_of arg }
{
    let n = base_signed::to_bits(arg);
    if n < (types::NONE as u32) {
        n as u8
    } else {
        types::NONE
    }
}

// Pushes an operand.
fn push(stack: &mut [i32; limit::ITEMS], depth: usize, v: i32) -> Result<usize, Fault>
    requires { Room stack.old depth }
    ensures { Says stack.new result (pushed_within v (stack_of (pos 0) stack.old depth)) }
{
    if limit::ITEMS <= depth {
        return Err(Fault::NoExpression);
    }
    stack[depth] = v;
    Ok(depth + 1)
}

// Applies an operator of one operand of the type t.
fn apply_unary(stack: &mut [i32; limit::ITEMS], depth: usize, op: u8, t: u8) -> Result<usize, Fault>
    requires { Room stack.old depth }
    ensures { Says stack.new result (unary_next op t (stack_of (pos 0) stack.old depth)) }
{
    if depth < 1 {
        return Err(Fault::NoExpression);
    }
    let i = depth - 1;
    base_operators::apply_unary(stack, i, op, t)?;
    Ok(i + 1)
}

// Applies an operator of two operands of the type t; the left one lies below the right one.
fn apply_binary(
    stack: &mut [i32; limit::ITEMS],
    depth: usize,
    op: u8,
    t: u8,
) -> Result<usize, Fault>
    requires { Room stack.old depth }
    ensures { Says stack.new result (binary_next op t (stack_of (pos 0) stack.old depth)) }
{
    if depth <= 1 {
        return Err(Fault::NoExpression);
    }
    let right = depth - 1;
    let i = right - 1;
    base_operators::apply_binary(stack, i, op, t)?;
    Ok(i + 1)
}

// Performs an operation: literals come first among the codes, then inputs and variables, then operators.
fn step(
    op: u8,
    arg: i32,
    inputs: &[i32],
    variables: &[i32],
    stack: &mut [i32; limit::ITEMS],
    depth: usize,
) -> Result<usize, Fault>
    requires { Room stack.old depth }
    ensures { Says stack.new result (step_of inputs.now variables.now (operation op arg) (stack_of (pos 0) stack.old depth)) }
{
    if op < operation::INPUT {
        return push(stack, depth, arg);
    }
    if op == operation::INPUT {
        return push(stack, depth, named(inputs, arg));
    }
    if op == operation::VARIABLE {
        return push(stack, depth, named(variables, arg));
    }
    if operation::operands(op) == 1 {
        return apply_unary(stack, depth, op, kind(arg));
    }
    apply_binary(stack, depth, op, kind(arg))
}

// The number on top of the stack.
fn top(stack: &[i32; limit::ITEMS], depth: usize) -> Result<i32, Fault>
    requires { Room stack.now depth }
    ensures { outcome result ≡ top_of (stack_of (pos 0) stack.now depth) }
{
    if depth < 1 {
        return Err(Fault::NoExpression);
    }
    Ok(stack[depth - 1])
}

// Runs the operations from .. to over a lent stack.
fn run(
    codes: &[u8],
    args: &[i32],
    from: usize,
    to: usize,
    inputs: &[i32],
    variables: &[i32],
    stack: &mut [i32; limit::ITEMS],
) -> Result<i32, Fault>
    requires { Room stack.old 0 }
    ensures { outcome result ≡ value_in codes.now args.now from to inputs.now variables.now }
{
    let mut depth: usize = 0;
    for at in from..to {
        depth = step(
            code_at(codes, at),
            number(args, at),
            inputs,
            variables,
            stack,
            depth,
        )?;
    }
    top(stack, depth)
}

// The value of the expression whose operations are from .. to, over the input row and the variables.
pub fn evaluate(
    codes: &[u8],
    args: &[i32],
    from: usize,
    to: usize,
    inputs: &[i32],
    variables: &[i32],
) -> Result<i32, Fault>
    ensures value { outcome result ≡ value_in codes.now args.now from to inputs.now variables.now }
    ensures of_expression { (e : Expr) → ops_from codes.now args.now from (length (ops e)) ≡ ops e → to ≡ from + length (ops e) → Performable e
        → outcome result ≡ evaluate_of e inputs.now variables.now }
{
    let mut stack = [0i32; limit::ITEMS];
    run(codes, args, from, to, inputs, variables, &mut stack)
}
