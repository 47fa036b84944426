#![tactic(auto)]
// The operators of document 01 by number, type by type: the one table, for the image's evaluator and for the direct run. An operator that is added gets a
// line here, in the function of each type that it takes; a type that is added gets a function and a line in `unary` and `binary`.
ghost use Rattle.std.specs.Prelude.{◌≡◌, ◌+◌, ◌≤◌, ◌<◌, length, get_or, ℤ, pos, Ok};
ghost use Rattle.std.proofs.Math.Option.{some};
ghost use Rattle.spec_design.specs.Types.{std_logic, integer, plain, boolean};
ghost use Rattle.spec_design.specs.Expression.{invert, fine};
ghost use Rattle.spec_semantics.specs.Evaluation.{bit_of};
ghost use Rattle.base_codes.specs.Operation.{PLUS, MINUS, AND, unary_for, binary_for};
ghost use Rattle.base_codes.specs.Limit.{ITEMS};
ghost use Rattle.base_codes.specs.Fault.{outcome};
ghost use Rattle.base_operators.specs.Operators.{unary_by, binary_by, unary_on, binary_on, Applied};

use base_codes::fault::Fault;
use base_codes::{limit, operation, types};

// A truth value as a number.
fn logic(b: bool) -> Result<i32, Fault>
    ensures { outcome result ≡ fine (bit_of b) }
{
    Ok(base_signed::from_bool(b))
}

// Two integers, by * / mod rem; no other operator of integers comes here.
fn multiplied(op: u8, x: i32, y: i32) -> Result<i32, Fault>
    requires { PLUS ≤ op → AND ≤ op }
    ensures { outcome result ≡ binary_by (binary_for op) (some (plain integer)) x y }
{
    match op {
        operation::TIMES => base_signed::multiply(x, y),
        operation::DIVIDE => base_signed::divide(x, y),
        operation::MOD => base_signed::modulus(x, y),
        operation::REM => base_signed::remainder(x, y),
        _ => Err(Fault::NoExpression),
    }
}

// + and - of two integers.
fn sum(op: u8, x: i32, y: i32) -> Result<i32, Fault>
    requires { (PLUS ≤ op) × (op ≤ MINUS) }
    ensures { outcome result ≡ binary_by (binary_for op) (some (plain integer)) x y }
{
    base_signed::sum(x, op == operation::MINUS, y)
}

// Two integers. * / mod rem come last, in one arm, so that no other operator pays for them.
fn integers(op: u8, x: i32, y: i32) -> Result<i32, Fault>
    ensures { outcome result ≡ binary_by (binary_for op) (some (plain integer)) x y }
{
    match op {
        operation::PLUS | operation::MINUS => sum(op, x, y),
        operation::EQ => logic(x == y),
        operation::NE => logic(x != y),
        operation::LT => logic(x < y),
        operation::LE => logic(x <= y),
        operation::GT => logic(x > y),
        operation::GE => logic(x >= y),
        _ => multiplied(op, x, y),
    }
}

// Two numbers that stand for true and false.
fn logical(op: u8, x: i32, y: i32) -> Result<i32, Fault>
    ensures { outcome result ≡ binary_by (binary_for op) (some boolean) x y }
{
    match op {
        operation::AND => logic(base_signed::is_one(x) && base_signed::is_one(y)),
        operation::OR => logic(base_signed::is_one(x) || base_signed::is_one(y)),
        operation::XOR => logic(base_signed::is_one(x) != base_signed::is_one(y)),
        _ => Err(Fault::NoExpression),
    }
}

// Two std_logics.
fn bits(op: u8, x: i32, y: i32) -> Result<i32, Fault>
    ensures { outcome result ≡ binary_by (binary_for op) (some (plain std_logic)) x y }
{
    match op {
        operation::EQ => logic(x == y),
        operation::NE => logic(x != y),
        _ => logical(op, x, y),
    }
}

// An operator of two operands, the left one first, both of the type t.
fn binary(op: u8, t: u8, x: i32, y: i32) -> Result<i32, Fault>
    ensures { outcome result ≡ binary_on op t x y }
{
    match t {
        types::STD_LOGIC => bits(op, x, y),
        types::INTEGER => integers(op, x, y),
        types::BOOLEAN => logical(op, x, y),
        _ => Err(Fault::NoExpression),
    }
}

// An integer.
fn one_integer(op: u8, x: i32) -> Result<i32, Fault>
    ensures { outcome result ≡ unary_by (unary_for op) (some (plain integer)) x }
{
    match op {
        operation::SIGN => base_signed::negate(x),
        _ => Err(Fault::NoExpression),
    }
}

// `not` of a number that stands for true or false.
fn inverted(x: i32) -> i32
    ensures { fine result ≡ unary_by (some invert) (some boolean) x }
{
    base_signed::from_bool(!base_signed::is_one(x))
}

// A number that stands for true or false.
fn one_logical(op: u8, x: i32) -> Result<i32, Fault>
    ensures { outcome result ≡ unary_by (unary_for op) (some boolean) x }
{
    match op {
        operation::NOT => Ok(inverted(x)),
        _ => Err(Fault::NoExpression),
    }
}

// An operator of one operand of the type t.
fn unary(op: u8, t: u8, x: i32) -> Result<i32, Fault>
    ensures { outcome result ≡ unary_on op t x }
{
    match t {
        types::STD_LOGIC => one_logical(op, x),
        types::INTEGER => one_integer(op, x),
        types::BOOLEAN => one_logical(op, x),
        _ => Err(Fault::NoExpression),
    }
}

// Applies an operator of one operand of the type t, which stands at i on a stack: its value takes the operand's place.
pub fn apply_unary(stack: &mut [i32; limit::ITEMS], i: usize, op: u8, t: u8) -> Result<(), Fault>
    requires { (length stack.old ≡ ITEMS) × (i < ITEMS) }
    ensures { Applied (unary_on op t (get_or stack.old i (pos 0))) stack.old i stack.new result }
{
    stack[i] = unary(op, t, stack[i])?;
    Ok(())
}

// `not` of a std_logic or a boolean, without a look at the table: it is never refused.
pub fn apply_not(stack: &mut [i32; limit::ITEMS], i: usize)
    requires { (length stack.old ≡ ITEMS) × (i < ITEMS) }
    ensures { Applied (unary_by (some invert) (some boolean) (get_or stack.old i (pos 0))) stack.old i stack.new (Ok tt) }
{
    stack[i] = inverted(stack[i]);
}

// Applies an operator of two operands of the type t, which stand at i and behind it, by the table.
fn apply_by_table(stack: &mut [i32; limit::ITEMS], i: usize, op: u8, t: u8) -> Result<(), Fault>
    requires { (length stack.old ≡ ITEMS) × (i + 1 < ITEMS) }
    ensures { Applied (binary_on op t (get_or stack.old i (pos 0)) (get_or stack.old (i + 1) (pos 0))) stack.old i
        stack.new result }
{
    stack[i] = binary(op, t, stack[i], stack[i + 1])?;
    Ok(())
}

// The same for + and - of integers, without a look at the table.
pub fn apply_sum(stack: &mut [i32; limit::ITEMS], i: usize, op: u8) -> Result<(), Fault>
    requires { (length stack.old ≡ ITEMS) × (i + 1 < ITEMS) × (PLUS ≤ op) × (op ≤ MINUS) }
    ensures { Applied (binary_by (binary_for op) (some (plain integer)) (get_or stack.old i (pos 0)) (get_or stack.old (i + 1) (pos 0)))
        stack.old i stack.new result }
{
    stack[i] = sum(op, stack[i], stack[i + 1])?;
    Ok(())
}

// Applies an operator of two operands of the type t, which stand at i and behind it on a stack: its value takes the left one's place. Both evaluators call
// this; most operators are sums, and these, being short, become part of the evaluators' loops, which the table is too long for.
pub fn apply_binary(stack: &mut [i32; limit::ITEMS], i: usize, op: u8, t: u8) -> Result<(), Fault>
    requires { (length stack.old ≡ ITEMS) × (i + 1 < ITEMS) }
    ensures { Applied (binary_on op t (get_or stack.old i (pos 0)) (get_or stack.old (i + 1) (pos 0))) stack.old i
        stack.new result }
{
    if t != types::INTEGER {
        return apply_by_table(stack, i, op, t);
    }
    match op {
        operation::PLUS | operation::MINUS => apply_sum(stack, i, op),
        _ => apply_by_table(stack, i, op, t),
    }
}
