// The code of a line: one pass over its operations with a stack of types by number.
// The types of names are read where they stand in the signature section, so that no table of types is filled before the lines are checked.
ghost use Rattle.std.specs.Prelude.{◌≡◌, true, ◌+◌, ◌*◌, ◌-◌, ◌<◌, length, get_or};
ghost use Rattle.spec_format.specs.Signature.{signature_of};
ghost use Rattle.image_loader.specs.Sections.{is_some};
ghost use Rattle.base_codes.specs.Limit.{ITEMS};
ghost use Rattle.base_codes.specs.Stack.{stack_of};
ghost use Rattle.image_loader.specs.Code.{tagged, tag_known, tag_at, input_types, output_types, variable_types, code_type, bit_tag, leaf_tag, pushed, unary_step, binary_step, step_at, Stepped};

use crate::signature::count;
use base_codes::{image, limit, operation, types};

// The type that a number stands for, where it stands for one.
fn known(t: u8) -> Option<u8>
    ensures { result ≡ tag_known t }
{
    (t != types::NONE).then_some(t)
}

// The type of an input. Inputs, outputs and variables have each their own count, first place and width: one function for the three would take these and share no more.
fn input_type(signature: &[u8], k: usize) -> Option<u8>
    requires { is_some (signature_of signature.now) ≡ true }
    ensures { result ≡ tag_at (input_types signature.now) k }
{
    if count(signature, image::INPUTS) <= k {
        return None;
    }
    Some(image_words::byte(signature, image::COUNTS + k))
}

// The type of an output.
pub(crate) fn output_type(signature: &[u8], k: usize) -> Option<u8>
    requires { is_some (signature_of signature.now) ≡ true }
    ensures { result ≡ tag_at (output_types signature.now) k }
{
    if count(signature, image::OUTPUTS) <= k {
        return None;
    }
    let first = image::COUNTS + count(signature, image::INPUTS);
    Some(image_words::byte(signature, first + image::SLOT * k))
}

// The type of a variable.
pub(crate) fn variable_type(signature: &[u8], k: usize) -> Option<u8>
    requires { is_some (signature_of signature.now) ≡ true }
    ensures { result ≡ tag_at (variable_types signature.now) k }
{
    if count(signature, image::VARIABLES) <= k {
        return None;
    }
    let first = image::COUNTS
        + count(signature, image::INPUTS)
        + image::SLOT * count(signature, image::OUTPUTS);
    Some(image_words::byte(signature, first + image::SLOT * k))
}

// A std_logic literal, by its byte.
fn bit_type(bit: usize) -> Option<u8>
    ensures { result ≡ bit_tag bit }
{
    (bit <= 1).then_some(types::STD_LOGIC)
}

// A literal or a name. An integer is told before the match: one over all four kinds becomes a table of jumps, five instructions more for every leaf.
#[tactic(auto, unfolding(crate::specs::Code::leaf_tag))]
fn leaf_type(signature: &[u8], s: &[u8], at: usize, k: u8) -> Option<u8>
    requires signature_value { is_some (signature_of signature.now) ≡ true }
    requires at_in_bounds { at < length s.now }
    ensures { result ≡ leaf_tag (input_types signature.now) (variable_types signature.now) s.now at k }
{
    if s.len() < at + operation::width(k) {
        return None;
    }
    if k == operation::INTEGER {
        return Some(types::INTEGER);
    }
    let index = count(s, at + 1);
    match k {
        operation::STD_LOGIC => bit_type(index),
        operation::INPUT => input_type(signature, index),
        operation::VARIABLE => variable_type(signature, index),
        _ => None,
    }
}

// A type on top of the stack: the new depth.
fn push(stack: &mut [u8; limit::ITEMS], depth: usize, t: Option<u8>) -> Option<usize>
    requires depth_bound { depth < ITEMS }
    requires stack_len { length stack.old ≡ ITEMS }
    ensures { Stepped (pushed t (stack_of 0 stack.old depth)) depth stack.new result }
{
    stack[depth] = t?;
    Some(depth + 1)
}

// An operator of one operand.
fn apply_unary(stack: &mut [u8; limit::ITEMS], depth: usize, k: u8) -> Option<usize>
    requires depth_bound { depth < ITEMS }
    requires stack_len { length stack.old ≡ ITEMS }
    ensures { Stepped (unary_step k (stack_of 0 stack.old depth)) depth stack.new result }
{
    let top = depth.checked_sub(1)?;
    let t = known(operation::unary_type(k, stack[top]));
    push(stack, top, t)
}

// An operator of two operands, which are of one type.
fn apply_binary(stack: &mut [u8; limit::ITEMS], depth: usize, k: u8) -> Option<usize>
    requires depth_bound { depth < ITEMS }
    requires stack_len { length stack.old ≡ ITEMS }
    ensures { Stepped (binary_step k (stack_of 0 stack.old depth)) depth stack.new result }
{
    let left = depth.checked_sub(2)?;
    let t = stack[left];
    if t != stack[left + 1] {
        return None;
    }
    push(stack, left, known(operation::binary_type(k, t)))
}

// One operation: the depth after it, unless it is none or its operands are wrong.
fn operate(
    signature: &[u8],
    s: &[u8],
    at: usize,
    stack: &mut [u8; limit::ITEMS],
    depth: usize,
) -> Option<usize>
    requires signature_value { is_some (signature_of signature.now) ≡ true }
    requires at_in_bounds { at < length s.now }
    requires depth_bound { depth < ITEMS }
    requires stack_len { length stack.old ≡ ITEMS }
    ensures { let g = signature.now in let l = s.now in
        Stepped (step_at (input_types g) (variable_types g) l at (get_or l at 0) (stack_of 0 stack.old depth)) depth stack.new result }
{
    let k = s[at];
    match operation::operands(k) {
        0 => push(stack, depth, leaf_type(signature, s, at, k)),
        1 => apply_unary(stack, depth, k),
        _ => apply_binary(stack, depth, k),
    }
}

// The operations one after the other, at most as many as an expression may have items, on the stack that is lent.
fn run(signature: &[u8], s: &[u8], stack: &mut [u8; limit::ITEMS]) -> Option<u8>
    requires stack_len { length stack.old ≡ ITEMS }
    requires signature_value { is_some (signature_of signature.now) ≡ true }
    ensures { result ≡ tagged (code_type (input_types signature.now) (variable_types signature.now) s.now) }
{
    let mut at = 0;
    let mut depth = 0;
    // Counted down by hand: with `checked_sub` and `?` an operation costs five instructions more.
    let mut left = limit::ITEMS;
    while at < s.len() {
        if left == 0 {
            return None;
        }
        left -= 1;
        let next = at + operation::width(s[at]);
        depth = operate(signature, s, at, stack, depth)?;
        at = next;
    }
    if depth != 1 {
        return None;
    }
    Some(stack[0])
}

// The type of the value that code leaves; none where it is no expression, or one of too many operations.
pub(crate) fn code_type(signature: &[u8], s: &[u8]) -> Option<u8>
    requires { is_some (signature_of signature.now) ≡ true }
    ensures { result ≡ tagged (code_type (input_types signature.now) (variable_types signature.now) s.now) }
{
    let mut stack = [0u8; limit::ITEMS];
    run(signature, s, &mut stack)
}
