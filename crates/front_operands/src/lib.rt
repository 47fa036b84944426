#![tactic(auto)]
// The type of every operator's operands, told behind the elaborator. An operation stands behind its operands, so that what ends just before an operator is its
// only or its right operand, and both operands have one type: one number, the type of what ends here, is enough.
ghost use Rattle.std.specs.Prelude.{◌≡◌, ◌<◌, min, get_or, set, pos};
ghost use Rattle.base_codes.specs.Limit.{TEXT};
ghost use Rattle.spec_semantics.specs.Twos.{unsigned32};
ghost use Rattle.base_ir.specs.Operations.{op as operation, arg_with};
ghost use Rattle.front_operands.specs.Told.{tag_at, leaf_tag, tag_after, Tells};

use base_codes::{limit, operation, types};

// The type of a name, by its index.
fn name_type(named: &[u8; limit::VARIABLES], arg: i32) -> u8
    ensures { result ≡ tag_at named.now (unsigned32 arg) }
{
    let k = base_signed::to_bits(arg) as usize;
    named.get(k).copied().unwrap_or(types::NONE)
}

// The type of a literal or a name.
#[tactic(auto, unfolding(crate::specs::Told::leaf_tag))]
fn leaf_type(
    op: u8,
    arg: i32,
    inputs: &[u8; limit::VARIABLES],
    variables: &[u8; limit::VARIABLES],
) -> u8
    ensures { result ≡ leaf_tag inputs.now variables.now op arg }
{
    match op {
        operation::INTEGER => types::INTEGER,
        operation::STD_LOGIC => types::STD_LOGIC,
        operation::INPUT => name_type(inputs, arg),
        operation::VARIABLE => name_type(variables, arg),
        _ => types::NONE,
    }
}

// Tells an operation, where t is the type of what ends before it: an operator gets the type of its operands for its argument, any other operation keeps its own.
// Answers the type of what ends here.
#[tactic(auto, unfolding(crate::specs::Told::tag_after))]
fn told(
    op: u8,
    inputs: &[u8; limit::VARIABLES],
    variables: &[u8; limit::VARIABLES],
    arg: &mut i32,
    t: u8,
) -> u8
    ensures value { result ≡ tag_after inputs.now variables.now (operation op arg.old) t }
    ensures arg_after { arg.new ≡ arg_with op arg.old t }
{
    if operation::operands(op) == 0 {
        return leaf_type(op, *arg, inputs, variables);
    }
    *arg = i32::from(t);
    operation::result_type(op, t)
}

// Writes the type of its operands into the argument of every operator. Before the first operation no operand ends.
pub fn tell(
    ops: &[u8; limit::TEXT],
    k: usize,
    inputs: &[u8; limit::VARIABLES],
    variables: &[u8; limit::VARIABLES],
    args: &mut [i32; limit::TEXT],
)
    ensures { Tells ops.now k inputs.now variables.now args.old args.new }
{
    let mut t = types::NONE;
    for j in 0..k.min(limit::TEXT) {
        t = told(ops[j], inputs, variables, &mut args[j], t);
    }
}
