// The operations of all expressions, from the items.
ghost use Rattle.std.specs.Prelude.{◌≡◌, pos};
ghost use Rattle.front_offences.specs.Positions.{mode_in};
ghost use Rattle.front_elaborator.specs.Positions.{slot_at, within, name_code, name_arg, value_at, Resolves, code_of, arg_of, Places};
ghost use Rattle.spec_semantics.specs.Twos.{unsigned32};

use crate::arrays;
use base_codes::{declaration, item, limit, operation};
use front_offences::mode_at;

// A name's code, by its declaration's mode.
fn name_code(mode: u16) -> u8
    ensures { result ≡ name_code mode }
{
    match mode {
        declaration::IN => operation::INPUT,
        declaration::VARIABLE => operation::VARIABLE,
        _ => operation::STD_LOGIC,
    }
}

// The index of a name that is read, among those of its kind.
fn name_arg(decls: &[u16; declaration::ROWS], d: usize, slots: &[u8; limit::NAMES], q: usize) -> u8
    ensures { result ≡ name_arg (mode_in decls.now d q) (slot_at slots.now q) }
{
    match name_code(mode_at(decls, d, q)) {
        operation::STD_LOGIC => 0,
        _ => slots.get(q).copied().unwrap_or(0),
    }
}

// The value of an item: the number of the declaration that a name stands for, a literal's value; 0 for an operator.
#[tactic(auto, unfolding(crate::specs::Positions::value_at))]
fn value_at(
    text: &[u8],
    starts: &[u16; limit::TEXT],
    sizes: &[u16; limit::TEXT],
    kinds: &[u8; limit::TEXT],
    owners: &[u8; limit::TEXT],
    c: u8,
    i: usize,
) -> i32
    ensures { result ≡ pos (within (value_at text.now starts.now sizes.now kinds.now owners.now c i)) }
{
    match c {
        item::NAME => i32::from(owners.get(i).copied().unwrap_or(0)),
        item::NUMBER => arrays::literal_at(text, starts, sizes, i),
        item::BIT => arrays::bit_at(kinds, i),
        _ => 0,
    }
}

// The values of all items, in their order: behind this pass no token is asked for.
pub fn resolve(
    text: &[u8],
    starts: &[u16; limit::TEXT],
    sizes: &[u16; limit::TEXT],
    kinds: &[u8; limit::TEXT],
    owners: &[u8; limit::TEXT],
    codes: &[u8; limit::TEXT],
    indices: &[u16; limit::TEXT],
    k: usize,
    args: &mut [i32; limit::TEXT],
)
    ensures { Resolves (value_at text.now starts.now sizes.now kinds.now owners.now)
        codes.now indices.now k args.old args.new }
{
    for j in 0..k.min(limit::TEXT) {
        let i = usize::from(indices[j]);
        args[j] = value_at(text, starts, sizes, kinds, owners, codes[j], i);
    }
}

// An item becomes its operation: a name gets its code and its index; a literal and an operator have theirs already. The type of an operator's operands is told
// later, by the crate front_operands.
#[tactic(auto, unfolding(crate::specs::Positions::code_of, crate::specs::Positions::arg_of))]
fn put(
    decls: &[u16; declaration::ROWS],
    d: usize,
    slots: &[u8; limit::NAMES],
    op: &mut u8,
    arg: &mut i32,
)
    ensures op_after { op.new ≡ code_of decls.now d op.old (unsigned32 arg.old) }
    ensures arg_after { arg.new ≡ arg_of decls.now d slots.now op.old arg.old }
{
    if *op != item::NAME {
        return;
    }
    let q = base_signed::to_bits(*arg) as usize;
    *op = name_code(mode_at(decls, d, q));
    *arg = i32::from(name_arg(decls, d, slots, q));
}

// All items, in place.
pub fn place(
    decls: &[u16; declaration::ROWS],
    d: usize,
    slots: &[u8; limit::NAMES],
    k: usize,
    ops: &mut [u8; limit::TEXT],
    args: &mut [i32; limit::TEXT],
)
    ensures { Places (λ c z. code_of decls.now d c (unsigned32 z)) (arg_of decls.now d slots.now) k ops.old ops.new args.old args.new }
{
    for j in 0..k.min(limit::TEXT) {
        put(decls, d, slots, &mut ops[j], &mut args[j]);
    }
}
