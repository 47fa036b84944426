// The design of an accepted text: what it declares, and the arrays of its process.
ghost use Rattle.front_accept.specs.Designs.{Declares, Lays};

use base_codes::{declaration, limit, statement};
use base_ir::Declared;
use front_offences::Shape;

// What the design declares; the clock's declaration is left out.
pub(crate) fn declared(
    text: &[u8],
    kinds: &[u8; limit::TEXT],
    starts: &[u16; limit::TEXT],
    sizes: &[u16; limit::TEXT],
    p: Shape,
    decls: &[u16; declaration::ROWS],
    clock: usize,
) -> Declared
    ensures { Declares text.now kinds.now starts.now sizes.now p decls.now clock result }
{
    let d = p.names;
    let inputs = front_elaborator::names::inputs(starts, sizes, decls, d, clock);
    let outputs = front_elaborator::names::slotted(
        text,
        starts,
        sizes,
        kinds,
        decls,
        d,
        clock,
        declaration::OUT,
    );
    let variables = front_elaborator::names::slotted(
        text,
        starts,
        sizes,
        kinds,
        decls,
        d,
        clock,
        declaration::VARIABLE,
    );
    Declared {
        statements: p.statements,
        operations: p.items,
        inputs,
        outputs,
        variables,
    }
}

// The arrays of one process from what was read, in place: items and their values become operations, and rows of statements get their targets.
pub(crate) fn lay_out(
    names: usize,
    clock: usize,
    decls: &[u16; declaration::ROWS],
    owners: &[u8; limit::TEXT],
    d: Declared,
    ops: &mut [u8; limit::TEXT],
    args: &mut [i32; limit::TEXT],
    lines: &mut [u16; statement::ROWS],
)
    ensures { Lays names clock decls.now owners.now d
        ops.old ops.new args.old args.new lines.old lines.new }
{
    let rows = *lines;
    let mut slots = [0u8; limit::NAMES];
    front_elaborator::names::slots(decls, names, clock, &mut slots);
    front_elaborator::items::place(decls, names, &slots, d.operations, ops, args);
    front_elaborator::rows::statements(owners, &slots, &rows, d.statements, lines);
    let inputs = d.inputs.types;
    let variables = d.variables.types;
    front_operands::tell(ops, d.operations, &inputs, &variables, args);
}
