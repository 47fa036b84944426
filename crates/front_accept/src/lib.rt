#![tactic(auto)]
// All stages of the front end in table order: a text to the arrays of its design, or its refusal.
ghost use Rattle.front_accept.specs.Fronts.{design_arrays, TextFront, TokensFront};

mod layout;
mod reading;
mod rules;

use base_answers::Refusal;
use base_codes::{limit, statement};
use base_ir::Declared;

// Refusals 3 to 9 on a text of n tokens, then its design.
fn parsed_text(
    text: &[u8],
    kinds: &[u8; limit::TEXT],
    starts: &[u16; limit::TEXT],
    sizes: &[u16; limit::TEXT],
    n: usize,
    ops: &mut [u8; limit::TEXT],
    args: &mut [i32; limit::TEXT],
    lines: &mut [u16; statement::ROWS],
) -> Result<Declared, Refusal>
    ensures { TokensFront text.now kinds.now starts.now sizes.now n result
        (design_arrays ops.old args.old lines.old) (design_arrays ops.new args.new lines.new) }
{
    let mut owners = [0u8; limit::TEXT];
    let r = reading::read(text, kinds, starts, sizes, n, &mut owners, ops, args, lines);
    let shape = r.judgement?;
    let clock = front_clock::clock_owner(lines, shape.statements, &owners, shape.tokens);
    let declared = layout::declared(text, kinds, starts, sizes, shape, &r.decls, clock);
    layout::lay_out(
        shape.names,
        clock,
        &r.decls,
        &owners,
        declared,
        ops,
        args,
        lines,
    );
    Ok(declared)
}

// All stages on a text: refusals 1 to 9 in table order, or what its design declares, and its arrays.
pub fn accept(
    text: &[u8],
    ops: &mut [u8; limit::TEXT],
    args: &mut [i32; limit::TEXT],
    lines: &mut [u16; statement::ROWS],
) -> Result<Declared, Refusal>
    ensures { TextFront text.now result (design_arrays ops.old args.old lines.old) (design_arrays ops.new args.new lines.new) }
{
    let mut kinds = [0u8; limit::TEXT];
    let mut starts = [0u16; limit::TEXT];
    let mut sizes = [0u16; limit::TEXT];
    let n = front_lexer::lex(text, &mut kinds, &mut starts, &mut sizes)?;
    parsed_text(text, &kinds, &starts, &sizes, n, ops, args, lines)
}
