// The types of an expression: its postfix items one after the other, on a stack of types.
ghost use Rattle.std.specs.Prelude.{◌≡◌, ◌≤◌};
ghost use Rattle.base_codes.specs.Limit.{TEXT, ITEMS};
ghost use Rattle.base_codes.specs.Stack.{stack_of};
ghost use Rattle.front_typing.specs.Expressions.{declared_code, name_at, place_at, operand_code, sources_of, work, pushed, unary_on, binary_on, step_work, expr_work, top_of, Room, Says, JudgedBy};

use crate::{Judged, Progress, Span, operators};
use base_codes::{declaration, item, limit, operation, types};
use front_offences::Tree;

// The type of declared name j.
fn declared_type(tree: &Tree, j: usize) -> u8
    ensures { result ≡ declared_code tree.now.decls.now tree.now.shape.names j }
{
    if j < tree.shape.names && j < limit::NAMES {
        types::declared(tree.declared(j, declaration::TYPE))
    } else {
        types::NONE
    }
}

// The type of the name at a token's index.
pub(crate) fn name_type(tree: &Tree, i: usize) -> u8
    ensures { result ≡ name_at (sources_of tree.now) i }
{
    if i < limit::TEXT {
        declared_type(tree, usize::from(tree.owners[i]))
    } else {
        types::NONE
    }
}

// The type of an operand.
fn operand_type(tree: &Tree, c: u8, i: usize) -> u8
    ensures { result ≡ operand_code c (name_at (sources_of tree.now) i) }
{
    match c {
        item::NAME => name_type(tree, i),
        item::NUMBER => types::INTEGER,
        _ => types::STD_LOGIC,
    }
}

// Pushes an operand's type.
fn push(stack: &mut [u8; limit::ITEMS], t: u8, depth: usize, lowest: Option<usize>) -> Progress
    requires { Room stack.old depth }
    ensures { Says stack.new result (pushed t (stack_of 0 stack.old depth) lowest) }
{
    if depth < limit::ITEMS {
        stack[depth] = t;
        return Progress {
            depth: depth + 1,
            lowest,
        };
    }
    Progress { depth, lowest }
}

// Judges an operator of one operand.
fn unary(
    stack: &mut [u8; limit::ITEMS],
    c: u8,
    place: u16,
    depth: usize,
    lowest: Option<usize>,
) -> Progress
    requires { Room stack.old depth }
    ensures { Says stack.new result (unary_on c place (stack_of 0 stack.old depth) lowest) }
{
    if depth < 1 {
        return Progress { depth, lowest };
    }
    let i = depth - 1;
    let t = stack[i];
    let r = operation::unary_type(c, t);
    let wrong = front_offences::offence(operators::right_one(t, r), place);
    stack[i] = r;
    Progress {
        depth,
        lowest: front_offences::lower(lowest, wrong),
    }
}

// Judges an operator of two operands; the left one lies below the right one.
fn binary(
    stack: &mut [u8; limit::ITEMS],
    c: u8,
    place: u16,
    depth: usize,
    lowest: Option<usize>,
) -> Progress
    requires { Room stack.old depth }
    ensures { Says stack.new result (binary_on c place (stack_of 0 stack.old depth) lowest) }
{
    if depth <= 1 {
        return Progress { depth, lowest };
    }
    let j = depth - 1;
    let i = j - 1;
    let t = stack[i];
    let u = stack[j];
    let r = operators::binary(c, t, u);
    let wrong = front_offences::offence(operators::right_two(t, u, r), place);
    stack[i] = r;
    Progress {
        depth: j,
        lowest: front_offences::lower(lowest, wrong),
    }
}

// Judges an item by its code and the index of its token.
fn item(tree: &Tree, c: u8, i: usize, stack: &mut [u8; limit::ITEMS], p: Progress) -> Progress
    requires { Room stack.old p.depth }
    ensures { Says stack.new result
        (step_work c (name_at (sources_of tree.now) i) (place_at (sources_of tree.now) i) (work (stack_of 0 stack.old p.depth) p.lowest)) }
{
    let operands = operation::operands(c);
    if operands == 0 {
        let t = operand_type(tree, c, i);
        return push(stack, t, p.depth, p.lowest);
    }
    let place = tree.place(i);
    if operands == 1 {
        return unary(stack, c, place, p.depth, p.lowest);
    }
    binary(stack, c, place, p.depth, p.lowest)
}

// The type on top of the stack.
fn top(stack: &[u8; limit::ITEMS], depth: usize) -> u8
    requires { depth ≤ ITEMS }
    ensures { result ≡ top_of (stack_of 0 stack.now depth) }
{
    if depth < 1 {
        return types::NONE;
    }
    stack[depth - 1]
}

// Judges the items of an expression, over a lent stack.
fn run(tree: &Tree, span: Span, stack: &mut [u8; limit::ITEMS]) -> Progress
    requires { Room stack.old 0 × (span.to ≤ TEXT) }
    ensures { Says stack.new result (expr_work (sources_of tree.now) span.from span.to) }
{
    let mut p = Progress {
        depth: 0,
        lowest: None,
    };
    for m in span.from..span.to {
        let i = usize::from(tree.indices[m]);
        p = item(tree, tree.codes[m], i, stack, p);
    }
    p
}

// Judges an expression.
pub(crate) fn expression(tree: &Tree, span: Span) -> Judged
    requires { span.to ≤ TEXT }
    ensures { JudgedBy result (expr_work (sources_of tree.now) span.from span.to) }
{
    let mut stack = [0u8; limit::ITEMS];
    let p = run(tree, span, &mut stack);
    Judged {
        code: top(&stack, p.depth),
        lowest: p.lowest,
    }
}
