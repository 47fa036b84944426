#![tactic(auto)]
// The readers of expressions: tokens to postfix items in lent arrays. Chain, simple expression, product and primary call each other in a cycle,
// the tokens left falling; factors, terms and chains are loops. An operator waits on the call stack and is written behind its operands.
ghost use Rattle.std.specs.Prelude.{◌≡◌, ℕ, ◌+◌, ◌<◌, ◌≤◌, true, false};
ghost use Rattle.spec_grammar.specs.Grammar.{primary as primary_part, factor as factor_part, term as term_part, simple as simple_part, relation as relation_part, expression as expression_part};
ghost use Rattle.base_codes.specs.Token.{one_of, operands, adding, multiplying, logical};
ghost use Rattle.front_cursor.specs.Reading.{Asks, here, as_read};
ghost use Rattle.front_layout.specs.Tokens.{kind_in};
ghost use Rattle.front_layout.specs.Postfix.{postfix};
ghost use Rattle.front_layout.specs.Items.{arrays};
ghost use Rattle.front_expressions.specs.Put.{Put};
ghost use Rattle.front_expressions.specs.Tests.{leaf_code};
ghost use Rattle.front_expressions.specs.Readers.{Tail, sum, product as product_tail, operator_of, ReadsOver, PartlyOver, OneTurn};

use base_codes::{limit, operation, token};
use front_cursor::{Cursor, Reached, Tokens, Unread};

// Writes an item behind the others.
fn put(
    codes: &mut [u8; limit::TEXT],
    tokens: &mut [u16; limit::TEXT],
    q: Cursor,
    code: u8,
    at: usize,
) -> Cursor
    requires { (q.written < 16384) × (at < 65536) }
    ensures { Put (here q) code at (arrays codes.old tokens.old) (here result) (arrays codes.new tokens.new) }
{
    let n = q.written;
    codes[n] = code;
    tokens[n] = at as u16;
    Cursor {
        written: n + 1,
        ..q
    }
}

// The code of a leaf's item, by the kind of its token: '0' and '1' have one code.
fn leaf_code(kind: u8) -> u8
    ensures { result ≡ leaf_code kind }
{
    match kind {
        token::NAME => base_codes::item::NAME,
        token::NUMBER => base_codes::item::NUMBER,
        _ => base_codes::item::BIT,
    }
}

// An expression in parentheses, where neither a literal nor a name stands: no other primary is left.
#[cycle(expression)]
fn parenthesised(
    text: Tokens,
    q: Cursor,
    parens: usize,
    codes: &mut [u8; limit::TEXT],
    tokens: &mut [u16; limit::TEXT],
) -> Result<Cursor, Unread>
    requires { (parens ≤ 16) × Asks text.count (here q) × (one_of (kind_in text.kinds.now text.count q.at) operands ≡ false) }
    ensures { ReadsOver primary_part postfix text.entry.kinds.now text.entry.long.now text.entry.count (here q) parens (arrays codes.old tokens.old) (as_read result) (arrays codes.new tokens.new) }
{
    if text.kind_at(q.at) != token::LP {
        return Err(Unread::NoSentence(q.at));
    }
    if parens >= limit::PARENTHESES {
        return Err(Unread::LimitPassed(q.at));
    }
    let a = Cursor { at: q.at + 1, ..q };
    let b = chain(text, a, parens + 1, codes, tokens)?;
    text.expect(b, token::RP)
}

// A literal or a name.
fn leaf(
    text: Tokens,
    q: Cursor,
    codes: &mut [u8; limit::TEXT],
    tokens: &mut [u16; limit::TEXT],
) -> Result<Cursor, Unread>
    requires { Asks text.count (here q) × (one_of (kind_in text.kinds.now text.count q.at) operands ≡ true) }
    ensures { (parens : ℕ) → parens ≤ 16 → ReadsOver primary_part postfix text.entry.kinds.now text.entry.long.now text.entry.count (here q) parens (arrays codes.old tokens.old) (as_read result) (arrays codes.new tokens.new) }
{
    let at = q.at;
    let kind = text.kind_at(at);
    let a = text.item(q)?;
    Ok(put(codes, tokens, a, leaf_code(kind), at))
}

// A literal, a name or an expression in parentheses.
#[cycle(expression)]
fn primary(
    text: Tokens,
    q: Cursor,
    parens: usize,
    codes: &mut [u8; limit::TEXT],
    tokens: &mut [u16; limit::TEXT],
) -> Result<Cursor, Unread>
    requires { (parens ≤ 16) × Asks text.count (here q) }
    ensures { ReadsOver primary_part postfix text.entry.kinds.now text.entry.long.now text.entry.count (here q) parens (arrays codes.old tokens.old) (as_read result) (arrays codes.new tokens.new) }
{
    if token::is_operand(text.kind_at(q.at)) {
        return leaf(text, q, codes, tokens);
    }
    parenthesised(text, q, parens, codes, tokens)
}

// A primary, perhaps behind `not`. Most are leaves, which are read at once.
#[cycle(expression)]
fn factor(
    text: Tokens,
    q: Cursor,
    parens: usize,
    codes: &mut [u8; limit::TEXT],
    tokens: &mut [u16; limit::TEXT],
) -> Result<Cursor, Unread>
    requires { (parens ≤ 16) × Asks text.count (here q) }
    ensures { ReadsOver factor_part postfix text.entry.kinds.now text.entry.long.now text.entry.count (here q) parens (arrays codes.old tokens.old) (as_read result) (arrays codes.new tokens.new) }
{
    let at = q.at;
    let kind = text.kind_at(at);
    if token::is_operand(kind) {
        return leaf(text, q, codes, tokens);
    }
    if kind != token::NOT {
        return parenthesised(text, q, parens, codes, tokens);
    }
    let a = text.item(q)?;
    let b = primary(text, a, parens, codes, tokens)?;
    Ok(put(codes, tokens, b, operation::NOT, at))
}

// A further factor of a product: its operator, *, /, mod or rem, and a factor.
#[cycle(expression)]
fn multiplied(
    text: Tokens,
    q: Cursor,
    parens: usize,
    codes: &mut [u8; limit::TEXT],
    tokens: &mut [u16; limit::TEXT],
) -> Result<Cursor, Unread>
    requires { (parens ≤ 16) × Asks text.count (here q) × (one_of (kind_in text.kinds.now text.count q.at) multiplying ≡ true) }
    ensures { OneTurn product_tail text.entry.kinds.now text.entry.long.now text.entry.count (here q) parens (arrays codes.old tokens.old) (as_read result) (arrays codes.new tokens.new) }
{
    let at = q.at;
    let code = operation::operation_of(text.kind_at(at));
    let a = text.item(q)?;
    let b = factor(text, a, parens, codes, tokens)?;
    Ok(put(codes, tokens, b, code, at))
}

// A product: the first factor, and further factors.
#[cycle(expression)]
fn product(
    text: Tokens,
    q: Cursor,
    parens: usize,
    codes: &mut [u8; limit::TEXT],
    tokens: &mut [u16; limit::TEXT],
) -> Result<Cursor, Unread>
    requires { (parens ≤ 16) × Asks text.count (here q) }
    ensures { ReadsOver term_part postfix text.entry.kinds.now text.entry.long.now text.entry.count (here q) parens (arrays codes.old tokens.old) (as_read result) (arrays codes.new tokens.new) }
{
    let mut a = factor(text, q, parens, codes, tokens)?;
    while token::is_multiplying(text.kind_at(a.at)) {
        a = multiplied(text, a, parens, codes, tokens)?;
    }
    Ok(a)
}

// The first term of a sum, perhaps behind a sign, which covers the whole term.
#[cycle(expression)]
fn signed(
    text: Tokens,
    q: Cursor,
    parens: usize,
    codes: &mut [u8; limit::TEXT],
    tokens: &mut [u16; limit::TEXT],
) -> Result<Cursor, Unread>
    requires { (parens ≤ 16) × Asks text.count (here q) }
    ensures { PartlyOver sum text.entry.kinds.now text.entry.long.now text.entry.count (here q) parens (arrays codes.old tokens.old) (as_read result) (arrays codes.new tokens.new) }
{
    let at = q.at;
    if text.kind_at(at) != token::MINUS {
        return product(text, q, parens, codes, tokens);
    }
    let a = text.item(q)?;
    let whole = product(text, a, parens, codes, tokens)?;
    Ok(put(codes, tokens, whole, operation::SIGN, at))
}

// A further term of a sum: its operator, + or -, and a product.
#[cycle(expression)]
fn term(
    text: Tokens,
    q: Cursor,
    parens: usize,
    codes: &mut [u8; limit::TEXT],
    tokens: &mut [u16; limit::TEXT],
) -> Result<Cursor, Unread>
    requires { (parens ≤ 16) × Asks text.count (here q) × (one_of (kind_in text.kinds.now text.count q.at) adding ≡ true) }
    ensures { OneTurn sum text.entry.kinds.now text.entry.long.now text.entry.count (here q) parens (arrays codes.old tokens.old) (as_read result) (arrays codes.new tokens.new) }
{
    let at = q.at;
    let code = operation::operation_of(text.kind_at(at));
    let a = text.item(q)?;
    let b = product(text, a, parens, codes, tokens)?;
    Ok(put(codes, tokens, b, code, at))
}

// A sum: the first term, and further terms.
#[cycle(expression)]
fn simple(
    text: Tokens,
    q: Cursor,
    parens: usize,
    codes: &mut [u8; limit::TEXT],
    tokens: &mut [u16; limit::TEXT],
) -> Result<Cursor, Unread>
    requires { (parens ≤ 16) × Asks text.count (here q) }
    ensures { ReadsOver simple_part postfix text.entry.kinds.now text.entry.long.now text.entry.count (here q) parens (arrays codes.old tokens.old) (as_read result) (arrays codes.new tokens.new) }
{
    let mut a = signed(text, q, parens, codes, tokens)?;
    while token::is_adding(text.kind_at(a.at)) {
        a = term(text, a, parens, codes, tokens)?;
    }
    Ok(a)
}

// A sum, or a comparison of two.
#[cycle(expression)]
fn relation(
    text: Tokens,
    q: Cursor,
    parens: usize,
    codes: &mut [u8; limit::TEXT],
    tokens: &mut [u16; limit::TEXT],
) -> Result<Cursor, Unread>
    requires { (parens ≤ 16) × Asks text.count (here q) }
    ensures { ReadsOver relation_part postfix text.entry.kinds.now text.entry.long.now text.entry.count (here q) parens (arrays codes.old tokens.old) (as_read result) (arrays codes.new tokens.new) }
{
    let a = simple(text, q, parens, codes, tokens)?;
    let at = a.at;
    let kind = text.kind_at(at);
    if token::is_relational(kind) {
        let code = operation::operation_of(kind);
        let b = text.item(a)?;
        let c = simple(text, b, parens, codes, tokens)?;
        return Ok(put(codes, tokens, c, code, at));
    }
    Ok(a)
}

// A further relation of a chain: its operator, and, or or xor, and a relation.
#[cycle(expression)]
fn joined(
    text: Tokens,
    q: Cursor,
    parens: usize,
    codes: &mut [u8; limit::TEXT],
    tokens: &mut [u16; limit::TEXT],
) -> Result<Cursor, Unread>
    requires { (parens ≤ 16) × Asks text.count (here q) × (one_of (kind_in text.kinds.now text.count q.at) logical ≡ true) }
    ensures { (t : Tail) → operator_of t (kind_in text.entry.kinds.now text.entry.count q.at) → OneTurn t text.entry.kinds.now text.entry.long.now text.entry.count (here q) parens (arrays codes.old tokens.old) (as_read result) (arrays codes.new tokens.new) }
{
    let at = q.at;
    let code = operation::operation_of(text.kind_at(at));
    let a = text.item(q)?;
    let b = relation(text, a, parens, codes, tokens)?;
    Ok(put(codes, tokens, b, code, at))
}

// A relation, or a chain of them joined by `and` alone, `or` alone or `xor` alone.
#[cycle(expression)]
fn chain(
    text: Tokens,
    q: Cursor,
    parens: usize,
    codes: &mut [u8; limit::TEXT],
    tokens: &mut [u16; limit::TEXT],
) -> Result<Cursor, Unread>
    requires { (parens ≤ 16) × Asks text.count (here q) }
    ensures { ReadsOver expression_part postfix text.entry.kinds.now text.entry.long.now text.entry.count (here q) parens (arrays codes.old tokens.old) (as_read result) (arrays codes.new tokens.new) }
{
    let mut a = relation(text, q, parens, codes, tokens)?;
    let first = a.at;
    let kind = text.kind_at(first);
    if !token::is_logical(kind) {
        return Ok(a);
    }
    while text.follows(a, kind) {
        a = joined(text, a, parens, codes, tokens)?;
    }
    Ok(a)
}

// An expression: a chain, where the reader has not refused.
pub fn expression<Q: Reached>(
    text: Tokens,
    q: Q,
    parens: usize,
    codes: &mut [u8; limit::TEXT],
    tokens: &mut [u16; limit::TEXT],
) -> Result<Cursor, Unread>
    requires { (parens ≤ 16) × Asks text.count (Q.read q) }
    ensures { ReadsOver expression_part postfix text.entry.kinds.now text.entry.long.now text.entry.count (Q.read q) parens (arrays codes.old tokens.old) (as_read result) (arrays codes.new tokens.new) }
{
    let q = q.reached()?;
    chain(text, q, parens, codes, tokens)
}
