#![tactic(auto)]
// The readers of statements: tokens to rows in a lent array, one for each statement in text order, and items of their expressions.
// A statement list is a loop; statements in statements are a cycle of calls, the tokens left falling.
ghost use Rattle.std.specs.Prelude.{◌≡◌, ◌+◌, ◌<◌, ◌≤◌};
ghost use Rattle.base_codes.specs.Token.{END, IF, NAME, NULL, SEMI, WAIT, WHILE};
ghost use Rattle.spec_grammar.specs.Grammar.{body as body_part};
ghost use Rattle.front_layout.specs.Tokens.{kind_in, flag_in};
ghost use Rattle.front_cursor.specs.Reading.{Asks, here, as_read, expect_one};
ghost use Rattle.front_layout.specs.Items.{Arrays, arrays};
ghost use Rattle.front_layout.specs.Entries.{body_entries};
ghost use Rattle.front_layout.specs.Rows.{row, set_row, output};
ghost use Rattle.front_statements.specs.Listings.{ListingRead, listing_here, listing_read, as_listing, listing_after, as_head, begin_at, fresh_at, is_assigning, row_kind, is_start, Small, AsksListing};
ghost use Rattle.front_statements.specs.Readers.{first_of, OpeningOver, ReadsLinesOver, StatementOver, ElseOver};

use base_codes::{limit, statement, token};
use front_cursor::{Cursor, Tokens, Unread};
use front_expressions::expression;

// Where a reader of statements stands: a cursor, and the statements so far.
#[derive(Clone, Copy)]
pub struct Listing {
    pub cursor: Cursor,
    pub statements: usize,
}

// Where a reader of statements is called: where one stands, or with what the reader before it answered. What has refused is handed back.
pub trait ReachedListing {
    ghost read: { Self → ListingRead };

    fn reached(self) -> Result<Listing, Unread>
        ensures { listing_read result ≡ read self };
}

impl ReachedListing for Listing {
    ghost read = { listing_here };

    fn reached(self) -> Result<Listing, Unread> {
        Ok(self)
    }
}

impl ReachedListing for Result<Listing, Unread> {
    ghost read = { listing_read };

    fn reached(self) -> Self {
        self
    }
}

// The head of a nested statement, read: where the reader stands behind it, and where the items of its condition end.
#[derive(Clone, Copy)]
pub struct Head {
    pub listing: Listing,
    pub to: usize,
}

// `end if ;` or `end loop ;`
fn end_of(text: Tokens, q: Cursor, word: u8) -> Result<Cursor, Unread>
    requires { (0 < word) × Asks text.count (here q) }
    ensures { as_read result ≡ expect_one text.entry.kinds.now text.entry.long.now text.entry.count SEMI (expect_one text.entry.kinds.now text.entry.long.now text.entry.count word (expect_one text.entry.kinds.now text.entry.long.now text.entry.count END (here q))) }
{
    let f = text.expect(q, token::END)?;
    let g = text.expect(f, word)?;
    text.expect(g, token::SEMI)
}

// Takes the first token of a statement, or refuses it by a limit; items is what the count of items is then.
fn begin(text: Tokens, p: Listing, depth: usize, items: usize) -> Result<Listing, Unread>
    requires { (p.cursor.at < 16384) × (p.statements ≤ 512) }
    ensures { as_listing p.statements result ≡ begin_at (flag_in text.entry.long.now p.cursor.at) depth items (listing_here p) }
{
    let q = p.cursor;
    if text.long[q.at] == 1 || p.statements >= limit::STATEMENTS || depth > limit::DEPTH {
        return Err(Unread::LimitPassed(q.at));
    }
    Ok(Listing {
        cursor: Cursor {
            at: q.at + 1,
            items,
            ..q
        },
        statements: p.statements + 1,
    })
}

// Stores the row of statement number s.
fn finish(
    rows: &mut [u16; statement::ROWS],
    s: usize,
    kind: u16,
    index: usize,
    from: usize,
    to: usize,
    other: usize,
    end: usize,
)
    requires { (s < 512) × Small index from to other end }
    ensures { rows.new ≡ set_row s (row kind index from to other end) rows.old }
{
    rows[statement::ROW * s] = kind;
    rows[statement::ROW * s + statement::TOKEN] = index as u16;
    rows[statement::ROW * s + statement::FROM] = from as u16;
    rows[statement::ROW * s + statement::TO] = to as u16;
    rows[statement::ROW * s + statement::OTHER] = other as u16;
    rows[statement::ROW * s + statement::END] = end as u16;
}

// `null ;`
fn null_statement(
    text: Tokens,
    p: Listing,
    depth: usize,
    rows: &mut [u16; statement::ROWS],
) -> Result<Listing, Unread>
    requires { AsksListing text.count (listing_here p) × (kind_in text.kinds.now text.count p.cursor.at ≡ NULL) }
    ensures { (a : Arrays) → StatementOver text.entry.kinds.now text.entry.long.now text.entry.count (listing_here p) depth (output a rows.old) (as_listing p.statements result) (output a rows.new) }
{
    let q = p.cursor;
    let s = p.statements;
    let a = begin(text, p, depth, q.items)?;
    let b = text.expect(a.cursor, token::SEMI)?;
    finish(
        rows,
        s,
        statement::NULL,
        token::NOWHERE,
        q.written,
        q.written,
        s + 1,
        s + 1,
    );
    Ok(Listing { cursor: b, ..a })
}

// `wait until clk = '1' ;`
fn wait_statement(
    text: Tokens,
    p: Listing,
    depth: usize,
    rows: &mut [u16; statement::ROWS],
) -> Result<Listing, Unread>
    requires { AsksListing text.count (listing_here p) × (kind_in text.kinds.now text.count p.cursor.at ≡ WAIT) }
    ensures { (a : Arrays) → StatementOver text.entry.kinds.now text.entry.long.now text.entry.count (listing_here p) depth (output a rows.old) (as_listing p.statements result) (output a rows.new) }
{
    let q = p.cursor;
    let s = p.statements;
    let a = begin(text, p, depth, q.items)?;
    let b = text.expect(a.cursor, token::UNTIL)?;
    let c = text.expect(b, token::NAME)?;
    let d = text.expect(c, token::EQ)?;
    let e = text.expect(d, token::ONE)?;
    let f = text.expect(e, token::SEMI)?;
    finish(
        rows,
        s,
        statement::WAIT,
        b.at,
        q.written,
        q.written,
        s + 1,
        s + 1,
    );
    Ok(Listing { cursor: f, ..a })
}

// `o <= e ;` or `v := e ;`
fn assignment(
    text: Tokens,
    p: Listing,
    depth: usize,
    codes: &mut [u8; limit::TEXT],
    tokens: &mut [u16; limit::TEXT],
    rows: &mut [u16; statement::ROWS],
) -> Result<Listing, Unread>
    requires { AsksListing text.count (listing_here p) × (kind_in text.kinds.now text.count p.cursor.at ≡ NAME) }
    ensures { StatementOver text.entry.kinds.now text.entry.long.now text.entry.count (listing_here p) depth (output (arrays codes.old tokens.old) rows.old) (as_listing p.statements result) (output (arrays codes.new tokens.new) rows.new) }
{
    let q = p.cursor;
    let s = p.statements;
    let a = begin(text, p, depth, q.items)?;
    let kind = text.kind_at(a.cursor.at);
    let b = fresh(a.cursor, kind)?;
    let e = expression(text, b, 0, codes, tokens)?;
    let c = text.expect(e, token::SEMI)?;
    finish(
        rows,
        s,
        row_kind(kind),
        q.at,
        q.written,
        e.written,
        s + 1,
        s + 1,
    );
    Ok(Listing { cursor: c, ..a })
}

// The row's kind of an assignment: 1 for <=, 2 for :=.
fn row_kind(kind: u8) -> u16
    ensures { result ≡ row_kind kind }
{
    match kind {
        token::LE => statement::OUTPUT,
        _ => statement::VARIABLE,
    }
}

// Takes <= or :=, behind which an expression begins.
fn fresh(q: Cursor, kind: u8) -> Result<Cursor, Unread>
    requires { q.at < 65536 }
    ensures { as_read result ≡ fresh_at (is_assigning kind) (here q) }
{
    match kind {
        token::LE | token::BECOMES => Ok(Cursor {
            at: q.at + 1,
            items: 0,
            ..q
        }),
        _ => Err(Unread::NoSentence(q.at)),
    }
}

// `if e then` or `while e loop`, where word is the last: one statement more, and its condition.
fn opening(
    text: Tokens,
    p: Listing,
    depth: usize,
    word: u8,
    codes: &mut [u8; limit::TEXT],
    tokens: &mut [u16; limit::TEXT],
) -> Result<Head, Unread>
    requires { AsksListing text.count (listing_here p) × (p.cursor.at < text.count) × (0 < word) × (kind_in text.kinds.now text.count p.cursor.at ≡ first_of word) }
    ensures { OpeningOver text.entry.kinds.now text.entry.long.now text.entry.count (listing_here p) depth word (arrays codes.old tokens.old) (as_head p.statements result) (arrays codes.new tokens.new) }
{
    let a = begin(text, p, depth, 0)?;
    let e = expression(text, a.cursor, 0, codes, tokens)?;
    let t = text.expect(e, word)?;
    Ok(Head {
        listing: Listing { cursor: t, ..a },
        to: e.written,
    })
}

// `if e then S else S end if ;`, the else part being optional.
#[cycle(statement)]
fn if_statement(
    text: Tokens,
    p: Listing,
    depth: usize,
    codes: &mut [u8; limit::TEXT],
    tokens: &mut [u16; limit::TEXT],
    rows: &mut [u16; statement::ROWS],
) -> Result<Listing, Unread>
    requires { (depth ≤ 17) × AsksListing text.count (listing_here p) × (kind_in text.kinds.now text.count p.cursor.at ≡ IF) }
    ensures { StatementOver text.entry.kinds.now text.entry.long.now text.entry.count (listing_here p) depth (output (arrays codes.old tokens.old) rows.old) (as_listing p.statements result) (output (arrays codes.new tokens.new) rows.new) }
{
    let o = opening(text, p, depth, token::THEN, codes, tokens)?;
    let c = statement_list(text, o.listing, depth + 1, codes, tokens, rows)?;
    let d = else_part(text, c, depth + 1, codes, tokens, rows)?;
    let i = end_of(text, d.cursor, token::IF)?;
    finish(
        rows,
        p.statements,
        statement::IF,
        p.cursor.at,
        p.cursor.written,
        o.to,
        c.statements,
        d.statements,
    );
    Ok(Listing { cursor: i, ..d })
}

// `while e loop S end loop ;`
#[cycle(statement)]
fn while_statement(
    text: Tokens,
    p: Listing,
    depth: usize,
    codes: &mut [u8; limit::TEXT],
    tokens: &mut [u16; limit::TEXT],
    rows: &mut [u16; statement::ROWS],
) -> Result<Listing, Unread>
    requires { (depth ≤ 17) × AsksListing text.count (listing_here p) × (kind_in text.kinds.now text.count p.cursor.at ≡ WHILE) }
    ensures { StatementOver text.entry.kinds.now text.entry.long.now text.entry.count (listing_here p) depth (output (arrays codes.old tokens.old) rows.old) (as_listing p.statements result) (output (arrays codes.new tokens.new) rows.new) }
{
    let o = opening(text, p, depth, token::LOOP, codes, tokens)?;
    let c = statement_list(text, o.listing, depth + 1, codes, tokens, rows)?;
    let i = end_of(text, c.cursor, token::LOOP)?;
    finish(
        rows,
        p.statements,
        statement::WHILE,
        p.cursor.at,
        p.cursor.written,
        o.to,
        c.statements,
        c.statements,
    );
    Ok(Listing { cursor: i, ..c })
}

// `else S`, or nothing.
#[cycle(statement)]
fn else_part(
    text: Tokens,
    p: Listing,
    depth: usize,
    codes: &mut [u8; limit::TEXT],
    tokens: &mut [u16; limit::TEXT],
    rows: &mut [u16; statement::ROWS],
) -> Result<Listing, Unread>
    requires { (depth ≤ 17) × AsksListing text.count (listing_here p) }
    ensures { ElseOver text.entry.kinds.now text.entry.long.now text.entry.count (listing_here p) depth (output (arrays codes.old tokens.old) rows.old) (as_listing p.statements result) (output (arrays codes.new tokens.new) rows.new) }
{
    let q = p.cursor;
    if text.kind_at(q.at) != token::ELSE {
        return Ok(p);
    }
    let e = text.expect(q, token::ELSE)?;
    let a = Listing { cursor: e, ..p };
    statement_list(text, a, depth, codes, tokens, rows)
}

// A statement, by the kind of its first token.
#[cycle(statement)]
fn statement(
    text: Tokens,
    p: Listing,
    depth: usize,
    codes: &mut [u8; limit::TEXT],
    tokens: &mut [u16; limit::TEXT],
    rows: &mut [u16; statement::ROWS],
) -> Result<Listing, Unread>
    requires { (depth ≤ 17) × AsksListing text.count (listing_here p) }
    ensures { StatementOver text.entry.kinds.now text.entry.long.now text.entry.count (listing_here p) depth (output (arrays codes.old tokens.old) rows.old) (as_listing p.statements result) (output (arrays codes.new tokens.new) rows.new) }
{
    let at = p.cursor.at;
    match text.kind_at(at) {
        token::NAME => assignment(text, p, depth, codes, tokens, rows),
        token::NULL => null_statement(text, p, depth, rows),
        token::WAIT => wait_statement(text, p, depth, rows),
        token::IF => if_statement(text, p, depth, codes, tokens, rows),
        token::WHILE => while_statement(text, p, depth, codes, tokens, rows),
        _ => Err(Unread::NoSentence(at)),
    }
}

// A list of statements, at least one.
#[cycle(statement)]
fn statement_list(
    text: Tokens,
    p: Listing,
    depth: usize,
    codes: &mut [u8; limit::TEXT],
    tokens: &mut [u16; limit::TEXT],
    rows: &mut [u16; statement::ROWS],
) -> Result<Listing, Unread>
    requires { (depth ≤ 17) × AsksListing text.count (listing_here p) }
    ensures { ReadsLinesOver body_part body_entries text.entry.kinds.now text.entry.long.now text.entry.count (listing_here p) depth (output (arrays codes.old tokens.old) rows.old) (as_listing p.statements result) (output (arrays codes.new tokens.new) rows.new) }
{
    let mut a = statement(text, p, depth, codes, tokens, rows)?;
    while begins_statement(text.kind_at(a.cursor.at)) {
        a = statement(text, a, depth, codes, tokens, rows)?;
    }
    Ok(a)
}

// A list of statements, where the reader has not refused.
pub fn body<P: ReachedListing>(
    text: Tokens,
    p: P,
    depth: usize,
    codes: &mut [u8; limit::TEXT],
    tokens: &mut [u16; limit::TEXT],
    rows: &mut [u16; statement::ROWS],
) -> Result<Listing, Unread>
    requires { (depth ≤ 17) × AsksListing text.count (P.read p) }
    ensures { ReadsLinesOver body_part body_entries text.entry.kinds.now text.entry.long.now text.entry.count (P.read p) depth (output (arrays codes.old tokens.old) rows.old) (listing_after (P.read p) result) (output (arrays codes.new tokens.new) rows.new) }
{
    let p = p.reached()?;
    statement_list(text, p, depth, codes, tokens, rows)
}

// Whether a statement begins with a token of this kind.
fn begins_statement(kind: u8) -> bool
    ensures { result ≡ is_start kind }
{
    matches!(
        kind,
        token::NAME | token::NULL | token::WAIT | token::IF | token::WHILE
    )
}
