#![tactic(auto)]
// The reader of a whole text: tokens to rows and items in lent arrays, or the refusal with its token.
ghost use Rattle.std.specs.Prelude.{◌≡◌, true, ◌≤◌};
ghost use Rattle.front_cursor.specs.Reading.{Asks, here, as_read};
ghost use Rattle.front_layout.specs.Items.{arrays};
ghost use Rattle.front_layout.specs.Rows.{output};
ghost use Rattle.front_declarations.specs.Headers.{header_here, AsksHeader};
ghost use Rattle.front_parser.specs.Runs.{expect_all, positive};
ghost use Rattle.front_parser.specs.Units.{entity_here, architecture_here, process_here, as_entity, as_architecture, as_process};
ghost use Rattle.front_parser.specs.Parts.{EntityOver, ArchitectureOver, ProcessOver};
ghost use Rattle.front_parser.specs.Answers.{lent, numbers_of, ParsesOver};

use base_codes::{declaration, limit, statement, token};
use front_cursor::{Cursor, Tokens, Unread};
use front_declarations::{Header, declared_by, ports, variables};
use front_statements::{Listing, body};

// What is known of a text that was read: the numbers of statements, items and declared names, and the indices of the tokens that the tree has beside them.
#[derive(Clone, Copy)]
pub struct Parsed {
    pub statements: usize,
    pub items: usize,
    pub names: usize,
    pub entity: usize,
    pub entity_end: usize,
    pub arch: usize,
    pub arch_of: usize,
    pub process: usize,
    pub arch_end: usize,
}

// The entity was read: where it ends, and the indices of its name and of the name behind its `end`.
#[derive(Clone, Copy)]
pub struct EntityUnit {
    pub header: Header,
    pub name: usize,
    pub end: usize,
}

// The architecture was read up to its statements: where that is, and the indices of its name, of the name behind `of` and of the word `process`.
#[derive(Clone, Copy)]
pub struct ArchitectureUnit {
    pub header: Header,
    pub name: usize,
    pub of: usize,
    pub process: usize,
}

// The statements and the end of the text were read: where that is, and the index of the name behind the architecture's `end`.
#[derive(Clone, Copy)]
pub struct ProcessUnit {
    pub listing: Listing,
    pub end: usize,
}

// Takes tokens of these kinds, one after another.
fn expect_all(text: Tokens, q: Cursor, words: &[u8]) -> Result<Cursor, Unread>
    requires { (positive words.now ≡ true) × Asks text.count (here q) }
    ensures { as_read result ≡ expect_all text.entry.kinds.now text.entry.long.now text.entry.count words.now (here q) }
{
    let mut a = q;
    for word in words {
        a = text.expect(a, *word)?;
    }
    Ok(a)
}

// `entity E is port ( GROUPS ) ; end E ;`
fn entity(text: Tokens, decls: &mut [u16; declaration::ROWS]) -> Result<EntityUnit, Unread>
    requires { text.count ≤ 16384 }
    ensures { EntityOver text.entry.kinds.now text.entry.long.now text.entry.count decls.old (as_entity result) decls.new }
{
    let start = Cursor {
        at: 0,
        items: 0,
        written: 0,
    };
    let a = text.expect(start, token::ENTITY)?;
    let words = [token::NAME, token::IS, token::PORT, token::LP];
    let cursor = expect_all(text, a, &words)?;
    let heading = Header {
        cursor,
        waiting: 0,
        inputs: 0,
        outputs: 0,
        vars: 0,
    };
    let d = ports(text, heading, decls)?;
    let words = [token::RP, token::SEMI, token::END];
    let e = expect_all(text, d.cursor, &words)?;
    let f = expect_all(text, e, &[token::NAME, token::SEMI])?;
    Ok(EntityUnit {
        header: Header { cursor: f, ..d },
        name: a.at,
        end: e.at,
    })
}

// `architecture A of E is begin process`, the variables and `begin`.
fn architecture(
    text: Tokens,
    p: Header,
    decls: &mut [u16; declaration::ROWS],
) -> Result<ArchitectureUnit, Unread>
    requires { AsksHeader text.count (header_here p) }
    ensures { ArchitectureOver text.entry.kinds.now text.entry.long.now text.entry.count (header_here p) decls.old (as_architecture result) decls.new }
{
    let a = text.expect(p.cursor, token::ARCHITECTURE)?;
    let b = expect_all(text, a, &[token::NAME, token::OF])?;
    let words = [token::NAME, token::IS, token::BEGIN];
    let c = expect_all(text, b, &words)?;
    let d = text.expect(c, token::PROCESS)?;
    let e = variables(text, Header { cursor: d, ..p }, decls)?;
    let f = text.expect(e.cursor, token::BEGIN)?;
    Ok(ArchitectureUnit {
        header: Header { cursor: f, ..e },
        name: a.at,
        of: b.at,
        process: c.at,
    })
}

// The statements of the process, and `end process ; end A ;`.
fn process(
    text: Tokens,
    p: Header,
    codes: &mut [u8; limit::TEXT],
    tokens: &mut [u16; limit::TEXT],
    rows: &mut [u16; statement::ROWS],
) -> Result<ProcessUnit, Unread>
    requires { AsksHeader text.count (header_here p) × (p.cursor.written ≡ 0) }
    ensures { ProcessOver text.entry.kinds.now text.entry.long.now text.entry.count (header_here p) (output (arrays codes.old tokens.old) rows.old) (as_process result) (output (arrays codes.new tokens.new) rows.new) }
{
    let first = Listing {
        cursor: p.cursor,
        statements: 0,
    };
    let a = body(text, first, 1, codes, tokens, rows)?;
    let words = [token::END, token::PROCESS, token::SEMI, token::END];
    let b = expect_all(text, a.cursor, &words)?;
    let c = expect_all(text, b, &[token::NAME, token::SEMI])?;
    Ok(ProcessUnit {
        listing: Listing { cursor: c, ..a },
        end: b.at,
    })
}

// The numbers of a text that was read, each from the reader that came past it.
fn numbers(p: EntityUnit, q: ArchitectureUnit, r: ProcessUnit) -> Parsed
    requires { (q.header.inputs ≤ 17) × (q.header.outputs ≤ 16) × (q.header.vars ≤ 32) }
    ensures { result ≡ numbers_of (entity_here p) (architecture_here q) (process_here r) }
{
    Parsed {
        statements: r.listing.statements,
        items: r.listing.cursor.written,
        names: declared_by(q.header),
        entity: p.name,
        entity_end: p.end,
        arch: q.name,
        arch_of: q.of,
        process: q.process,
        arch_end: r.end,
    }
}

// The three parts of a text, one after another, with nothing behind them; the first refusal met is the text's.
fn read(
    text: Tokens,
    codes: &mut [u8; limit::TEXT],
    tokens: &mut [u16; limit::TEXT],
    rows: &mut [u16; statement::ROWS],
    decls: &mut [u16; declaration::ROWS],
) -> Result<Parsed, Unread>
    requires { text.count ≤ 16384 }
    ensures { ParsesOver text.entry.kinds.now text.entry.long.now text.entry.count (lent (output (arrays codes.old tokens.old) rows.old) decls.old) (lent (output (arrays codes.new tokens.new) rows.new) decls.new) result }
{
    let p = entity(text, decls)?;
    let q = architecture(text, p.header, decls)?;
    let r = process(text, q.header, codes, tokens, rows)?;
    let n = text.count;
    let last = r.listing.cursor;
    if last.at < n {
        return Err(Unread::NoSentence(last.at));
    }
    Ok(numbers(p, q, r))
}

// Reads a text of n tokens: kinds has their kinds, long a 1 where a name or a number passes its limit.
// Items go to codes and tokens, statements to rows, declared names to decls. No text has more than 16384 tokens.
// A refusal's token is the first that cannot continue, the number of tokens being the text's end.
pub fn parse(
    kinds: &[u8; limit::TEXT],
    long: &[u8; limit::TEXT],
    n: usize,
    codes: &mut [u8; limit::TEXT],
    tokens: &mut [u16; limit::TEXT],
    rows: &mut [u16; statement::ROWS],
    decls: &mut [u16; declaration::ROWS],
) -> Result<Parsed, Unread>
    ensures { ParsesOver kinds.now long.now n (lent (output (arrays codes.old tokens.old) rows.old) decls.old) (lent (output (arrays codes.new tokens.new) rows.new) decls.new) result }
{
    if n > limit::TEXT {
        return Err(Unread::NoSentence(0));
    }
    let text = Tokens {
        kinds,
        long,
        count: n,
    };
    read(text, codes, tokens, rows, decls)
}
