#![tactic(auto)]
// The readers of the heading: groups of ports and of variables, to rows in a lent array, one for each declared name in text order.
// The counts go by the mode word and the limits of document 01.
ghost use Rattle.std.specs.Prelude.{◌≡◌, ◌+◌, ◌-◌, ◌<◌, ◌≤◌};
ghost use Rattle.base_codes.specs.Token.{COMMA, VARIABLE};
ghost use Rattle.spec_grammar.specs.Grammar.{port as port_part, ports as ports_part};
ghost use Rattle.front_layout.specs.Tokens.{kind_in};
ghost use Rattle.front_cursor.specs.Reading.{Asks, here, as_read};
ghost use Rattle.front_layout.specs.Headings.{set_decl, store_decls, group_headings, groups_names};
ghost use Rattle.front_declarations.specs.Headers.{HeaderRead, header_here, header_read, as_header, header_after, declare_at, take_at, take_name, inputs_at, outputs_at, mode_at, type_kind, literal_kind, value_at, init_at, tail_at, AsksHeader};
ghost use Rattle.front_declarations.specs.Rows.{row_of, rows_of, declared_by, mode_of, type_of, init_of, value_from, shape_at, store_group};
ghost use Rattle.front_declarations.specs.Readers.{NamesOver, AsksGroup, PortsOver, VariableOver, VariablesOver};

use base_codes::{declaration, limit, token};
use front_cursor::{Cursor, Tokens, Unread};

// "names with commas": every second token is a name.
const NEXT_NAME: usize = 2;

// Where a reader of the heading stands: a cursor; names whose mode is still to come; inputs, outputs and variables so far.
#[derive(Clone, Copy)]
pub struct Header {
    pub cursor: Cursor,
    pub waiting: usize,
    pub inputs: usize,
    pub outputs: usize,
    pub vars: usize,
}

// Where a reader of the heading is called: where one stands, or with what the reader before it answered. What has refused is handed back.
pub trait ReachedHeader {
    ghost read: { Self → HeaderRead };

    fn reached(self) -> Result<Header, Unread>
        ensures { header_read result ≡ read self };
}

impl ReachedHeader for Header {
    ghost read = { header_here };

    fn reached(self) -> Result<Header, Unread> {
        Ok(self)
    }
}

impl ReachedHeader for Result<Header, Unread> {
    ghost read = { header_read };

    fn reached(self) -> Self {
        self
    }
}

// What the names of a group have in common: mode, type, kind of initial value, index of the value's first token, index of the group's first name.
#[derive(Clone, Copy)]
pub struct Shape {
    pub mode: u16,
    pub kind: u16,
    pub init: u16,
    pub value: u16,
    pub first: u16,
}

// One name more.
fn declared(p: Header, variables: bool) -> Result<Header, Unread>
    requires { (p.cursor.at < 16384) × (p.waiting ≤ p.cursor.at) × (p.vars ≤ 32) }
    ensures { as_header p result ≡ declare_at variables (header_here p) }
{
    let q = p.cursor;
    let cursor = Cursor { at: q.at + 1, ..q };
    if !variables {
        return Ok(Header {
            cursor,
            waiting: p.waiting + 1,
            ..p
        });
    }
    if p.vars >= limit::VARIABLES {
        return Err(Unread::LimitPassed(q.at));
    }
    Ok(Header {
        cursor,
        vars: p.vars + 1,
        ..p
    })
}

// Takes a name that is declared, or refuses it.
fn name(text: Tokens, p: Header, variables: bool) -> Result<Header, Unread>
    requires { AsksHeader text.count (header_here p) }
    ensures { as_header p result ≡ take_name text.entry.kinds.now text.entry.long.now text.entry.count variables (header_here p) }
{
    let at = p.cursor.at;
    if text.kind_at(at) != token::NAME {
        return Err(Unread::NoSentence(at));
    }
    if text.long[at] == 1 {
        return Err(Unread::LimitPassed(at));
    }
    declared(p, variables)
}

// A comma, and a name that is declared.
fn next_name(text: Tokens, p: Header, variables: bool) -> Result<Header, Unread>
    requires { AsksHeader text.count (header_here p) }
    ensures { as_header p result ≡ take_name text.entry.kinds.now text.entry.long.now text.entry.count variables (take_at text.entry.kinds.now text.entry.long.now text.entry.count COMMA (header_here p)) }
{
    let cursor = text.expect(p.cursor, token::COMMA)?;
    name(text, Header { cursor, ..p }, variables)
}

// Names with commas, where the reader has not refused.
pub fn names<P: ReachedHeader>(text: Tokens, p: P, variables: bool) -> Result<Header, Unread>
    requires { AsksHeader text.count (P.read p) }
    ensures { NamesOver text.entry.kinds.now text.entry.long.now text.entry.count (P.read p) variables (header_after (P.read p) result) }
{
    let p = p.reached()?;
    name_list(text, p, variables)
}

// A name, and further names with commas.
fn name_list(text: Tokens, p: Header, variables: bool) -> Result<Header, Unread>
    requires { AsksHeader text.count (header_here p) }
    ensures { NamesOver text.entry.kinds.now text.entry.long.now text.entry.count (header_here p) variables (as_header p result) }
{
    let mut a = name(text, p, variables)?;
    while text.follows(a.cursor, token::COMMA) {
        a = next_name(text, a, variables)?;
    }
    Ok(a)
}

// `in`: the names that waited for their mode are inputs.
fn inputs(p: Header) -> Result<Header, Unread>
    requires { (p.cursor.at < 16384) × (p.waiting ≤ p.cursor.at) × (p.inputs ≤ 17) }
    ensures { as_header p result ≡ inputs_at (header_here p) }
{
    let q = p.cursor;
    if p.inputs + p.waiting > limit::IN_PORTS {
        return Err(Unread::LimitPassed(q.at));
    }
    Ok(Header {
        cursor: Cursor { at: q.at + 1, ..q },
        waiting: 0,
        inputs: p.inputs + p.waiting,
        ..p
    })
}

// `out`: they are outputs.
fn outputs(p: Header) -> Result<Header, Unread>
    requires { (p.cursor.at < 16384) × (p.waiting ≤ p.cursor.at) × (p.outputs ≤ 16) }
    ensures { as_header p result ≡ outputs_at (header_here p) }
{
    let q = p.cursor;
    if p.outputs + p.waiting > limit::OUTPUTS {
        return Err(Unread::LimitPassed(q.at));
    }
    Ok(Header {
        cursor: Cursor { at: q.at + 1, ..q },
        waiting: 0,
        outputs: p.outputs + p.waiting,
        ..p
    })
}

// The mode of the names that wait for it.
fn mode(text: Tokens, p: Header) -> Result<Header, Unread>
    requires { AsksHeader text.count (header_here p) }
    ensures { as_header p result ≡ mode_at (kind_in text.entry.kinds.now text.entry.count p.cursor.at) (header_here p) }
{
    match text.kind_at(p.cursor.at) {
        token::IN => inputs(p),
        token::OUT => outputs(p),
        _ => Err(Unread::NoSentence(p.cursor.at)),
    }
}

// The kind that a type word must have, where a token of this kind stands.
fn type_kind(kind: u8) -> u8
    ensures { result ≡ type_kind kind }
{
    match kind {
        token::STD_LOGIC => token::STD_LOGIC,
        _ => token::INTEGER,
    }
}

// The kind that a literal must have, where a token of this kind stands.
fn literal_kind(kind: u8) -> u8
    ensures { result ≡ literal_kind kind }
{
    match kind {
        token::ZERO => token::ZERO,
        token::ONE => token::ONE,
        _ => token::NUMBER,
    }
}

// An initial value.
fn value(text: Tokens, q: Cursor) -> Result<Cursor, Unread>
    requires { Asks text.count (here q) }
    ensures { as_read result ≡ value_at text.entry.kinds.now text.entry.long.now text.entry.count (here q) }
{
    let kind = text.kind_at(q.at);
    if kind == token::MINUS {
        let a = text.expect(q, token::MINUS)?;
        return text.expect(a, token::NUMBER);
    }
    text.expect(q, literal_kind(kind))
}

// `:=` and an initial value, or nothing.
fn init(text: Tokens, q: Cursor) -> Result<Cursor, Unread>
    requires { Asks text.count (here q) }
    ensures { as_read result ≡ init_at text.entry.kinds.now text.entry.long.now text.entry.count (here q) }
{
    if !text.follows(q, token::BECOMES) {
        return Ok(q);
    }
    let a = text.expect(q, token::BECOMES)?;
    value(text, a)
}

// A type, and perhaps an initial value.
fn tail(text: Tokens, q: Cursor) -> Result<Cursor, Unread>
    requires { Asks text.count (here q) }
    ensures { as_read result ≡ tail_at text.entry.kinds.now text.entry.long.now text.entry.count (here q) }
{
    let kind = type_kind(text.kind_at(q.at));
    let a = text.expect(q, kind)?;
    init(text, a)
}

// The number of names declared so far.
pub fn declared_by(p: Header) -> usize
    requires { (p.inputs ≤ 17) × (p.outputs ≤ 16) × (p.vars ≤ 32) }
    ensures { result ≡ declared_by (header_here p) }
{
    p.inputs + p.outputs + p.vars
}

// The mode by the kind of the mode word: 0 for in, 1 for out.
fn mode_of(kind: u8) -> u16
    ensures { result ≡ mode_of kind }
{
    match kind {
        token::IN => declaration::IN,
        _ => declaration::OUT,
    }
}

// The type by the kind of the type word: 0 for std_logic, 1 for integer.
fn type_of(kind: u8) -> u16
    ensures { result ≡ type_of kind }
{
    match kind {
        token::INTEGER => declaration::INTEGER,
        _ => declaration::STD_LOGIC,
    }
}

// The kind of initial value, by the kinds of the two tokens behind the type word.
fn init_of(after: u8, kind: u8) -> u16
    ensures { result ≡ init_of after kind }
{
    if after != token::BECOMES {
        return declaration::NONE;
    }
    match kind {
        token::MINUS => declaration::NEGATIVE,
        token::ZERO | token::ONE => declaration::BIT,
        _ => declaration::NUMBER,
    }
}

// The index of the initial value's first token, behind := at an index, or 16384.
fn value_index(after: u8, at: usize) -> u16
    requires { at < 65535 }
    ensures { result ≡ value_from after at }
{
    if after == token::BECOMES {
        (at + 1) as u16
    } else {
        declaration::NO_VALUE
    }
}

// The shape of a group, whose type word stands at an index.
fn shape_at(text: Tokens, first: usize, mode: u16, at: usize) -> Shape
    requires { (text.count ≤ 16384) × (first ≤ 16384) × (at ≤ 16384) }
    ensures { result ≡ shape_at text.entry.kinds.now text.entry.count first mode at }
{
    let after = text.kind_at(at + 1);
    let kind = text.kind_at(at + 1 + 1);
    let of = type_of(text.kind_at(at));
    let init = init_of(after, kind);
    let value = value_index(after, at + 1);
    Shape {
        mode,
        kind: of,
        init,
        value,
        first: first as u16,
    }
}

// Stores the row of a declared name.
fn put_row(decls: &mut [u16; declaration::ROWS], i: usize, name: usize, g: Shape)
    requires { (i < 65) × (name < 65536) }
    ensures { decls.new ≡ set_decl i (row_of g name) decls.old }
{
    decls[declaration::ROW * i] = name as u16;
    decls[declaration::ROW * i + declaration::MODE] = g.mode;
    decls[declaration::ROW * i + declaration::TYPE] = g.kind;
    decls[declaration::ROW * i + declaration::INIT] = g.init;
    decls[declaration::ROW * i + declaration::VALUE] = g.value;
    decls[declaration::ROW * i + declaration::FIRST] = g.first;
}

// Stores the rows from number i up to number j, the names being every second token from an index on.
fn put_rows(decls: &mut [u16; declaration::ROWS], i: usize, j: usize, at: usize, g: Shape)
    requires { (j ≤ 65) × (at ≤ 16384) }
    ensures { decls.new ≡ store_decls i (rows_of g at (j - i)) decls.old }
{
    for k in i..j {
        put_row(decls, k, at + NEXT_NAME * (k - i), g);
    }
}

// Stores the rows of the names that are declared at e and not yet at p: a group of this first name and mode, whose type word stands at an index.
fn put_group(
    text: Tokens,
    p: Header,
    e: Header,
    first: usize,
    mode: u16,
    at: usize,
    decls: &mut [u16; declaration::ROWS],
)
    requires { AsksHeader text.count (header_here p) × AsksHeader text.count (header_here e) × (first ≤ text.count) × (at ≤ text.count) }
    ensures { decls.new ≡ store_group text.entry.kinds.now text.entry.count (header_here p) (header_here e) first mode at decls.old }
{
    let g = shape_at(text, first, mode, at);
    put_rows(decls, declared_by(p), declared_by(e), first, g);
}

// A group of ports, and the rows of its names.
fn port_group(
    text: Tokens,
    p: Header,
    decls: &mut [u16; declaration::ROWS],
) -> Result<Header, Unread>
    requires { AsksGroup text.count (header_here p) }
    ensures { PortsOver port_part group_headings text.entry.kinds.now text.entry.long.now text.entry.count (header_here p) decls.old (as_header p result) decls.new }
{
    let a = names(text, p, false)?;
    let u = text.expect(a.cursor, token::COLON)?;
    let c = mode(text, Header { cursor: u, ..a })?;
    let w = tail(text, c.cursor)?;
    let e = Header { cursor: w, ..c };
    let m = mode_of(text.kind_at(u.at));
    put_group(text, p, e, p.cursor.at, m, c.cursor.at, decls);
    Ok(e)
}

// A group of variables, and the rows of its names. Behind the word variable none of the names that come now waits for a mode.
fn variable_group(
    text: Tokens,
    p: Header,
    decls: &mut [u16; declaration::ROWS],
) -> Result<Header, Unread>
    requires { AsksHeader text.count (header_here p) × (kind_in text.kinds.now text.count p.cursor.at ≡ VARIABLE) }
    ensures { VariableOver text.entry.kinds.now text.entry.long.now text.entry.count (header_here p) decls.old (as_header p result) decls.new }
{
    let q = text.expect(p.cursor, token::VARIABLE)?;
    let a = Header {
        cursor: q,
        waiting: 0,
        ..p
    };
    let b = names(text, a, true)?;
    let u = text.expect(b.cursor, token::COLON)?;
    let v = tail(text, u)?;
    let w = text.expect(v, token::SEMI)?;
    let e = Header { cursor: w, ..b };
    put_group(text, p, e, q.at, declaration::VARIABLE, u.at, decls);
    Ok(e)
}

// The groups of ports, where the reader has not refused.
pub fn ports<P: ReachedHeader>(
    text: Tokens,
    p: P,
    decls: &mut [u16; declaration::ROWS],
) -> Result<Header, Unread>
    requires { AsksGroup text.count (P.read p) }
    ensures { PortsOver ports_part groups_names text.entry.kinds.now text.entry.long.now text.entry.count (P.read p) decls.old (header_after (P.read p) result) decls.new }
{
    let p = p.reached()?;
    port_groups(text, p, decls)
}

// The groups of ports, parted by semicolons.
fn port_groups(
    text: Tokens,
    p: Header,
    decls: &mut [u16; declaration::ROWS],
) -> Result<Header, Unread>
    requires { AsksGroup text.count (header_here p) }
    ensures { PortsOver ports_part groups_names text.entry.kinds.now text.entry.long.now text.entry.count (header_here p) decls.old (as_header p result) decls.new }
{
    let mut a = port_group(text, p, decls)?;
    while text.follows(a.cursor, token::SEMI) {
        let cursor = text.expect(a.cursor, token::SEMI)?;
        a = port_group(text, Header { cursor, ..a }, decls)?;
    }
    Ok(a)
}

// The groups of variables, where the reader has not refused.
pub fn variables<P: ReachedHeader>(
    text: Tokens,
    p: P,
    decls: &mut [u16; declaration::ROWS],
) -> Result<Header, Unread>
    requires { AsksHeader text.count (P.read p) }
    ensures { VariablesOver text.entry.kinds.now text.entry.long.now text.entry.count (P.read p) decls.old (header_after (P.read p) result) decls.new }
{
    let p = p.reached()?;
    variable_groups(text, p, decls)
}

// The groups of variables, or none.
fn variable_groups(
    text: Tokens,
    p: Header,
    decls: &mut [u16; declaration::ROWS],
) -> Result<Header, Unread>
    requires { AsksHeader text.count (header_here p) }
    ensures { VariablesOver text.entry.kinds.now text.entry.long.now text.entry.count (header_here p) decls.old (as_header p result) decls.new }
{
    let mut a = p;
    while text.follows(a.cursor, token::VARIABLE) {
        a = variable_group(text, a, decls)?;
    }
    Ok(a)
}
