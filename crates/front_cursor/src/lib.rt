#![tactic(auto)]
// A cursor over token arrays: the kind of a token, and the steps that take one token or refuse it.
ghost use Rattle.std.specs.Prelude.{◌≡◌, ◌+◌, ◌<◌, ◌≤◌, eqb, false};
ghost use Rattle.spec_grammar.specs.Reader.{choose};
ghost use Rattle.front_layout.specs.Tokens.{kind_in, flag_in};
ghost use Rattle.front_cursor.specs.Reading.{Read, Asks, here, as_read, item_at, expect_one};

use base_codes::limit;

// Why a text is not read, with the index of the token that is refused.
#[derive(Clone, Copy, PartialEq, Eq)]
pub enum Unread {
    NoSentence(usize),
    LimitPassed(usize),
}

// Where a reader stands: the token; the items of the expression so far; the items written in all.
#[derive(Clone, Copy)]
pub struct Cursor {
    pub at: usize,
    pub items: usize,
    pub written: usize,
}

// Where a reader is called: at a cursor, or with what the reader before it answered. What has refused is handed back.
pub trait Reached {
    ghost read: { Self → Read };

    fn reached(self) -> Result<Cursor, Unread>
        ensures { as_read result ≡ read self };
}

impl Reached for Cursor {
    ghost read = { here };

    fn reached(self) -> Result<Cursor, Unread> {
        Ok(self)
    }
}

impl Reached for Result<Cursor, Unread> {
    ghost read = { as_read };

    fn reached(self) -> Self {
        self
    }
}

// The tokens of a text as readers see them: the kind of each, a 1 where one passes a limit wherever it stands, and how many there are.
// Readers take it by value: a long text compiles in 5 % more instructions through a pointer to it than with the three apart, by value in 3 %.
#[derive(Clone, Copy)]
pub struct Tokens<'a> {
    pub kinds: &'a [u8; limit::TEXT],
    pub long: &'a [u8; limit::TEXT],
    pub count: usize,
}

impl Tokens<'_> {
    // The kind of the token at an index, or 0 past the end.
    pub fn kind_at(self, at: usize) -> u8
        requires { self.count ≤ 16384 }
        ensures { result ≡ kind_in self.entry.kinds.now self.entry.count at }
    {
        if at < self.count { self.kinds[at] } else { 0 }
    }

    // Takes the token as an item of an expression, or refuses it by a limit.
    pub fn item<Q: Reached>(self, q: Q) -> Result<Cursor, Unread>
        requires { ((Q.read q).at < 16384) × ((Q.read q).items ≤ 64) }
        ensures { as_read result ≡ item_at (flag_in self.entry.long.now (Q.read q).at) (Q.read q) }
    {
        let q = q.reached()?;
        let at = q.at;
        if self.long[at] == 1 || q.items >= limit::ITEMS {
            return Err(Unread::LimitPassed(at));
        }
        Ok(Cursor {
            at: at + 1,
            items: q.items + 1,
            ..q
        })
    }

    // Takes the token if it has the kind; refuses it otherwise, or by a limit.
    pub fn expect<Q: Reached>(self, q: Q, kind: u8) -> Result<Cursor, Unread>
        requires { (0 < kind) × Asks self.count (Q.read q) }
        ensures { as_read result ≡ expect_one self.entry.kinds.now self.entry.long.now self.entry.count kind (Q.read q) }
    {
        let q = q.reached()?;
        let at = q.at;
        if self.kind_at(at) != kind {
            return Err(Unread::NoSentence(at));
        }
        if self.long[at] == 1 {
            return Err(Unread::LimitPassed(at));
        }
        Ok(Cursor { at: at + 1, ..q })
    }

    // Whether the reader has not refused and a token of this kind stands there.
    pub fn follows<Q: Reached>(self, q: Q, kind: u8) -> bool
        requires { self.count ≤ 16384 }
        ensures { result ≡ choose (eqb (Q.read q).fault 0) (eqb (kind_in self.entry.kinds.now self.entry.count (Q.read q).at) kind) false }
    {
        let Ok(q) = q.reached() else {
            return false;
        };
        self.kind_at(q.at) == kind
    }
}
