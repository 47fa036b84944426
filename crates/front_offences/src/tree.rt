// What the judges of a text's rules are lent, and what they all ask of it.
ghost use Rattle.std.specs.Prelude.{◌≡◌, ◌+◌, ◌*◌, ◌<◌, get_or};
ghost use Rattle.base_codes.specs.Declaration as D;
ghost use Rattle.base_codes.specs.Statement as S;
ghost use Rattle.base_codes.specs.Limit.{NAMES, STATEMENTS};
ghost use Rattle.front_layout.specs.Arrays.{number_in};
ghost use Rattle.front_offences.specs.Positions.{mode_in, type_in};

use crate::{Shape, mode_at, number_under, owner_at, place_at};
use base_codes::{declaration, limit, statement};

// A parsed text with its names resolved: where its tokens start, the codes of its items and the indices of their tokens, the rows of its statements and of its declared names, the
// number of each name's declaration, and how many of each there are.
#[derive(Clone, Copy)]
pub struct Tree<'a> {
    pub starts: &'a [u16; limit::TEXT],
    pub codes: &'a [u8; limit::TEXT],
    pub indices: &'a [u16; limit::TEXT],
    pub rows: &'a [u16; statement::ROWS],
    pub decls: &'a [u16; declaration::ROWS],
    pub owners: &'a [u8; limit::TEXT],
    pub shape: Shape,
}

impl Tree<'_> {
    // The place of the token at an index, or 0 past the last.
    pub fn place(&self, i: usize) -> u16
        ensures { result ≡ number_in self.now.starts.now self.now.shape.tokens i }
    {
        place_at(self.starts, self.shape.tokens, i)
    }

    // The number of the declaration that the name at an index stands for, or 0 past the last.
    pub fn owner(&self, i: usize) -> usize
        ensures { result ≡ number_in self.now.owners.now self.now.shape.tokens i }
    {
        owner_at(self.owners, self.shape.tokens, i)
    }

    // Number k of row j of the declared names.
    pub fn declared(&self, j: usize, k: usize) -> u16
        requires { (j < NAMES) × (k < D.ROW) }
        ensures { result ≡ get_or self.now.decls.now (D.ROW * j + k) 0 }
    {
        self.decls[declaration::ROW * j + k]
    }

    // Number k of row j of the statements.
    pub fn statement(&self, j: usize, k: usize) -> u16
        requires { (j < STATEMENTS) × (k < S.ROW) }
        ensures { result ≡ get_or self.now.rows.now (S.ROW * j + k) 0 }
    {
        self.rows[statement::ROW * j + k]
    }

    // The mode under a declaration's number, or 3 for none.
    pub fn mode(&self, o: usize) -> u16
        ensures { result ≡ mode_in self.now.decls.now self.now.shape.names o }
    {
        mode_at(self.decls, self.shape.names, o)
    }

    // The type under a declaration's number, or 2 for none.
    pub fn type_of(&self, o: usize) -> u16
        ensures { result ≡ type_in self.now.decls.now self.now.shape.names o }
    {
        number_under(
            self.decls,
            self.shape.names,
            o,
            declaration::TYPE,
            declaration::NO_TYPE,
        )
    }
}
