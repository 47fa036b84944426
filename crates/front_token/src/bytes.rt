// Bytes of a text: their kinds, asked of the table that is lent, and lower case.
ghost use Rattle.std.specs.Prelude.{◌≡◌, get_or};
ghost use Rattle.spec_language.specs.Bytes.{blank, byte_kind, is, in_word, is_digit, is_under, lower};
ghost use Rattle.front_token.specs.Kinds.{Kinds, named};

use crate::kinds::{BYTES, ByteKind};

// The kind of a byte, by the table.
pub(crate) fn kind_of(table: &[ByteKind; BYTES], b: u8) -> ByteKind
    requires { Kinds table.now }
    ensures { result ≡ named (byte_kind b) }
{
    table[usize::from(b)]
}

// "letters, digits and underscores".
pub(crate) fn in_word(table: &[ByteKind; BYTES], b: u8) -> bool
    requires { Kinds table.now }
    ensures { result ≡ in_word b }
{
    matches!(
        kind_of(table, b),
        ByteKind::Letter | ByteKind::Digit | ByteKind::Underscore
    )
}

pub(crate) fn is_digit(table: &[ByteKind; BYTES], b: u8) -> bool
    requires { Kinds table.now }
    ensures { result ≡ is_digit b }
{
    kind_of(table, b) == ByteKind::Digit
}

pub(crate) fn is_underscore(table: &[ByteKind; BYTES], b: u8) -> bool
    requires { Kinds table.now }
    ensures { result ≡ is_under b }
{
    kind_of(table, b) == ByteKind::Underscore
}

// Asked in the lexer's loops, which pass blanks themselves.
pub fn is_blank(table: &[ByteKind; BYTES], b: u8) -> bool
    requires { Kinds table.now }
    ensures { result ≡ is blank b }
{
    kind_of(table, b) == ByteKind::Blank
}

// A capital as its small letter. No kind: the table does not tell it.
pub fn lower_case(b: u8) -> u8
    ensures { result ≡ lower b }
{
    b.to_ascii_lowercase()
}

// The byte at a place, or 0 past the text's end.
pub(crate) fn byte_at(text: &[u8], at: usize) -> u8
    ensures { result ≡ get_or text.now at 0 }
{
    text.get(at).copied().unwrap_or(0)
}
