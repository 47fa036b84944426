#![tactic(auto, using(crate::proofs::WordLaws::by_size, crate::proofs::WordLaws::word_rest, crate::proofs::WordLaws::no_rest), unfolding(crate::specs::Reserved::spelled_kind, crate::specs::Reserved::of_size, spec_language::specs::Words::reserved, spec_language::specs::Bytes::bytes))]
// Words: whether one is well made, and which reserved word it is.
ghost use Rattle.std.specs.Prelude.{◌≡◌, false, cond, map};
ghost use Rattle.spec_language.specs.Bytes.{lower};
ghost use Rattle.spec_language.specs.Words.{well_made, reserved};
ghost use Rattle.spec_language.specs.Lexing.{equal};
ghost use Rattle.front_token.specs.Kinds.{Kinds};
ghost use Rattle.front_token.specs.Reserved.{spelled_kind, reserved_kind, of_size};

use crate::bytes;
use crate::kinds::{BYTES, ByteKind};
use base_codes::token;

// "no doubled or last underscore".
pub(crate) fn well_made(table: &[ByteKind; BYTES], word: &[u8]) -> bool
    requires { Kinds table.now }
    ensures { result ≡ well_made false word.now }
{
    let mut after_underscore = false;
    for b in word {
        let underscore = bytes::is_underscore(table, *b);
        if after_underscore && underscore {
            return false;
        }
        after_underscore = underscore;
    }
    !after_underscore
}

// The word, folded to lower case, is this spelling. Only a word as long is compared.
fn spells(word: &[u8], spelling: &[u8]) -> bool
    ensures { result ≡ equal spelling.now (map lower word.now) }
{
    word.len() == spelling.len()
        && word
            .iter()
            .zip(spelling)
            .all(|(b, c)| bytes::lower_case(*b) == *c)
}

// The kind of a reserved word where the word is it, else what the words after it say.
fn pick(word: &[u8], spelling: &[u8], kind: u8, rest: u8) -> u8
    ensures { result ≡ cond (equal spelling.now (map lower word.now)) kind rest }
{
    if spells(word, spelling) { kind } else { rest }
}

// The kind of a word of two bytes. The words stand from the last of the list backwards, since each row takes what the words after it in the list say.
fn of_two(word: &[u8]) -> u8
    ensures { result ≡ spelled_kind (of_size 2 reserved) (map lower word.now) }
{
    let kind = pick(word, b"or", token::OR, token::NAME);
    let kind = pick(word, b"if", token::IF, kind);
    let kind = pick(word, b"in", token::IN, kind);
    let kind = pick(word, b"of", token::OF, kind);
    pick(word, b"is", token::IS, kind)
}

// The kind of a word of three bytes.
fn of_three(word: &[u8]) -> u8
    ensures { result ≡ spelled_kind (of_size 3 reserved) (map lower word.now) }
{
    let kind = pick(word, b"rem", token::REM, token::NAME);
    let kind = pick(word, b"mod", token::MOD, kind);
    let kind = pick(word, b"not", token::NOT, kind);
    let kind = pick(word, b"xor", token::XOR, kind);
    let kind = pick(word, b"and", token::AND, kind);
    let kind = pick(word, b"out", token::OUT, kind);
    pick(word, b"end", token::END, kind)
}

// The kind of a word of four bytes.
fn of_four(word: &[u8]) -> u8
    ensures { result ≡ spelled_kind (of_size 4 reserved) (map lower word.now) }
{
    let kind = pick(word, b"loop", token::LOOP, token::NAME);
    let kind = pick(word, b"else", token::ELSE, kind);
    let kind = pick(word, b"then", token::THEN, kind);
    let kind = pick(word, b"wait", token::WAIT, kind);
    let kind = pick(word, b"null", token::NULL, kind);
    pick(word, b"port", token::PORT, kind)
}

// The kind of a word, by its size: only reserved words as long are compared.
pub(crate) fn word_kind(word: &[u8]) -> u8
    ensures { result ≡ reserved_kind (map lower word.now) }
{
    match word.len() {
        2 => of_two(word),
        3 => of_three(word),
        4 => of_four(word),
        5 => {
            let kind = pick(word, b"while", token::WHILE, token::NAME);
            let kind = pick(word, b"until", token::UNTIL, kind);
            pick(word, b"begin", token::BEGIN, kind)
        }
        6 => pick(word, b"entity", token::ENTITY, token::NAME),
        7 => {
            let kind = pick(word, b"integer", token::INTEGER, token::NAME);
            pick(word, b"process", token::PROCESS, kind)
        }
        8 => pick(word, b"variable", token::VARIABLE, token::NAME),
        9 => pick(word, b"std_logic", token::STD_LOGIC, token::NAME),
        12 => pick(word, b"architecture", token::ARCHITECTURE, token::NAME),
        _ => token::NAME,
    }
}
