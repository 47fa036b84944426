// What is read of a text's tokens: all stages that judge the whole text, in table order, and the values of its items. Behind them nothing is refused.
ghost use Rattle.std.specs.Prelude.{◌≡◌};
ghost use Rattle.front_accept.specs.Answered.{place_in, unread_as};
ghost use Rattle.front_accept.specs.Readings.{Judges, Reads};

use crate::rules;
use base_answers::Refusal;
use base_codes::{declaration, limit, statement};
use front_cursor::Unread;
use front_elaborator::items;
use front_offences::{Shape, Tree};

// The rows of the declared names, and the judgement on the text: its shape where it offends no rule, or its refusal.
#[derive(Clone, Copy)]
pub(crate) struct Reading {
    pub decls: [u16; declaration::ROWS],
    pub judgement: Result<Shape, Refusal>,
}

// The place of a token, or the text's length where there is no such token.
fn place_of(starts: &[u16; limit::TEXT], n: usize, length: usize, i: usize) -> usize
    ensures { result ≡ place_in starts.now n length i }
{
    if i < n {
        usize::from(front_offences::place_at(starts, n, i))
    } else {
        length
    }
}

// The refusal of a text that is not read, with its place.
fn unread(e: Unread, starts: &[u16; limit::TEXT], n: usize, length: usize) -> Refusal
    ensures { result ≡ unread_as starts.now n length e }
{
    match e {
        Unread::NoSentence(i) => Refusal::NoSentence(place_of(starts, n, length, i)),
        Unread::LimitPassed(i) => Refusal::LimitPassed(place_of(starts, n, length, i)),
    }
}

// Refusals 3 to 9: the tree, the declarations of its names, the rules. The flags of the tokens are not needed after the parser: the owners of names
// stand in their array.
fn judged(
    text: &[u8],
    kinds: &[u8; limit::TEXT],
    starts: &[u16; limit::TEXT],
    sizes: &[u16; limit::TEXT],
    n: usize,
    owners: &mut [u8; limit::TEXT],
    codes: &mut [u8; limit::TEXT],
    indices: &mut [u16; limit::TEXT],
    rows: &mut [u16; statement::ROWS],
) -> Reading
    ensures { Judges text.now kinds.now starts.now sizes.now n owners.old owners.new
        codes.old codes.new indices.old indices.new rows.old rows.new result }
{
    let mut decls = [0u16; declaration::ROWS];
    let parsing = front_parser::parse(kinds, owners, n, codes, indices, rows, &mut decls);
    match parsing {
        Ok(p) => {
            front_scope::resolve(text, kinds, starts, sizes, n, &decls, p.names, owners);
            let shape = rules::shape_of(n, p);
            let tree = Tree {
                starts,
                codes,
                indices,
                rows,
                decls: &decls,
                owners,
                shape,
            };
            let ruling = rules::judge(text, sizes, &tree);
            let judgement = ruling.map(|()| shape);
            Reading { decls, judgement }
        }
        Err(e) => {
            let r = unread(e, starts, n, text.len());
            Reading {
                decls,
                judgement: Err(r),
            }
        }
    }
}

// All stages on a text of n tokens, then the values of its items. The codes of items stand where the codes of operations will, and the rows of
// statements where the statements will: clearing arrays is what a short text's compile spends most of its time on.
pub(crate) fn read(
    text: &[u8],
    kinds: &[u8; limit::TEXT],
    starts: &[u16; limit::TEXT],
    sizes: &[u16; limit::TEXT],
    n: usize,
    owners: &mut [u8; limit::TEXT],
    codes: &mut [u8; limit::TEXT],
    args: &mut [i32; limit::TEXT],
    rows: &mut [u16; statement::ROWS],
) -> Reading
    ensures { Reads text.now kinds.now starts.now sizes.now n owners.old owners.new
        codes.old codes.new args.old args.new rows.old rows.new result }
{
    let mut indices = [0u16; limit::TEXT];
    front_limits::mark(text, kinds, starts, sizes, n, owners);
    let r = judged(
        text,
        kinds,
        starts,
        sizes,
        n,
        owners,
        codes,
        &mut indices,
        rows,
    );
    if let Ok(shape) = r.judgement {
        items::resolve(
            text,
            starts,
            sizes,
            kinds,
            owners,
            codes,
            &indices,
            shape.items,
            args,
        );
    }
    r
}
