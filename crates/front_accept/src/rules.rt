// Refusals 5 to 9 of a text that was parsed and whose names are resolved, in table order.
ghost use Rattle.std.specs.Prelude.{◌≡◌};
ghost use Rattle.spec_language.specs.Rules.{table};
ghost use Rattle.front_accept.specs.Stages.{shape_of, Ruled, Read};

use base_answers::Refusal;
use base_codes::limit;
use front_offences::{Shape, Tree};
use front_parser::Parsed;

// The shape of a text of n tokens from what the parser knows of it.
pub(crate) fn shape_of(n: usize, p: Parsed) -> Shape
    ensures { result ≡ shape_of n p }
{
    Shape {
        tokens: n,
        statements: p.statements,
        items: p.items,
        names: p.names,
        entity: p.entity,
        entity_end: p.entity_end,
        arch: p.arch,
        arch_of: p.arch_of,
        process: p.process,
        arch_end: p.arch_end,
    }
}

// Rules 5 to 9, one after the other: the refusal of the first that is offended.
pub(crate) fn judge(text: &[u8], sizes: &[u16; limit::TEXT], tree: &Tree) -> Result<(), Refusal>
    ensures { Ruled table (Read text.now tree.now.starts.now sizes.now tree.now.shape
        tree.now.codes.now tree.now.indices.now tree.now.rows.now tree.now.decls.now tree.now.owners.now) result }
{
    if let Some(place) = front_scope::judge(text, sizes, tree) {
        return Err(Refusal::WrongName(place));
    }
    if let Some(place) = front_typing::judge(tree) {
        return Err(Refusal::WrongType(place));
    }
    if let Some(place) = front_values::judge(tree.starts, tree.shape, tree.decls) {
        return Err(Refusal::NoValue(place));
    }
    if let Some(place) = front_clock::judge(tree) {
        return Err(Refusal::WrongClock(place));
    }
    if let Some(place) = front_classes::judge(tree.starts, tree.shape, tree.rows) {
        return Err(Refusal::WrongClass(place));
    }
    Ok(())
}
