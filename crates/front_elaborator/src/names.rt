// The declared names of a design, from the array of declared names: their indices, types and initial values, by mode.
ghost use Rattle.std.specs.Prelude.{◌≡◌, take, replicate, pos};
ghost use Rattle.std.proofs.lemmas.List.Edits.{sets};
ghost use Rattle.base_codes.specs.Limit.{VARIABLES};
ghost use Rattle.front_elaborator.specs.Names.{of_mode, slot_of, slots_after, type_at, initial_at, values_of, place_at, Heads, Gathers};
ghost use Rattle.base_codes.specs.Declaration.{IN};

use crate::arrays;
use base_codes::{declaration, limit, types};
use base_ir::Names;

// Whether declaration k is of a mode; the clock is none of the inputs.
#[tactic(auto, unfolding(crate::specs::Names::of_mode))]
fn belongs(decls: &[u16; declaration::ROWS], clock: usize, mode: u16, k: usize) -> bool
    ensures { result ≡ of_mode decls.now clock mode k }
{
    arrays::field_at(decls, k, declaration::MODE) == mode && (mode != declaration::IN || k != clock)
}

// The index of declaration j among those of its mode.
pub fn slot_of(decls: &[u16; declaration::ROWS], clock: usize, j: usize) -> u8
    ensures { result ≡ slot_of decls.now clock j }
{
    let mode = arrays::field_at(decls, j, declaration::MODE);
    let mut n = 0;
    for k in 0..j.min(limit::NAMES) {
        n += u8::from(belongs(decls, clock, mode, k));
    }
    n
}

// Writes the index of each declaration.
pub fn slots(decls: &[u16; declaration::ROWS], d: usize, clock: usize, out: &mut [u8; limit::NAMES])
    ensures { out.new ≡ slots_after decls.now d clock out.old }
{
    for j in 0..d.min(limit::NAMES) {
        out[j] = slot_of(decls, clock, j);
    }
}

// The type of a declaration.
fn type_at(decls: &[u16; declaration::ROWS], k: usize) -> u8
    ensures { result ≡ type_at decls.now k }
{
    match arrays::field_at(decls, k, declaration::TYPE) {
        declaration::INTEGER => types::INTEGER,
        _ => types::STD_LOGIC,
    }
}

// The initial value of a declaration.
#[tactic(auto, unfolding(crate::specs::Names::initial_at, spec_language::specs::Elaboration::minus))]
fn initial(
    text: &[u8],
    starts: &[u16; limit::TEXT],
    sizes: &[u16; limit::TEXT],
    kinds: &[u8; limit::TEXT],
    decls: &[u16; declaration::ROWS],
    k: usize,
) -> i32
    ensures { result ≡ initial_at text.now starts.now sizes.now kinds.now decls.now k }
{
    let form = arrays::field_at(decls, k, declaration::INIT);
    let i = usize::from(arrays::field_at(decls, k, declaration::VALUE));
    match form {
        declaration::NUMBER => arrays::literal_at(text, starts, sizes, i),
        declaration::BIT => arrays::bit_at(kinds, i),
        declaration::NEGATIVE => -arrays::literal_at(text, starts, sizes, i + 1),
        _ => 0,
    }
}

// Writes the initial values of the declarations of a mode, as many as there is room for.
fn values(
    text: &[u8],
    starts: &[u16; limit::TEXT],
    sizes: &[u16; limit::TEXT],
    kinds: &[u8; limit::TEXT],
    decls: &[u16; declaration::ROWS],
    d: usize,
    clock: usize,
    mode: u16,
    out: &mut [i32; limit::VARIABLES],
)
    ensures { out.new ≡ sets out.old 0 (take VARIABLES (values_of text.now starts.now sizes.now kinds.now decls.now d clock mode)) }
{
    let mut n = 0;
    for k in 0..d.min(limit::NAMES) {
        if n == limit::VARIABLES {
            return;
        }
        if !belongs(decls, clock, mode, k) {
            continue;
        }
        out[n] = initial(text, starts, sizes, kinds, decls, k);
        n += 1;
    }
}

// The number of the token of a declared name, where the array has the starts or the sizes of tokens.
fn place_at(decls: &[u16; declaration::ROWS], tokens: &[u16; limit::TEXT], k: usize) -> u16
    ensures { result ≡ place_at tokens.now decls.now k }
{
    let i = arrays::field_at(decls, k, declaration::NAME);
    tokens.get(usize::from(i)).copied().unwrap_or(0)
}

// The declared names of a mode, with no initial values.
fn declared(
    starts: &[u16; limit::TEXT],
    sizes: &[u16; limit::TEXT],
    decls: &[u16; declaration::ROWS],
    d: usize,
    clock: usize,
    mode: u16,
) -> Names
    ensures heads { Heads starts.now sizes.now decls.now d clock mode result }
    ensures values { result.values ≡ replicate VARIABLES (pos 0) }
{
    let mut names = Names {
        count: 0,
        types: [0; limit::VARIABLES],
        values: [0; limit::VARIABLES],
        starts: [0; limit::VARIABLES],
        sizes: [0; limit::VARIABLES],
    };
    for k in 0..d.min(limit::NAMES) {
        let n = names.count;
        if n == limit::VARIABLES {
            return names;
        }
        if !belongs(decls, clock, mode, k) {
            continue;
        }
        names.types[n] = type_at(decls, k);
        names.starts[n] = place_at(decls, starts, k);
        names.sizes[n] = place_at(decls, sizes, k);
        names.count = n + 1;
    }
    names
}

// The data inputs; what values they begin with, a design does not say.
pub fn inputs(
    starts: &[u16; limit::TEXT],
    sizes: &[u16; limit::TEXT],
    decls: &[u16; declaration::ROWS],
    d: usize,
    clock: usize,
) -> Names
    ensures { Heads starts.now sizes.now decls.now d clock IN result }
{
    declared(starts, sizes, decls, d, clock, declaration::IN)
}

// The outputs or the variables, by their mode.
pub fn slotted(
    text: &[u8],
    starts: &[u16; limit::TEXT],
    sizes: &[u16; limit::TEXT],
    kinds: &[u8; limit::TEXT],
    decls: &[u16; declaration::ROWS],
    d: usize,
    clock: usize,
    mode: u16,
) -> Names
    ensures { Gathers text.now starts.now sizes.now kinds.now decls.now d clock mode result }
{
    let mut names = declared(starts, sizes, decls, d, clock, mode);
    values(
        text,
        starts,
        sizes,
        kinds,
        decls,
        d,
        clock,
        mode,
        &mut names.values,
    );
    names
}
