// Refusal 13: the lines one after the other, each with its run of code, in one pass.
ghost use Rattle.std.specs.Prelude.{◌≡◌, true, ◌+◌, ◌*◌, ◌/◌, ◌<◌, ◌≤◌, length, get_or, drop};
ghost use Rattle.spec_format.specs.Words.{word2_at};
ghost use Rattle.spec_format.specs.Signature.{signature_of};
ghost use Rattle.spec_format.specs.Opening.{raw_line_at, open_line};
ghost use Rattle.base_codes.specs.Image.{LINE, LINE_NEXT, LINE_OTHER, LINE_REACH};
ghost use Rattle.base_codes.specs.Statement.{OUTPUT, VARIABLE};
ghost use Rattle.base_codes.specs.Limit.{STATEMENTS};
ghost use Rattle.image_loader.specs.Sections.{is_some};
ghost use Rattle.image_loader.specs.Code.{signature_at};
ghost use Rattle.image_loader.specs.Lines.{leaves_type, code_fits, followers_fit, stored_reaches, lines_from};

use crate::signature::count;
use base_codes::{image, types};

// A two-byte number as a place.
fn short(s: &[u8], at: usize) -> usize
    ensures value { result ≡ word2_at s.now at }
    ensures upper_bound { result < 65536 }
{
    image_words::word2(s, at) as usize
}

// A run of code leaves a value of the type that is needed.
#[tactic(auto, unfolding(crate::specs::Lines::leaves_type))]
fn leaves(signature: &[u8], run: &[u8], needed: Option<u8>) -> bool
    requires { is_some (signature_of signature.now) ≡ true }
    ensures { result ≡ leaves_type signature.now run.now needed }
{
    match (crate::code::code_type(signature, run), needed) {
        (Some(t), Some(u)) => t == u,
        _ => false,
    }
}

// Kind and code of a line without a target are right.
#[tactic(auto, unfolding(crate::specs::Lines::code_fits))]
fn code_fits_alone(signature: &[u8], kind: u8, run: &[u8]) -> bool
    requires { is_some (signature_of signature.now) ≡ true }
    ensures { (kind ≡ OUTPUT → ⊥) → (kind ≡ VARIABLE → ⊥) → result ≡ code_fits signature.now kind 0 run.now }
{
    match kind {
        image::BRANCH => leaves(signature, run, Some(types::BOOLEAN)),
        image::WAIT | image::NULL => run.is_empty(),
        _ => false,
    }
}

// Kind, target and code of a line are right.
#[tactic(auto, unfolding(crate::specs::Lines::code_fits))]
fn code_fits(signature: &[u8], kind: u8, target: usize, run: &[u8]) -> bool
    requires signature_value { is_some (signature_of signature.now) ≡ true }
    requires target_bound { target < 256 }
    ensures { result ≡ code_fits signature.now kind target run.now }
{
    match kind {
        image::OUTPUT => leaves(signature, run, crate::code::output_type(signature, target)),
        image::VARIABLE => leaves(
            signature,
            run,
            crate::code::variable_type(signature, target),
        ),
        _ => target == 0 && code_fits_alone(signature, kind, run),
    }
}

// The reach of a line.
fn reach_of(lines: &[u8], n: usize, k: usize) -> usize
    requires k_lt_n { k < n }
    requires n_bound { n ≤ STATEMENTS }
    ensures value { result ≡ get_or (stored_reaches n lines.now) k 0 }
    ensures upper_bound { result < 65536 }
{
    short(lines, image::LINE * k + image::LINE_REACH)
}

// Next, other and reach of a line are right.
#[tactic(auto, unfolding(crate::specs::Lines::followers_fit))]
fn followers_fit(lines: &[u8], n: usize, kind: u8, next: usize, other: usize, reach: usize) -> bool
    requires { n ≤ STATEMENTS }
    ensures { result ≡ followers_fit n (stored_reaches n lines.now) kind next other reach }
{
    if n <= next {
        return false;
    }
    match kind {
        image::BRANCH => {
            other < n && reach == reach_of(lines, n, next).max(reach_of(lines, n, other)) + 1
        }
        image::WAIT => other == 0 && reach == 0,
        _ => other == 0 && reach == reach_of(lines, n, next) + 1,
    }
}

// Next, other and reach of the line of a kind at a place are right.
fn goes_on(lines: &[u8], n: usize, kind: u8, at: usize) -> bool
    requires n_bound { n ≤ STATEMENTS }
    requires at_bound { at ≤ LINE * STATEMENTS }
    ensures { result ≡ followers_fit n (stored_reaches n lines.now) kind (word2_at lines.now (at + LINE_NEXT)) (word2_at lines.now (at + LINE_OTHER)) (word2_at lines.now (at + LINE_REACH)) }
{
    let next = short(lines, at + image::LINE_NEXT);
    let other = short(lines, at + image::LINE_OTHER);
    let reach = short(lines, at + image::LINE_REACH);
    followers_fit(lines, n, kind, next, other, reach)
}

// The line x is good, where the runs before it end at the offset p of the code section.
fn line_fits(signature: &[u8], lines: &[u8], code: &[u8], n: usize, x: usize, p: usize) -> bool
    requires signature_value { is_some (signature_of signature.now) ≡ true }
    requires n_bound { n ≤ STATEMENTS }
    requires x_lt_n { x < n }
    requires p_in_bounds { p ≤ length code.now }
    ensures { result ≡ is_some (open_line (signature_at signature.now) n (stored_reaches n lines.now) p (drop p code.now) (raw_line_at (drop (LINE * x) lines.now))) }
{
    let at = image::LINE * x;
    let size = short(lines, at + image::LINE_CODE_SIZE);
    if short(lines, at + image::LINE_CODE) != p || code.len() - p < size {
        return false;
    }
    let kind = image_words::byte(lines, at);
    let target = count(lines, at + image::LINE_TARGET);
    code_fits(signature, kind, target, &code[p..p + size]) && goes_on(lines, n, kind, at)
}

// All lines and the code section's end: all is good; or the lowest bad line, or the line count where only the code section is not filled.
pub(crate) fn judge(signature: &[u8], lines: &[u8], code: &[u8]) -> Result<(), usize>
    requires signature_value { is_some (signature_of signature.now) ≡ true }
    requires lines_len_bound { length lines.now / LINE ≤ STATEMENTS }
    ensures { result ≡ lines_from signature.now lines.now code.now (length lines.now / LINE) 0 0 }
{
    let n = lines.len() / image::LINE;
    let mut p = 0;
    for x in 0..n {
        if !line_fits(signature, lines, code, n, x, p) {
            return Err(x);
        }
        p += short(lines, image::LINE * x + image::LINE_CODE_SIZE);
    }
    if p < code.len() {
        return Err(n);
    }
    Ok(())
}
