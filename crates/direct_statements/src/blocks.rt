// Statements started and resumed, by the rows that hold them: blocks in blocks are a cycle of calls, the statements of a block a loop.
ghost use Rattle.std.specs.Prelude.{◌≡◌, true, cond, ◌&&◌, ◌||◌, List, ℕ, ◌+◌, ◌-◌, ◌*◌, ◌≤◌, ◌<◌, get_or, set, ℤ, eqb, ltb, leb};
ghost use Rattle.base_codes.specs.Statement as S;
ghost use Rattle.base_codes.specs.Fault.{outcome};
ghost use Rattle.spec_design.specs.Expression.{fine};
ghost use Rattle.spec_design.specs.Statement.{Stmt, has};
ghost use Rattle.spec_semantics.specs.Evaluation.{is_one};
ghost use Rattle.base_ir.specs.Entries.{Block};
ghost use Rattle.base_ir.specs.Arrays.{row_in};
ghost use Rattle.direct_statements.specs.Effects.{branch_of, value_of, Valued, Acts};
ghost use Rattle.direct_statements.specs.Holding.{HeldIn, Part};
ghost use Rattle.direct_statements.specs.Standing.{counted, Bounds};
ghost use Rattle.direct_statements.specs.Resuming.{inside_rows, ResumesAt};
ghost use Rattle.direct_statements.specs.Running.{StartsOne, Starts, GoesOn, Resumes};

use crate::{Effect, Inside, Progress};
use base_codes::fault::Fault;
use base_codes::{kind, statement as row};
use direct_expressions::evaluation::evaluate;

// The k-th number of the rows; 0 where there is none.
pub fn entry(rows: &[u16], k: usize) -> usize
    ensures value { result ≡ get_or rows.now k 0 }
    ensures upper_bound { result < 65536 }
{
    if k < rows.len() { rows[k] as usize } else { 0 }
}

// Stores a value in the row that statements of kind w store into, if the statement is of that kind and the row has that place.
fn store(row: &mut [i32], w: usize, k: usize, n: usize, v: i32)
    ensures { row.new ≡ cond (eqb k w) (set row.old n v) row.old }
{
    if k != w {
        return;
    }
    if n < row.len() {
        row[n] = v;
    }
}

// Whether a statement of kind k has parts: an if or a while.
fn has_parts(k: usize) -> bool
    ensures { result ≡ (eqb k S.IF || eqb k S.WHILE) }
{
    k == kind::IF || k == kind::WHILE
}

// The part of an if or a while that a condition's value picks.
fn branch(at: usize, other: usize, end: usize, v: i32) -> Effect
    requires { at < 512 }
    ensures { result ≡ branch_of (is_one v) at other end }
{
    let first = at + 1;
    if base_signed::is_one(v) {
        Effect::Performed(first, other)
    } else {
        Effect::Performed(other, end)
    }
}

// A value stored in the target of statement `at`, which is of kind k, or picking the part that follows.
fn assign(
    rows: &[u16],
    at: usize,
    k: usize,
    v: i32,
    outputs: &mut [i32],
    variables: &mut [i32],
) -> Effect
    requires { Valued rows.now at k }
    ensures { Acts (row_in rows.now at) at (fine v) outputs.old variables.old (fine result) outputs.new variables.new }
{
    if has_parts(k) {
        return branch(
            at,
            entry(rows, row::ROW * at + row::OTHER),
            entry(rows, row::ROW * at + row::END),
            v,
        );
    }
    let n = entry(rows, row::ROW * at + row::TARGET);
    store(outputs, kind::OUTPUT, k, n, v);
    store(variables, kind::VARIABLE, k, n, v);
    Effect::Performed(at + 1, at + 1)
}

// What statement `at` does itself: its value is stored in its target, or picks the part that follows.
fn perform(
    codes: &[u8],
    args: &[i32],
    rows: &[u16],
    at: usize,
    inputs: &[i32],
    outputs: &mut [i32],
    variables: &mut [i32],
) -> Result<Effect, Fault>
    requires { at < 512 }
    ensures { Acts (row_in rows.now at) at (value_of codes.now args.now inputs.now variables.old (row_in rows.now at))
        outputs.old variables.old (outcome result) outputs.new variables.new }
{
    let k = entry(rows, row::ROW * at);
    if k == kind::WAIT {
        return Ok(Effect::Waits);
    }
    if k == kind::NULL {
        return Ok(Effect::Performed(at + 1, at + 1));
    }
    let from = entry(rows, row::ROW * at + row::FROM);
    let to = entry(rows, row::ROW * at + row::TO);
    let v = evaluate(codes, args, from, to, inputs, variables)?;
    Ok(assign(rows, at, k, v, outputs, variables))
}

// Whether a .. b lies inside at .. next.
fn nested(at: usize, a: usize, b: usize, next: usize) -> bool
    ensures { result ≡ (ltb at a && (leb a b && leb b next)) }
{
    at < a && a <= b && b <= next
}

// The statement whose rows are at .. next, started.
#[cycle(start_statement)]
fn statement(
    codes: &[u8],
    args: &[i32],
    rows: &[u16],
    at: usize,
    next: usize,
    inputs: &[i32],
    outputs: &mut [i32],
    variables: &mut [i32],
    count: usize,
) -> Progress
    requires { Bounds at next count × (at < next) }
    ensures result_bound { counted result ≤ count + (next - at) }
    ensures starts_one { StartsOne codes.now args.now rows.now at next count inputs.now outputs.old variables.old result outputs.new variables.new }
{
    let m = perform(codes, args, rows, at, inputs, outputs, variables);
    match m {
        Err(q) => Progress::Refused(q, at),
        Ok(effect) => match effect {
            Effect::Waits => Progress::Reached(at, count + 1),
            Effect::Performed(a, b) => {
                let right = nested(at, a, b, next);
                if right {
                    return start(
                        codes,
                        args,
                        rows,
                        a,
                        b,
                        inputs,
                        outputs,
                        variables,
                        count + 1,
                    );
                }
                Progress::Passed(count + 1)
            }
        },
    }
}

// The statements whose rows are first .. end, one after another, started: each while those before it are passed.
#[cycle(start_statement)]
pub(crate) fn start(
    codes: &[u8],
    args: &[i32],
    rows: &[u16],
    first: usize,
    end: usize,
    inputs: &[i32],
    outputs: &mut [i32],
    variables: &mut [i32],
    count: usize,
) -> Progress
    requires { Bounds first end count }
    ensures result_bound { counted result ≤ count + (end - first) }
    ensures starts { Starts codes.now args.now rows.now first end count inputs.now outputs.old variables.old result outputs.new variables.new }
{
    let mut at = first;
    let mut n = count;
    while at < end {
        let next = entry(rows, row::ROW * at + row::END);
        if next <= at {
            return Progress::Passed(n);
        }
        if end < next {
            return Progress::Passed(n);
        }
        let r = statement(codes, args, rows, at, next, inputs, outputs, variables, n);
        match r {
            Progress::Passed(k) => {
                n = k;
                at = next;
            }
            Progress::Reached(p, k) => {
                return Progress::Reached(p, k);
            }
            Progress::Refused(q, x) => {
                return Progress::Refused(q, x);
            }
        }
    }
    Progress::Passed(n)
}

// After an answer: where it is passed, the statements whose rows are from .. end are started.
pub(crate) fn go_on(
    codes: &[u8],
    args: &[i32],
    rows: &[u16],
    from: usize,
    end: usize,
    inputs: &[i32],
    outputs: &mut [i32],
    variables: &mut [i32],
    r: Progress,
) -> Progress
    requires { Bounds from end (counted r) }
    ensures result_bound { counted result ≤ counted r + (end - from) }
    ensures goes_on { GoesOn codes.now args.now rows.now from end inputs.now outputs.old variables.old r result outputs.new variables.new }
{
    match r {
        Progress::Passed(n) => start(codes, args, rows, from, end, inputs, outputs, variables, n),
        Progress::Reached(p, n) => Progress::Reached(p, n),
        Progress::Refused(q, x) => Progress::Refused(q, x),
    }
}

// The statement, of those whose rows are first .. end, that row `place` belongs to.
fn part(rows: &[u16], first: usize, end: usize, place: usize) -> usize
    requires { (first ≤ 512) × (end ≤ 512) }
    ensures lower_bound { (first ≤ result) × (result < 65536) }
    ensures by_index { (codes : List ℕ) (args : List ℤ) (s : Stmt) → HeldIn codes args rows.now s first end → Block s → has s first place ≡ true
        → Part codes args rows.now s first end place result }
{
    let mut at = first;
    while at < end {
        let next = entry(rows, row::ROW * at + row::END);
        if place < next {
            return at;
        }
        if next <= at {
            return at;
        }
        at = next;
    }
    at
}

// One number where a place lies before another, else another number.
fn pick(place: usize, other: usize, x: usize, y: usize) -> usize
    ensures { result ≡ cond (ltb place other) x y }
{
    if place < other { x } else { y }
}

// Where a resumed statement goes on once its part is passed: a while tests again, any other statement is passed.
fn again(kind: usize, at: usize, next: usize) -> usize
    ensures { result ≡ cond (eqb kind S.WHILE) at next }
{
    if kind == kind::WHILE { at } else { next }
}

// Where the statements whose rows are first .. end are resumed at their wait `place`: the statement with the wait is found, and of it the part with the wait.
fn inside(rows: &[u16], first: usize, end: usize, place: usize) -> Inside
    requires { (first ≤ end) × (end ≤ 512) }
    ensures inside_rows { inside_rows first end result }
    ensures resumes_at { ResumesAt rows.now first end place result }
{
    let at = part(rows, first, end, place);
    let next = entry(rows, row::ROW * at + row::END);
    if next <= at {
        return Inside::Nothing;
    }
    if end < next {
        return Inside::Nothing;
    }
    let kind = entry(rows, row::ROW * at);
    if kind == kind::WAIT {
        return Inside::Wait(next);
    }
    let other = entry(rows, row::ROW * at + row::OTHER);
    let a = pick(place, other, at + 1, other);
    let b = pick(place, other, other, next);
    if nested(at, a, b, next) {
        return Inside::Part(a, b, again(kind, at, next));
    }
    Inside::Nothing
}

// The statements whose rows are first .. end resumed at their wait `place`: the one with the wait is resumed, then those behind it are started.
pub(crate) fn resume(
    codes: &[u8],
    args: &[i32],
    rows: &[u16],
    first: usize,
    end: usize,
    place: usize,
    inputs: &[i32],
    outputs: &mut [i32],
    variables: &mut [i32],
) -> Progress
    requires { (first ≤ end) × (end ≤ 512) }
    ensures result_bound { counted result ≤ 512 * (end - first) }
    ensures resumes { Resumes codes.now args.now rows.now first end place inputs.now outputs.old variables.old result outputs.new variables.new }
{
    let p = inside(rows, first, end, place);
    match p {
        Inside::Nothing => Progress::Passed(0),
        Inside::Wait(from) => start(codes, args, rows, from, end, inputs, outputs, variables, 0),
        Inside::Part(a, b, from) => {
            let r = resume(codes, args, rows, a, b, place, inputs, outputs, variables);
            go_on(codes, args, rows, from, end, inputs, outputs, variables, r)
        }
    }
}
