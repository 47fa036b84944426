// What is printed of answers, rows and states.
use base_answers::{Counts, Refusal, State};
use base_files::shown::{Record, Refused, Spaced};
use std::io;

pub(crate) fn refusal(rt: &impl Print, r: Refusal) -> io::Result<()> {
    rt.print(Refused {
        number: r.number(),
        place: r.place(),
    })
}

// An answer that tells nothing where the call was done.
pub(crate) fn done(rt: &impl Print, answer: Result<(), Refusal>) -> io::Result<()> {
    match answer {
        Ok(()) => Ok(()),
        Err(r) => refusal(rt, r),
    }
}

// An answer that counts something: the bytes of an image, the lines of a cycle.
pub(crate) fn counted(rt: &impl Print, answer: Result<usize, Refusal>) -> io::Result<()> {
    match answer {
        Ok(n) => print!(rt; " {n}"),
        Err(r) => refusal(rt, r),
    }
}

pub(crate) fn cycled(rt: &impl Print, answer: Result<Counts, Refusal>) -> io::Result<()> {
    counted(rt, answer.map(|counts| counts.lines))
}

// The three numbers of each row.
pub(crate) fn answers_of(rt: &impl Print, numbers: &[u32]) -> io::Result<()> {
    rt.print(" answers")?;
    for n in numbers {
        print!(rt; " {n}")?;
    }
    Ok(())
}

pub(crate) fn row(rt: &impl Print, row: &[i32]) -> io::Result<()> {
    let values = Spaced(row);
    print!(rt; " row{values}")
}

pub(crate) fn state(rt: &impl Print, s: &State) -> io::Result<()> {
    rt.print(Record {
        place: s.place,
        outputs: &s.outputs,
        variables: &s.variables,
    })
}
