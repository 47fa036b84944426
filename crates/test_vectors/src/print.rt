// What is printed of answers and states.
use base_answers::{Counts, Refusal, State};
use base_files::shown::{Record, Refused};
use std::io;

pub(crate) fn refusal(rt: &impl Print, r: Refusal) -> io::Result<()> {
    rt.print(Refused {
        number: r.number(),
        place: r.place(),
    })
}

pub(crate) fn cycled(rt: &impl Print, answer: Result<Counts, Refusal>) -> io::Result<()> {
    match answer {
        Ok(counts) => {
            let lines = counts.lines;
            print!(rt; " {lines}")
        }
        Err(r) => refusal(rt, r),
    }
}

pub(crate) fn state(rt: &impl Print, s: &State) -> io::Result<()> {
    rt.print(Record {
        place: s.place,
        outputs: &s.outputs,
        variables: &s.variables,
    })
}
