// The three numbers of an answer: the refusal's number or 0, its place or 0, a count. Callers show that place and count have 32 bits, by spec_simulation/proofs/Places
// and by the theorem `places_fit` of the crate spec_promises; so the casts lose nothing.
ghost use Rattle.std.specs.Prelude.{◌≡◌, ℕ};
ghost use Rattle.base_answers.specs.Numbers.{Narrow, answer_numbers};

use crate::{Counts, Refusal, Sections};
use base_codes::record;

// What a call that was done tells as its count.
pub trait Counted {
    ghost count: { Self → ℕ };

    fn count(self) -> usize
        ensures { result ≡ count self };
}

// A compile: the number of image bytes written.
impl Counted for usize {
    ghost count = { λ n. n };

    fn count(self) -> usize {
        self
    }
}

// An image opened: nothing is counted.
impl Counted for Sections {
    ghost count = { λ _. 0 };

    fn count(self) -> usize {
        0
    }
}

// A cycle: the lines performed.
impl Counted for Counts {
    ghost count = { λ c. c.lines };

    fn count(self) -> usize {
        self.lines
    }
}

// A fresh state asked for, or many rows in one call: nothing is counted.
impl Counted for () {
    ghost count = { λ _. 0 };

    fn count(self) -> usize {
        0
    }
}

// The numbers of a call that was done or turned back.
pub fn answered<T: Counted>(answer: Result<T, Refusal>) -> [u32; record::ANSWER]
    requires { Narrow (answer_numbers T.count answer) }
    ensures { result ≡ answer_numbers T.count answer }
{
    match answer {
        Ok(done) => [0, 0, done.count() as u32],
        Err(r) => [r.number(), r.place() as u32, 0],
    }
}
