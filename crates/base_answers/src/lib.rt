#![tactic(auto)]
// What the public operations take and answer: the state record, the refusals of document 01's table, and what a call that was done tells; each answers a `Result`.
pub mod numbers;

ghost use Rattle.std.specs.Prelude.{◌≡◌, ℕ, Err};
ghost use Rattle.base_codes.specs.Fault.{number_of as fault_number};
ghost use Rattle.base_answers.specs.Answers.{number_of, place_of, operator_refusal};

use base_codes::fault::Fault;
use base_codes::limit;

// The row "zero divisor" of the table.
const ZERO_DIVISOR: u8 = 18;

// "A place (512 for the beginning, else a wait's line), 16 output and 32 variable slots".
#[derive(Clone, Copy, Debug, PartialEq, Eq)]
pub struct State {
    pub place: u16,
    pub outputs: [i32; limit::OUTPUTS],
    pub variables: [i32; limit::VARIABLES],
}

// Why a call was turned back: a variant for each row of the table, in its order, with the refusal's place where that is not always 0.
// Later requests add their rows (19 to 24) at the end.
#[derive(Clone, Copy, Debug, PartialEq, Eq)]
pub enum Refusal {
    TextTooLong,
    NoToken(usize),
    NoSentence(usize),
    LimitPassed(usize),
    WrongName(usize),
    WrongType(usize),
    NoValue(usize),
    WrongClock(usize),
    WrongClass(usize),
    BufferTooShort(usize),
    BadSections,
    BadSignature,
    BadLine(usize),
    BadRow(usize),
    BadState,
    OutOfRange(usize),
    BadLengths,
    ZeroDivisor(usize),
}

// Where the sections of an opened image start, and where the last ends: signature, lines, code.
#[derive(Clone, Copy, Debug, PartialEq, Eq)]
pub struct Sections {
    pub signature: usize,
    pub lines: usize,
    pub code: usize,
    pub end: usize,
}

// What a performed cycle counted: the lines, the wait it ends on included.
#[derive(Clone, Copy, Debug, PartialEq, Eq)]
pub struct Counts {
    pub lines: usize,
}

// The answer of a cycle, of an image or of a text, and the state after it.
#[derive(Clone, Copy)]
pub struct Advanced {
    pub state: State,
    pub answer: Result<Counts, Refusal>,
}

// The answer to a fresh state asked for, and the state.
#[derive(Clone, Copy)]
pub struct FreshState {
    pub state: State,
    pub answer: Result<(), Refusal>,
}

// What tells by which row of the table an operator is refused: a fault, or the row's number itself.
pub trait Numbered {
    ghost number: { Self → ℕ };

    fn number(self) -> u8
        ensures { result ≡ number self };
}

impl Numbered for Fault {
    ghost number = { fault_number };

    fn number(self) -> u8 {
        match self {
            Fault::NoExpression => 13,
            Fault::OutOfRange => 16,
            Fault::ZeroDivisor => ZERO_DIVISOR,
        }
    }
}

impl Numbered for u8 {
    ghost number = { λ n. n };

    fn number(self) -> u8 {
        self
    }
}

// The refusal of an operator on a line: 18 for a zero divisor, else 16.
pub fn operator_refusal<N: Numbered>(why: N, line: usize) -> Refusal
    ensures { result ≡ operator_refusal (N.number why) line }
{
    if why.number() == ZERO_DIVISOR {
        return Refusal::ZeroDivisor(line);
    }
    Refusal::OutOfRange(line)
}

// A refused cycle: the state as it came.
pub fn refused(s: State, r: Refusal) -> Advanced
    ensures { result ≡ record { state = s; answer = Err r } }
{
    Advanced {
        state: s,
        answer: Err(r),
    }
}

impl Refusal {
    // The refusal's number in the table.
    pub fn number(self) -> u32
        ensures { result ≡ number_of self }
    {
        match self {
            Refusal::TextTooLong => 1,
            Refusal::NoToken(_) => 2,
            Refusal::NoSentence(_) => 3,
            Refusal::LimitPassed(_) => 4,
            Refusal::WrongName(_) => 5,
            Refusal::WrongType(_) => 6,
            Refusal::NoValue(_) => 7,
            Refusal::WrongClock(_) => 8,
            Refusal::WrongClass(_) => 9,
            Refusal::BufferTooShort(_) => 10,
            Refusal::BadSections => 11,
            Refusal::BadSignature => 12,
            Refusal::BadLine(_) => 13,
            Refusal::BadRow(_) => 14,
            Refusal::BadState => 15,
            Refusal::OutOfRange(_) => 16,
            Refusal::BadLengths => 17,
            Refusal::ZeroDivisor(_) => 18,
        }
    }

    // The refusal's place.
    pub fn place(self) -> usize
        ensures { result ≡ place_of self }
    {
        match self {
            Refusal::NoToken(p)
            | Refusal::NoSentence(p)
            | Refusal::LimitPassed(p)
            | Refusal::WrongName(p)
            | Refusal::WrongType(p)
            | Refusal::NoValue(p)
            | Refusal::WrongClock(p)
            | Refusal::WrongClass(p)
            | Refusal::BufferTooShort(p)
            | Refusal::BadLine(p)
            | Refusal::BadRow(p)
            | Refusal::OutOfRange(p)
            | Refusal::ZeroDivisor(p) => p,
            Refusal::TextTooLong
            | Refusal::BadSections
            | Refusal::BadSignature
            | Refusal::BadState
            | Refusal::BadLengths => 0,
        }
    }
}
