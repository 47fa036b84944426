#![tactic(auto)]
// The design of an accepted text between the front end and what comes behind it: what it declares, in a struct by value; its statements and operations in lent arrays.
use base_codes::limit;

// The declared names of one kind in declared order: how many there are; the type of each, its initial value, and where its name starts in the text and how many
// bytes it has. The places behind the last are 0.
#[derive(Clone, Copy)]
pub struct Names {
    pub count: usize,
    pub types: [u8; limit::VARIABLES],
    pub values: [i32; limit::VARIABLES],
    pub starts: [u16; limit::VARIABLES],
    pub sizes: [u16; limit::VARIABLES],
}

// What a design declares, the clock left out, and how many statements and operations its arrays hold.
#[derive(Clone, Copy)]
pub struct Declared {
    pub statements: usize,
    pub operations: usize,
    pub inputs: Names,
    pub outputs: Names,
    pub variables: Names,
}
