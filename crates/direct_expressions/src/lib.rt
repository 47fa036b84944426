#![tactic(auto)]
// The value of a design's expression: its operations, which stand in arrays, performed on a stack of 64 values.
pub mod evaluation;
