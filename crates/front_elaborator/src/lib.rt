#![tactic(auto)]
// From the arrays of a parsed text to those of its design.
mod arrays;
pub mod items;
pub mod names;
pub mod rows;
