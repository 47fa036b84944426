#![tactic(auto)]
// The scanner: what starts at a place of a text, a gap or a token with its kind, and the bytes that decide it.
pub mod bytes;
pub mod kinds;
mod marks;
pub mod pieces;
mod runs;
mod words;
