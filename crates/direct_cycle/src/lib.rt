#![tactic(auto)]
// The direct run of a design in arrays: rows and states judged, then a cycle by the structure of its statements; no table and no image.
pub mod calls;
mod checks;
