#![tactic(auto)]
// The table's cycles are those of the equations, and what holds of every image that opens, compiled or not. Definitions and theorems only; the code is in the crates above.
