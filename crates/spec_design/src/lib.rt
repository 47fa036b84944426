#![tactic(auto)]
// What an accepted text means, as data: types, expressions, statements, processes. Definitions and theorems only; the code is in the crates above.
