#![tactic(auto)]
// What an accepted text means, row by row: expressions, statements, cycles, rows. Definitions and theorems only; the code is in the crates above.
