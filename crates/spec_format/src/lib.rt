#![tactic(auto)]
// Image, form 1, the state record and the table cycle of document 01, over lists of bytes. Definitions and theorems only; the code is in the crates above.
