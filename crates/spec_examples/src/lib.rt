#![tactic(auto)]
// Worked examples: texts that take long to compute, and texts followed through several crates. Theorems only.
