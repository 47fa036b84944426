#![tactic(auto)]
// Read before any contract: the definitions of the public operations, what a caller in Rattle or C is told and lent, and laws of these. Definitions and theorems only.
