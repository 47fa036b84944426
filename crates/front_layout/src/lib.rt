#![tactic(auto)]
// What the arrays between the stages of the front end hold: tokens, items, statements, declared names, owners. The readers write them, the stages read them. Definitions and theorems only.
