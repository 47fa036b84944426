#![tactic(auto)]
// The language of document 01: which texts are accepted, what they mean, and where each refusal of stages 1 to 9 stands. Definitions and theorems only.
