#![tactic(auto)]
// The grammar of document 01 over tokens: productions, derivations, limits, and the reader that is proved equal to them. Definitions and theorems only.
