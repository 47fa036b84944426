#![tactic(auto)]
// Read first: what is claimed of every text, every image and every list of calls, and that it holds. Definitions and theorems only.
