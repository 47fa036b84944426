#![tactic(auto)]
// What a text does, call by call, without an image. Definitions and theorems only; the code is in direct_cycle and direct_runtime.
