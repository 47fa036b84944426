#![tactic(auto)]
// What a cycle does before and after it follows the lines of an image that was opened: rows and state judged (refusals 14 and 15), the fresh
// state, the output row. Every function takes sections as the opener lends them out, and its promise holds for the table that they open to.
pub mod signature; // counts, types and initial values by position
pub mod rows; // refusal 14, and the output row
pub mod states; // refusal 15, and the fresh state
pub mod lines; // where a cycle begins
pub mod types; // the type bytes that code is evaluated over
