#![tactic(auto)]
// The numbers by which arrays and images hold things, each under one name. Where a definition speaks of such a number, specs/ has it under the same name.
pub mod declaration; // rows of declared names
pub mod fault; // why an expression has no value
pub mod image; // the bytes of an image
pub mod item; // items of expressions, as they are read
pub mod kind; // kinds of statements as indices
pub mod limit; // the limits of document 01, which are the sizes of arrays
pub mod operation; // operations of postfix code
pub mod record; // the state record and answers, as numbers
pub mod refusal; // the refusal of a row that cannot be read
pub mod statement; // rows of statements
pub mod token; // kinds of tokens
pub mod types; // types
