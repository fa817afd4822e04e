//! The tokens of the Go profile.
//!
//! `lex` reads the bytes of a file. It answers the tokens and comments of the file exactly where a
//! lexing exists, and then that one, which is the only one; else it answers the file's one fault,
//! with its place. A lexing cuts the whole text into white space, comments and tokens, each the
//! longest that begins at its place, and inserts semicolons at the ends of lines. The definitions
//! stand in specs/: `Characters`, `Spellings`, `Literals`, `Pieces`, `Lexing`, `Encoding`, `Files`.
//!
//! `value` has the values of literals by the bytes of their tokens (specs/ `Literals`, `Values`).
//!
//! `laws` has what the crates above use: a file has one lexing or one fault, the tokens of a text of
//! which ranges are replaced are the old ones with those ranges replaced, and pieces that are printed
//! apart are read again as those pieces (specs/ `Replacing`, `Editing`).
#![tactic(auto)]

mod character;
mod encoding;
pub mod error;
mod judge;
pub mod laws;
pub mod lex;
mod lexer;
pub mod literal;
pub mod piece;
mod placed;
mod scan;
mod spelling;
pub mod token;
pub mod tokens;
pub mod value;
