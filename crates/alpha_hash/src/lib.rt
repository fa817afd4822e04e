//! The rolling hash of windows.
//!
//! `AlphaHash` gives each window the number that the definitions of alpha_hash_defs say, which tells neither names of locals nor
//! constants of holes apart. A statement's words are the same whichever window it stands in; only the places of its locals are not.
//! So the words of statements are taken once for each list, when its first window is met, and the numbers of all windows from one
//! start follow in one pass over the words of at most 32 statements. The numbers are kept by their starts, since windows of lists
//! within a statement stand between those of its own list; the words are not kept, as each list has those of all lists within it.
#![tactic(auto)]

pub mod alpha;
mod list_words;
mod names;
mod numbered;
mod numbers;
mod own;
mod rolling;
mod start;
mod starts;
mod texts;
mod word;
mod words;
