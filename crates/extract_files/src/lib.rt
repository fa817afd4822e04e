//! Files behind an extraction: the new function's statements are those of the template with names in place of constants, and a file with
//! calls at its windows and the function behind it has the tokens and the tree that these make of the old ones.
#![tactic(auto)]

pub mod laws;
