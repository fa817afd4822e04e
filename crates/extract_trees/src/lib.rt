//! What becomes of typed trees when statements are taken out into a function of their own: the statements as they stand there, and
//! the functions in which other statements take their place.
#![tactic(auto)]

pub mod laws;
