//! Typing where variables stand in place of constants.
//!
//! A constant expression of the final type T that is as large as can be (a hole) becomes the name of a variable of type T. What
//! an operand stands for changes in one of two ways: a constant of T becomes a value of T; or what is untyped, and takes T from
//! the node above, is a value of T at once. Nothing else changes, since a constant expression above a hole would be the hole.
//! So at each node no part is replaced, or the node isn't constant.
//!
//! Which rules look at constants, and what a variable does there:
//!
//! - a constant divisor 0, a constant index out of its bounds or negative, a negative count of a shift, bounds out of order, a
//!   result out of range: a variable has no value, so fewer fail;
//! - the type in which operands meet, or are compared: an untyped operand takes the type of the other one, which is the
//!   variable's; two untyped ones meet in a kind, and the variable has the type that both take later, or the default type;
//! - constants that a type doesn't represent: those beside the variable are as they were, and the node above has judged them;
//! - whether an operator has operands of a family, what is printed, what is an index or a count: the type is of the constant's
//!   family;
//! - conversions: where a constant keeps its value or becomes a text the conversion is constant, so it is the hole; else it is
//!   that of a value, which converts where the constant did;
//! - `len` and `cap`: the length of a constant text is the hole, and that of an array asks for its type and for calls, and a
//!   constant calls nothing;
//! - `min` and `max`: arguments meet one after the other, and the variable has the type in which all meet; no variable stands among
//!   constants alone whose result isn't constant, since it lies beyond untyped numbers, as then the others are judged by its type;
//! - values that are given to variables, arguments, elements, results: the variable has the type that the constant took;
//! - places: a variable is a value wherever a constant is.
//!
//! Lengths of arrays, keys, and declarations of constants have no holes.
#![tactic(auto)]

pub mod laws;
