//! Laws, for the crates above. The functions do nothing: their contracts are the laws.

ghost use Rattle.go_stmts_tokens.specs.Lying.{ReadNodesLie};

/// The nodes of what is read of a derivation lie in the order of their tokens: each has a token at least, those of its parts are among its own,
/// and each part stands behind those in front of it. So it is with types and with declarations of constants too (Go specification: Statements,
/// Expressions, Types). It doesn't matter what names stand for, nor whether a rule fails.
///
/// The tokens are counted from any token at or in front of the first one, as a function's are from its own first one.
pub fn read_nodes_lie_in_order()
    ensures { ReadNodesLie }
{}
