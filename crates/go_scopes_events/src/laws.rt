//! Laws of what the tree of a file has to do with names.

ghost use Rattle.std.specs.Prelude.{◌≡◌, ℕ, false, List, None, map};
ghost use Rattle.go_tokens.specs.declared.token.TokenKind.{TokenKind};
ghost use Rattle.go_grammar.specs.Grammar.{IsFile};
ghost use Rattle.go_grammar.specs.Trees.{Tree, last};
ghost use Rattle.go_tree.specs.declared.context.Context.{Context};
ghost use Rattle.go_tree.specs.declared.context.Site.TheVariants as site;
ghost use Rattle.go_tree.specs.Contexts.{file_context};
ghost use Rattle.go_tree.specs.Events.{events};
ghost use Rattle.go_tree.specs.Meanings.{meanings};
ghost use Rattle.go_tree.specs.Units as names;
ghost use Rattle.go_scopes_events.specs.Functions.{functions_told, function_names};
ghost use Rattle.go_scopes_events.specs.Moved.{moved, moved_context, moved_event};
ghost use Rattle.go_scopes_events.specs.Inside.{LocalsInside, nowhere};
ghost use Rattle.go_scopes_events.specs.Orders.{AreInOrder, EachDeclared, LocalsFollow};
ghost use Rattle.go_scopes_events.specs.Scoped.{IsScoped};
ghost use Rattle.go_scopes_events.specs.Sited.{EachUsed, IsSited};
ghost use Rattle.go_scopes_events.specs.Scopes.{AreNested, AreSwept, IsOrderly, AreOrderly, locals_of};

/// The names that are declared or looked up stand in the order of their tokens.
pub fn names_are_in_order()
    ensures { (ts : List TokenKind) (t : Tree) → IsFile ts t → AreInOrder 0 (last t) (events (file_context (last t)) t) }
{}

/// Each declared name has the scope that the specification of Go gives it by its place in the tree: a constant or variable
/// behind its specification or statement, a name of a range behind the operand, and a type from its name on, up to the end of
/// the innermost block; and a parameter in the body of its function (Go specification: Declarations and scope).
pub fn scopes_stand_in_trees()
    ensures { (ts : List TokenKind) (t : Tree) → IsFile ts t → EachDeclared (IsScoped (last t) t) (events (file_context (last t)) t) }
{}

/// Locals are declared behind a function of the package.
pub fn locals_stand_in_functions()
    ensures { (ts : List TokenKind) (t : Tree) → IsFile ts t → LocalsFollow false (events (file_context (last t)) t) }
{}

/// Each local stands inside the last function in front of it, and its scope ends there.
pub fn locals_stand_inside_functions()
    ensures { (ts : List TokenKind) (t : Tree) → IsFile ts t → LocalsInside nowhere (events (file_context (last t)) t) }
{}

/// What the tree of a file tells has names in order, scopes that nest, and no locals in front of its functions.
pub fn files_are_orderly()
    ensures { (ts : List TokenKind) (t : Tree) → IsFile ts t → IsOrderly (events (file_context (last t)) t) }
{}

/// The functions that the tree of a file declares are its functions, in order of place.
pub fn functions_are_told_in_order()
    ensures { (ts : List TokenKind) (t : Tree) → IsFile ts t → functions_told (events (file_context (last t)) t) ≡ function_names t }
{}

/// Each name that is looked up stands in the part of a declaration that its place in the tree says: so a constant or variable
/// needs what its type and its own expression name, a function what its signature names, and a type what its right side names,
/// with the elements of slices and function types apart. This holds of any tree.
pub fn names_stand_in_parts_of_declarations()
    ensures { (t : Tree) → EachUsed (IsSited None site.Elsewhere t) (events (file_context (last t)) t) }
{}

/// Where the tokens of a tree stand further on, it tells the same of tokens that stand so much further on. This holds of any
/// tree in any context.
pub fn moved_trees_tell_the_same()
    ensures { (n : ℕ) (c : Context) (t : Tree) → events (moved_context n c) (moved n t) ≡ map (moved_event n) (events c t) }
{}

/// The local meanings of a file stand in order, and their scopes nest.
pub fn locals_are_in_order()
    ensures { (us : List names.Unit) → AreOrderly us → (n : ℕ) → AreSwept 0 (locals_of n (meanings us)) × AreNested (locals_of n (meanings us)) }
{}
