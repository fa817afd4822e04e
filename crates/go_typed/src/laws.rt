//! Laws of typed trees.

ghost use Rattle.std.specs.Prelude.{◌≡◌, ℕ, ◌+◌, ◌<◌, ◌≤◌, ◌++◌, true, List, Some, Option, length, map, slice_get};
ghost use Rattle.go_tree.specs.declared.context.Entity.TheVariants as entity;
ghost use Rattle.go_tree.specs.declared.object.Declared.{Declared};
ghost use Rattle.go_types.specs.Trees.{TypeTree};
ghost use Rattle.go_typed.specs.declared.walk.LocalUse.{LocalUse};
ghost use Rattle.go_typed.specs.Contents.{Content, IsPackageOf};
ghost use Rattle.go_typed.specs.Examples.{Examples};
ghost use Rattle.go_typed.specs.Funcs.{is_tiled, is_whole, named_at, size};
ghost use Rattle.go_typed.specs.Lists.{statement_lists};
ghost use Rattle.go_typed.specs.Packages.{Counts, counted, counts_from, referents_from, without_function};
ghost use Rattle.go_typed.specs.Places.{covers, innermost, IsInnermost};
ghost use Rattle.go_typed.specs.Trees.{Typed, mapped};
ghost use Rattle.go_typed.specs.Windows.{uses_from};

/// What the definitions say of a small function, worked out by hand.
pub fn examples()
    ensures { Examples }
{}

/// Where parts lie one after the other, the node that the walk finds stands over the token, and each other node that does has it
/// inside.
pub fn innermost_nodes()
    ensures { (x : Typed ℕ) (t : ℕ) → is_tiled x ≡ true → covers x t ≡ true → IsInnermost x t (innermost t x) }
{}

/// The uses of a range are those of its tokens that name a local, each once, in the order of tokens.
pub fn uses_of_a_range()
    ensures from { (tokens : List (Option ℕ)) (i n k : ℕ) (u : LocalUse) → slice_get (uses_from tokens i n) k ≡ Some u → i ≤ u.token }
    ensures to { (tokens : List (Option ℕ)) (i n k : ℕ) (u : LocalUse) → slice_get (uses_from tokens i n) k ≡ Some u → u.token < i + n }
    ensures named { (tokens : List (Option ℕ)) (i n k : ℕ) (u : LocalUse) → slice_get (uses_from tokens i n) k ≡ Some u → named_at tokens u.token ≡ Some u.local }
    ensures all { (tokens : List (Option ℕ)) (i n t m : ℕ) → i ≤ t → t < i + n → named_at tokens t ≡ Some m → (k : ℕ) × (slice_get (uses_from tokens i n) k ≡ Some (record { local = m; token = t })) }
    ensures order { (tokens : List (Option ℕ)) (i n j k : ℕ) (u v : LocalUse) → slice_get (uses_from tokens i n) j ≡ Some u → slice_get (uses_from tokens i n) k ≡ Some v → j < k → u.token < v.token }
{}

/// What numbers stand for types changes nothing else of a tree.
pub fn trees_over_other_words_for_types()
    ensures tiled { (g : ℕ → TypeTree) (x : Typed ℕ) → is_tiled (mapped g x) ≡ is_tiled x }
    ensures whole { (g : ℕ → TypeTree) (tokens : List (Option ℕ)) (x : Typed ℕ) → is_whole tokens (mapped g x) ≡ is_whole tokens x }
    ensures size { (g : ℕ → TypeTree) (x : Typed ℕ) → size (mapped g x) ≡ size x }
    ensures innermost { (g : ℕ → TypeTree) (t : ℕ) (x : Typed ℕ) → innermost t (mapped g x) ≡ innermost t x }
    ensures lists { (g : ℕ → TypeTree) (x : Typed ℕ) → statement_lists (mapped g x) ≡ map (mapped g) (statement_lists x) }
{}

/// A package is itself, and what is one package with another is one with a third that this is one with.
pub fn packages_under_other_numbers()
    ensures itself { (c : Content) → IsPackageOf c c }
    ensures both { (c d e : Content) → IsPackageOf c d → IsPackageOf d e → IsPackageOf c e }
{}

/// A further function moves the numbers of functions behind it alone.
pub fn referents_by_sort()
    ensures in_order { (c : Counts) (ds es : List Declared) → referents_from c (ds ++ es) ≡ referents_from c ds ++ referents_from (counts_from c ds) es }
    ensures further_function { (c : Counts) (ds : List Declared) → map without_function (referents_from (counted c entity.Function) ds) ≡ map without_function (referents_from c ds) }
{}
