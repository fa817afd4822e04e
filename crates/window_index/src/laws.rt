//! Laws, for the crates above. The functions do nothing: their contracts are the laws.

ghost use Rattle.std.specs.Prelude.{◌≡◌, ℕ, List, map, filter, true, ◌≤◌, Some};
ghost use Rattle.std.specs.List.Sorted.{IsPermutation};
ghost use Rattle.go_typed.specs.declared.window.Class.{Class as Group};
ghost use Rattle.go_typed.specs.declared.window.Window.{Window as Run};
ghost use Rattle.go_typed.specs.Packages.{PackageView as Package};
ghost use Rattle.clone_window.specs.declared.bounds.Bounds.{Bounds as Limits};
ghost use Rattle.clone_window.specs.Bodies.{bodies_of, same_in};
ghost use Rattle.clone_classes.specs.Choices.{place_of};
ghost use Rattle.clone_classes.specs.Classes.{Among};
ghost use Rattle.clone_classes.specs.Listing.{listing_in, members_of, windows_of_all};
ghost use Rattle.clone_classes.specs.Orders.{IsListed};
ghost use Rattle.window_index.specs.Buckets.{Bucket, groups_in, held, is_two};
ghost use Rattle.window_index.specs.Fitting.{Fits};
ghost use Rattle.window_index.specs.Orderly.{AreInOrder};
ghost use Rattle.go_package_defs.specs.Checked.{IsCheckedPackage};
ghost use Rattle.clone_window.specs.Spans.{ByteRange};
ghost use Rattle.clone_replies.specs.Classes.{bytes_over, listed_package, statements_in};

/// The groups of two windows or more of an index that holds exactly the windows of a package, listed in order, are its clone
/// classes. So it is under every number of windows that doesn't tell windows apart that are the same.
pub fn groups_are_the_classes()
    ensures { (number : Run → ℕ) (p : Package) (bounds : Limits) (buckets : List Bucket) (groups classes : List Group)
        → ((w v : Run) → same_in p w v ≡ true → number w ≡ number v)
        → Fits number (same_in p) (windows_of_all bounds 0 (bodies_of p.functions)) buckets
        → IsPermutation (windows_of_all bounds 0 (bodies_of p.functions)) (map (λ x. x.0) (held buckets))
        → AreInOrder (place_of (bodies_of p.functions)) (windows_of_all bounds 0 (bodies_of p.functions))
        → members_of groups ≡ filter is_two (groups_in buckets) → IsListed (place_of (bodies_of p.functions)) groups classes
        → members_of classes ≡ listing_in bounds p }
{}

/// Windows that an index holds stand in one group exactly where they are the same. So it is under every number of windows that
/// doesn't tell windows apart that are the same.
pub fn held_windows_stand_with_the_same()
    ensures alike { (number : Run → ℕ) (p : Package) (windows : List Run) (buckets : List Bucket) → Fits number (same_in p) windows buckets
        → (group : List Run) (w v : Run) → Among (groups_in buckets) group → Among group w → Among group v → same_in p w v ≡ true }
    ensures together { (number : Run → ℕ) (p : Package) (windows : List Run) (buckets : List Bucket) → ((w v : Run) → same_in p w v ≡ true → number w ≡ number v)
        → Fits number (same_in p) windows buckets → (group other : List Run) (w v : Run) → Among (groups_in buckets) group → Among (groups_in buckets) other
        → Among group w → Among other v → same_in p w v ≡ true → group ≡ other }
{}

/// The windows of a package that type-checks lie in ascending order by function, first and last token: no two of them have one place.
pub fn windows_lie_in_order()
    ensures { (p : Package) (bounds : Limits) → IsCheckedPackage p → 1 ≤ bounds.fewest →
        AreInOrder (place_of (bodies_of p.functions)) (windows_of_all bounds 0 (bodies_of p.functions)) }
{}

/// Each window of a package that type-checks has its bytes: those from its first token to its last one, in the file of its function.
pub fn windows_have_bytes()
    ensures { (p : Package) (bounds : Limits) (w : Run) → IsCheckedPackage p → 1 ≤ bounds.fewest → Among (windows_of_all bounds 0 (bodies_of p.functions)) w →
        (r : ByteRange) × (bytes_over p.files w.func (statements_in (listed_package p) w) ≡ Some r) }
{}
