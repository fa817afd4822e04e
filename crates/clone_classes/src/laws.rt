//! Laws of sameness and of classes, where the test of identical types is an equivalence.

ghost use Rattle.std.specs.Prelude.{◌≡◌, ℕ, Bool, List, true, nat_eq};
ghost use Rattle.go_typed.specs.declared.window.Window.{Window as Run};
ghost use Rattle.go_typed.specs.Packages.{PackageView as Package};
ghost use Rattle.clone_window.specs.declared.bounds.Bounds.{Bounds as Limits};
ghost use Rattle.clone_window.specs.Sameness.{is_one_to_one};
ghost use Rattle.clone_classes.specs.Classes.{classes, Among, Agree, AllApart, IsEquivalent, Together};
ghost use Rattle.clone_classes.specs.Heads.{same_between};
ghost use Rattle.clone_classes.specs.Listing.{windows_of_all, listing};
ghost use Rattle.clone_window.specs.Bodies.{Body, are_same};
ghost use Rattle.clone_window.specs.Fields.{FieldNames};
ghost use Rattle.clone_classes.specs.Examples.{Examples};

/// Classes and listings of some windows, worked out by hand.
pub fn examples()
    ensures { Examples }
{}

/// Sameness is an equivalence on the windows of a package, whatever equivalence tells identical types, and whatever names fields have.
pub fn sameness_is_an_equivalence()
    ensures { (identical : ℕ → ℕ → Bool) → IsEquivalent identical → (fields : FieldNames ℕ) (bodies : List (Body ℕ)) → IsEquivalent (are_same identical fields fields bodies bodies) }
{}

/// Between packages sameness turns and joins as the tests of identical types do.
pub fn sameness_between_packages()
    ensures symmetric { (there back : ℕ → ℕ → Bool) → ((t u : ℕ) → there t u ≡ true → back u t ≡ true) → (n m : FieldNames ℕ) (here others : List (Body ℕ)) (w v : Run)
        → are_same there n m here others w v ≡ true → are_same back m n others here v w ≡ true }
    ensures transitive { (first second both : ℕ → ℕ → Bool) → ((t u v : ℕ) → first t u ≡ true → second u v ≡ true → both t v ≡ true)
        → (n m o : FieldNames ℕ) (one two three : List (Body ℕ)) (w v x : Run) → are_same first n m one two w v ≡ true → are_same second m o two three v x ≡ true
        → are_same both n o one three w x ≡ true }
{}

/// Sameness is an equivalence also of windows of packages with equal heads, where types correspond by the places of their
/// declarations.
pub fn sameness_under_equal_heads()
    ensures reflexive { (p : Package) (w : Run) → same_between p p w w ≡ true }
    ensures symmetric { (p q : Package) (w v : Run) → same_between p q w v ≡ true → same_between q p v w ≡ true }
    ensures transitive { (p q r : Package) (w v x : Run) → same_between p q w v ≡ true → same_between q r v x ≡ true → same_between p r w x ≡ true }
{}

/// Members of a class are windows, and each two of them are the same.
pub fn members_are_the_same()
    ensures windows { (fields : FieldNames ℕ) (bounds : Limits) (bodies : List (Body ℕ)) (class : List Run) → Among (listing nat_eq fields bounds bodies) class
        → (w : Run) → Among class w → Among (windows_of_all bounds 0 bodies) w }
    ensures alike { (fields : FieldNames ℕ) (bounds : Limits) (bodies : List (Body ℕ)) (class : List Run) → Among (listing nat_eq fields bounds bodies) class
        → (w v : Run) → Among class w → Among class v → are_same nat_eq fields fields bodies bodies w v ≡ true }
{}

/// Two windows that are the same stand in one class.
pub fn the_same_stand_together()
    ensures { (fields : FieldNames ℕ) (bounds : Limits) (bodies : List (Body ℕ)) (w v : Run) → (w ≡ v → ⊥) → are_same nat_eq fields fields bodies bodies w v ≡ true
        → Among (windows_of_all bounds 0 bodies) w → Among (windows_of_all bounds 0 bodies) v → Together (listing nat_eq fields bounds bodies) w v }
{}

/// No window stands in two classes.
pub fn no_window_stands_in_two()
    ensures { (fields : FieldNames ℕ) (bounds : Limits) (bodies : List (Body ℕ)) → AllApart (listing nat_eq fields bounds bodies) }
{}

/// Pairs are one to one exactly where each two of them have one first local just where they have one second local.
pub fn pairs_are_one_to_one()
    ensures agree { (pairs : List (ℕ × ℕ)) → is_one_to_one pairs ≡ true → (p q : ℕ × ℕ) → Among pairs p → Among pairs q → Agree p q }
    ensures only { (pairs : List (ℕ × ℕ)) → ((p q : ℕ × ℕ) → Among pairs p → Among pairs q → Agree p q) → is_one_to_one pairs ≡ true }
{}
