//! Laws of the numbers of windows.

ghost use Rattle.std.specs.Prelude.{◌≡◌, ℕ, Bool, List, true};
ghost use Rattle.go_typed.specs.declared.window.Window.{Window as Run};
ghost use Rattle.go_typed.specs.Packages.{PackageView as Package};
ghost use Rattle.go_typed.specs.Trees.{Sort as Standing};
ghost use Rattle.clone_window.specs.Bodies.{same_in};
ghost use Rattle.alpha_hash_defs.specs.Alike.{AreAlike, HashesAgree, IsOneToOne};
ghost use Rattle.alpha_hash_defs.specs.Examples.{Examples};
ghost use Rattle.alpha_hash_defs.specs.Naming.{Naming};
ghost use Rattle.alpha_hash_defs.specs.Numbers.{words_hash};
ghost use Rattle.alpha_hash_defs.specs.Sharing.{IsLawful};
ghost use Rattle.alpha_hash_defs.specs.Words.{Word};

/// The numbers of some windows.
pub fn examples()
    ensures { Examples }
{}

/// Words that are alike, with locals that are related one to one, have one number.
pub fn words_that_are_alike_have_one_number()
    ensures { (related : ℕ → ℕ → Bool) → IsOneToOne related → (ws vs : List Word) → AreAlike related ws vs → words_hash ws ≡ words_hash vs }
{}

/// Windows whose nodes agree, and whose fields have the same names, have one number: also windows of two packages, where a test
/// tells which types are identical, identical types have one text, and an object has one name.
pub fn windows_that_are_the_same_have_one_number()
    ensures { (identical : ℕ → ℕ → Bool) (n m : Naming ℕ) (here there : List (Standing ℕ)) → HashesAgree identical n m here there }
{}

/// Under every lawful number windows of one package that are the same have one number, whatever the package.
pub fn windows_of_a_package_have_one_number()
    ensures { (number : Package → Run → ℕ) → IsLawful number → (p : Package) (w v : Run) → same_in p w v ≡ true → number p w ≡ number p v }
{}
