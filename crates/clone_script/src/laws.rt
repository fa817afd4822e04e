//! Laws of the commands' spellings.
ghost use Rattle.std.specs.Prelude.{◌≡◌, ◌≤◌, ◌+◌, ◌⊎◌, ℕ, List, [], ◌∷◌, ◌++◌, length, codes};
ghost use Rattle.clone_script.specs.declared.command.Command.{Command};
ghost use Rattle.clone_script.specs.declared.command.Command.TheVariants as command;
ghost use Rattle.clone_script.specs.declared.choice.Choice.TheVariants as choice;
ghost use Rattle.clone_script.specs.Reading.{bad, more};
ghost use Rattle.clone_script.specs.Script.{Outcome, HasOutcome};
ghost use Rattle.clone_script.specs.Examples.{Takes, TakesNone};
ghost use Rattle.clone_script.specs.Commands.{most_line};
ghost use Rattle.clone_script.specs.Grammar.{Fits, spelling, longest_line, behind_line, Spells, BeginsWith, IsBeginning, IsBad};

/// No spelling of a command is a proper beginning of another one.
#[tactic(auto, using(crate::proofs::Outcomes::prefix_free))]
pub fn prefix_free()
    ensures { (c d : Command) (rest : List ℕ) → Fits c → Fits d → spelling c ≡ spelling d ++ rest → rest ≡ [] }
{}

/// Bytes spell at most one command.
pub fn spelled_once()
    ensures { (bytes : List ℕ) (c d : Command) → Spells bytes c → Spells bytes d → c ≡ d }
{}

/// Bytes begin with at most one command.
pub fn one_command()
    ensures { (bytes : List ℕ) (c d : Command) (x y : List ℕ) → BeginsWith bytes c x → BeginsWith bytes d y → (c ≡ d) × (x ≡ y) }
{}

/// Bytes begin with a command, or are the beginning of one and not the whole of it, or are bad, and no two of these.
pub fn three_ways()
    ensures some { (bytes : List ℕ) → ((c : Command) × (rest : List ℕ) × BeginsWith bytes c rest) ⊎ (IsBeginning bytes ⊎ IsBad bytes) }
    ensures apart { (bytes : List ℕ) (c : Command) (rest : List ℕ) → BeginsWith bytes c rest → IsBeginning bytes → ⊥ }
{}

/// A command's line, its newline included, has 291 bytes at most, and that of `extract` as many as the limit on lines says. So all are
/// within this limit.
#[tactic(auto, using(crate::proofs::Lines::short_lines, crate::proofs::Lines::lines_within))]
pub fn short_lines()
    ensures longest { (c : Command) → Fits c → length (spelling c) ≤ longest_line c + behind_line c }
    ensures within { (c : Command) → longest_line c ≤ most_line }
{}

/// A script has exactly one outcome: done, bad at an offset, or too long.
pub fn one_outcome()
    ensures some { (script : List ℕ) → (o : Outcome) × HasOutcome script o }
    ensures one { (script : List ℕ) (a b : Outcome) → HasOutcome script a → HasOutcome script b → a ≡ b }
{}

/// Worked examples.
pub fn examples()
    ensures classes { Takes (codes "classes\n") command.Classes 8 }
    ensures maximal { Takes (codes "maximal\n") command.Maximal 8 }
    ensures edit { Takes (codes "edit a.go 67 68 0\n\n") (command.Edit (codes "a.go") 67 68 []) 19 }
    ensures add { Takes (codes "add b.go 13\npackage main\n\nquit\n") (command.Add (codes "b.go") (codes "package main\n")) 26 }
    ensures save { Takes (codes "save\n") command.Save 5 }
    ensures run { Takes (codes "run 100 2\nAB\n") (command.Run 100 (codes "AB")) 13 }
    ensures turns { TakesNone (codes "run 1000000001 0\n\n") bad }
    ensures begun { TakesNone (codes "clas") more }
    ensures cut_off { TakesNone (codes "edit main.go 0 0 10\nabcd") more }
    ensures extract_all { Takes (codes "extract 1 h all\n") (command.Extract 1 (codes "h") choice.All) 16 }
    ensures extract_some { Takes (codes "extract 2 addmul 3 1 20\n") (command.Extract 2 (codes "addmul") (choice.Members (3 ∷ 1 ∷ 20 ∷ []))) 24 }
    ensures extract_none { TakesNone (codes "extract 1 h \n") bad }
    ensures extract_blanks { TakesNone (codes "extract 1 h 1  2\n") bad }
    ensures extract_blank_behind { TakesNone (codes "extract 1 h 1 \n") bad }
    ensures extract_begun { TakesNone (codes "extract 1 h 1 2") more }
    ensures extract_both { TakesNone (codes "extract 1 h all 1\n") bad }
    ensures begun_too { TakesNone (codes "maxima") more }
    ensures misspelled { TakesNone (codes "clases\n") bad }
    ensures blank { TakesNone (codes "quit \n") bad }
    ensures zero { TakesNone (codes "edit a.go 067 68 0\n\n") bad }
{}
