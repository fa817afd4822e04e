//! Laws, for the crates above. The functions do nothing: their contracts are the laws.

ghost use Rattle.std.specs.Prelude.{◌≡◌, ℕ, Bool, true, false, ◌<◌, suc, List};
ghost use Rattle.go_grammar.specs.Trees.{Tree};
ghost use Rattle.go_exprs_rules.specs.Scopes.{Scope, Hint, in_full, at_once};
ghost use Rattle.go_types.specs.Relations.{Rights};
ghost use Rattle.go_package_laws.specs.Names.{EachNeed, ExpressionAgrees, limited_ways, type_ways, is_type_hint, IsSameType};
ghost use Rattle.go_package_laws.specs.Reach.{AgreeOn, HintWithin, Standing, IsTypedSo};
ghost use Rattle.go_tree.specs.Needs.{Needed};
ghost use Rattle.go_tree.specs.Uses.{UsesView};
ghost use Rattle.go_package_defs.specs.Knowledge.{Outline, State, outlines};
ghost use Rattle.go_package_defs.specs.Answer.{specifications, answer_on, package_answer};
ghost use Rattle.go_package_defs.specs.Sources.{Source, Package, package_of, rounds, needed_by};
ghost use Rattle.go_package_defs.specs.Verdicts.{known};
ghost use Rattle.go_package_laws.specs.Stages.{AreStaged};
ghost use Rattle.go_package_laws.specs.Ranks.{Ranks, AreFound, AreAtMost, AllBefore, Falls, IsBound};
ghost use Rattle.go_exprs_rules.specs.Typing.{faults};
ghost use Rattle.go_package_laws.specs.Places.{EachNode, EachOf};

/// Of right sides the typing of an expression of a declaration reads those alone that it reaches through the types that its names
/// stand for: where right sides agree on these, and the names that stand in it stand for the same, it is typed the same, and the
/// same rules fail in it.
pub fn expressions_agree()
    ensures { (within : ℕ → Bool) (s : Scope) (new : Rights) (r : Standing) (h : Hint) (t : Tree) →
        s.needed ≡ in_full → AgreeOn within s.rights new → ExpressionAgrees within s r t → HintWithin within h → IsTypedSo within s new r h t }
{}

/// The same of the right side of a type, by the names that stand in it and the ways in which it needs them. Where no limit on scalars is
/// judged, right sides count at the names in lengths alone.
pub fn types_agree()
    ensures limited { (within : ℕ → Bool) (s : Scope) (new : Rights) (r : Standing) (h : Hint) (t : Tree) →
        s.needed ≡ at_once → AgreeOn within s.rights new → EachNeed (limited_ways within s r) h t → HintWithin within h → IsTypedSo within s new r h t }
    ensures unlimited { (within : ℕ → Bool) (s : Scope) (new : Rights) (r : Standing) (h : Hint) (t : Tree) →
        s.needed ≡ at_once → s.limits ≡ false → AgreeOn within s.rights new → is_type_hint h ≡ true → EachNeed (type_ways within s r) h t → IsSameType s new r h t }
{}

/// Where states of the objects are found one behind the other, each by those that it needs, they are what is known after as many rounds
/// as the greatest of their ranks, and further rounds change nothing.
pub fn rounds_settle()
    ensures known { (p : Package) (os : List Outline) (found : List State) (ranks : Ranks) (k : ℕ) → AreFound p os found ranks → AreAtMost ranks k → known p os k ≡ found }
    ensures answer { (ss : List Source) (u : UsesView) (found : List State) (ranks : Ranks) → let p = package_of ss u in let ds = specifications 0 ss in
        AreFound p (outlines p ds) found ranks → AreAtMost ranks (rounds p) → package_answer ss u ≡ answer_on p ds (outlines p ds) found }
    ensures further { (p : Package) (os : List Outline) (found : List State) (ranks : Ranks) (k : ℕ) → AreFound p os found ranks → AreAtMost ranks k → known p os (suc k) ≡ known p os k }
{}

/// Where a further round finds the same states, and the names of each object are known before it by stages, with all right sides that the
/// types reach that they stand for, these states are what is known after as many rounds as the greatest of the stages.
pub fn stages_settle()
    ensures { (p : Package) (os : List Outline) (found : List State) (s : Ranks) (k : ℕ) → AreStaged p os found s → AreAtMost s k → known p os k ≡ found }
{}

/// All that a declaration needs, at once or through others, has a rank below k, where one number for each declaration and way of needing
/// bounds the ranks, doesn't rise from one to what it needs at once, and is below k at first.
pub fn needs_come_before()
    ensures { (p : Package) (f : ℕ → ℕ) (g : Needed → ℕ) (k : ℕ) (x : Needed) → Falls p g → IsBound p f g → g x < k → AllBefore f k (needed_by p x) }
{}

/// A rule fails at the tokens of a node: what holds of the places of all nodes holds of those of all faults.
#[tactic(auto, using(crate::proofs::Typings::faults_at_nodes))]
pub fn faults_stand_at_nodes()
    ensures { (q : ℕ → ℕ → Bool) (s : Scope) (h : Hint) (t : Tree) → EachNode q t → EachOf q (faults s h t) }
{}
