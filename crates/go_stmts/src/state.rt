//! What is known around a statement.
ghost use Rattle.std.specs.Prelude.{◌≡◌, ℕ, length};
ghost use Rattle.go_types.specs.Tables.{Table};
ghost use Rattle.go_exprs_types.specs.Naming.{names, text_in, KnownScope};
ghost use Rattle.go_typed.specs.Scopes.{KnownLocals};
ghost use Rattle.go_stmts.specs.State.{text_of, names_in, KnownSurroundings};

use go_exprs_rules::Basics;
use go_exprs_types::Scope;
use go_tokens::tokens::Tokens;
use go_tree::node::Node;
use go_tree::uses::Uses;
use go_typed::{Env, Locals, Sort};
use go_types::TypeId;

/// What surrounds a body: the tokens of its file, counted from the number `base` on, what each of them means, what the objects of
/// the package stand for, and the numbers of the predeclared types that rules give. Of the locals of the function that are types,
/// `types` has the numbers.
#[derive(Clone, Copy)]
pub struct Surroundings<'a> {
    pub tokens: &'a Tokens,
    pub uses: &'a Uses,
    pub env: &'a Env,
    pub basics: Basics,
    pub base: u32,
    pub types: &'a [Option<TypeId>],
}

/// What changes from one statement to the next: what the locals stand for that are declared so far, the value of `iota`, and what a
/// specification of constants without values repeats.
#[derive(Drop)]
pub struct State<'a> {
    pub locals: Locals,
    pub source: Option<&'a Node>,
}

/// What encloses a statement: the tag of the innermost switch, and the types of the results of the function.
#[derive(Clone, Copy)]
pub struct Enclosing<'a> {
    pub tag: &'a Sort,
    pub results: &'a [TypeId],
}

/// The scope of an expression of the body, where the locals stand for this.
#[tactic(auto, using(crate::proofs::Names::body_names, crate::proofs::Names::body_texts, crate::proofs::Names::body_known))]
pub fn scope_of<'b>(surroundings: &Surroundings<'b>, locals: &'b Locals) -> Scope<'b>
    ensures names { (t : Table) → names t result ≡ names_in t surroundings.now locals.now }
    ensures texts { text_in result ≡ text_of surroundings.now }
    ensures basics { result.basics ≡ surroundings.now.basics }
    ensures locals { result.locals.now ≡ locals.now }
    ensures known { (t : Table) → KnownSurroundings t surroundings.now → KnownLocals (length t.shapes) locals.now → KnownScope (length t.shapes) result }
{
    Scope::of_body(
        surroundings.tokens,
        surroundings.uses,
        surroundings.env,
        locals,
        surroundings.basics,
        surroundings.base,
    )
}
