//! What names mean in an expression.
ghost use Rattle.std.specs.Prelude.{◌≡◌, ◌+◌, ◌<◌, IfSome, [], length, slice_get, true};
ghost use Rattle.std.specs.Option.{option_map, unwrap_or};
ghost use Rattle.go_tree.specs.declared.object.Object.TheVariants as object;
ghost use Rattle.go_typed.specs.Scopes.{local_sort};
ghost use Rattle.go_typed.specs.Views.{sort_view, sort_seen, KnownSort};
ghost use Rattle.go_exprs_rules.specs.Sorts.{known};
ghost use Rattle.go_exprs_types.specs.Naming.{known_local, locals_seen, need_seen, stands_for, text_in, object_in, referent_in, KnownScope};
ghost use Rattle.go_exprs_types.specs.declared.standing.Needed.TheVariants as need;

use crate::standing::{Needed, Standing};
use go_exprs_rules::Basics;
use go_tokens::tokens::Tokens;
use go_tree::object::Object;
use go_tree::uses::Uses;
use go_typed::{Env, Locals, Referent, Sort};
use go_types::Types;

/// What is known of names where an expression stands: the tokens of its file, what each of them means, what the objects of the
/// package and the locals of the function stand for, and the numbers of the predeclared types that rules give.
///
/// Of the objects from 0 on `told` says what they stand for by the way in which they are needed; of those behind its end `env`
/// says it, which makes no difference between these ways. `needed` is the way in which names are needed here, and `limits` says
/// whether the limit on the scalars of an array type is judged. Tokens are counted from the number `base` in their file.
#[derive(Clone, Copy)]
pub struct Scope<'a> {
    pub tokens: &'a Tokens,
    pub uses: &'a Uses,
    pub env: &'a Env,
    pub locals: &'a Locals,
    pub basics: Basics,
    pub told: &'a [Standing],
    pub needed: Needed,
    pub limits: bool,
    pub base: u32,
}

impl<'a> Scope<'a> {
    /// The scope in the body of a function, whose tokens are counted from `base`: all objects are needed in full and stand for
    /// what `env` says.
    pub fn of_body(
        tokens: &'a Tokens,
        uses: &'a Uses,
        env: &'a Env,
        locals: &'a Locals,
        basics: Basics,
        base: u32,
    ) -> Scope<'a>
        ensures tokens { result.tokens.now ≡ tokens.now }
        ensures uses { result.uses.now ≡ uses.now }
        ensures env { result.env.now ≡ env.now }
        ensures locals { result.locals.now ≡ locals.now }
        ensures basics { result.basics ≡ basics }
        ensures told { result.told.now ≡ [] }
        ensures needed { result.needed ≡ need.InFull }
        ensures limits { result.limits ≡ true }
        ensures base { result.base ≡ base }
    {
        Scope {
            tokens,
            uses,
            env,
            locals,
            basics,
            told: &[],
            needed: Needed::InFull,
            limits: true,
            base,
        }
    }

    /// The bytes of the token of this number; none where there are not so many.
    pub fn text(&self, token: u32) -> &'a [u8]
        ensures { result.now ≡ text_in self.now token }
    {
        let place = self.place(token);
        if place < self.tokens.count() as usize {
            self.tokens.text(place as u32)
        } else {
            &[]
        }
    }

    /// What the token of this number means (Go specification, "Declarations and scope").
    pub fn object(&self, token: u32) -> Option<Object>
        ensures { result ≡ object_in self.now token }
    {
        self.uses
            .object(self.tokens.file() as usize, self.place(token))
    }

    /// The number of a token in its file.
    pub fn place(&self, token: u32) -> usize
        ensures { result ≡ self.now.base + token }
    {
        self.base as usize + token as usize
    }

    /// The number of an object of the package among those of its sort.
    pub fn referent(&self, number: usize) -> Referent
        ensures { result ≡ referent_in self.now.env.now.referents number }
    {
        self.env.referent(number).unwrap_or(Referent::Println)
    }
}

/// What an object of the package stands for where it is needed so, if there are so many.
pub fn package_sort<'a>(
    types: &Types,
    scope: &Scope<'a>,
    need: Needed,
    number: usize,
) -> Option<&'a Sort>
    requires { KnownScope (length types.now.shapes) scope.now }
    ensures tree { known (option_map (λ s. sort_seen types.now s.now) result) ≡ stands_for types.now scope.now (need_seen need) (object.Package number) }
    ensures known { IfSome result (λ s. KnownSort (length types.now.shapes) s.now) }
{
    if number < scope.told.len() {
        Some(scope.told[number].sort(need))
    } else {
        scope.env.sort(number)
    }
}

/// What a local of the function stands for, if it is typed so far.
pub fn local_sort<'a>(
    types: &Types,
    scope: &Scope<'a>,
    function: usize,
    number: usize,
) -> Option<&'a Sort>
    requires { KnownScope (length types.now.shapes) scope.now }
    ensures tree { known (option_map (λ s. sort_seen types.now s.now) result) ≡ known_local (slice_get (locals_seen types.now scope.now.locals.now.sorts) number) }
    ensures known { IfSome result (λ s. KnownSort (length types.now.shapes) s.now) }
{
    let _function = function;
    scope.locals.sort(number)
}
