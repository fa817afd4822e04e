//! Where in a file a name in a type means something else than it has to.

ghost use Rattle.std.specs.Prelude.{◌≡◌, ◌<◌, ◌++◌, ◌||◌, ◌^◌, ℕ, List, length, map, IfOk, OnOk};
ghost use Rattle.std.specs.Borrow.{Bor};
ghost use Rattle.std.specs.HashSet as set;
ghost use Rattle.std.specs.List.{AllByRecursion, list_any};
ghost use Rattle.go_tokens.specs.Spellings.{same_text};
ghost use Rattle.go_tree.specs.Meanings.{meanings};
ghost use Rattle.go_typed.specs.Packages.{PackageView};
ghost use Rattle.go_scopes.specs.Resolve.{units_of};
ghost use Rattle.go_scopes_named.specs.Named.{IsNamed, all_meanings};
ghost use Rattle.escape_check.specs.Collecting.{names_of_type};
ghost use Rattle.escape_check.specs.Stretches.{AreHidden, KnowsHidden, covers, is_hidden_at, means_other, stretch_if, stretches_from};
ghost use Rattle.escape_check.specs.Texts.{AreTexts, same_bytes};
ghost use Rattle.escape_check.specs.Types as specs;
ghost use Rattle.escape_check.specs.Written.{type_name_view};

use crate::member::Member;
use crate::site::means_type;
use crate::stretches::{Stretch, any_covers, ordered};
use crate::type_names::{TypeName, names_in};
use go_scopes_named::by_name::Named;
use go_typed::checked::Checked;
use go_types::TypeId;
use std::alloc::{AllocError, Global};
use std::collections::{HashMap, HashSet};

/// A number behind those of all tokens.
const END: u64 = 4_294_967_296;

/// The names in a type, and at which tokens of a file one of them means something else than it has to.
#[derive(Drop)]
pub(crate) struct HiddenNames<'a> {
    pub words: HashSet<&'a [u8]>,
    pub stretches: Vec<Stretch>,
}

impl HiddenNames<'_> {
    /// Whether one of the names is hidden at a token of the file, where the texts are the names of results: it means something else there, or
    /// is one of the texts. It goes over the texts or over the names, whichever are fewer, and looks the token up by binary search.
    pub(crate) fn hides(&self, texts: &HashSet<&[u8]>, token: u32) -> bool
        ensures { (p : PackageView) (file : ℕ) (names : List specs.TypeName) (ws : List (List ℕ)) → AreHidden p file names self.now → AreTexts texts.now ws
            → result ≡ list_any (is_hidden_at p file token ws) names }
    {
        !self.words.is_disjoint(texts) || any_covers(&self.stretches, token)
    }
}

/// For each file of a member and each of some types, where in the file names of the type are hidden. Each file is looked at once, and so is
/// each of the types for it.
pub(crate) fn hidden_in_files<'a>(
    alloc: Global,
    checked: &'a Checked,
    named: &Named<'_>,
    types: &[TypeId],
    members: &[Member<'_>],
) -> Result<HashMap<(u32, TypeId), HiddenNames<'a>>, AllocError>
    requires below { AllByRecursion (λ t. t < length checked.now.types.shapes) types.now }
    requires named { IsNamed named.now }
    requires meanings { all_meanings named.now ≡ meanings (units_of checked.now.files) }
    ensures { IfOk result (λ m. KnowsHidden checked.entry.now m) }
{
    let mut files = HashSet::new(alloc);
    let mut known = HashMap::new(alloc);
    for member in members {
        if files.insert(member.file)? {
            add_file(alloc, checked, named, member.file, types, &mut known)?;
        }
    }
    Ok(known)
}

/// The same for one file more.
fn add_file<'a>(
    alloc: Global,
    checked: &'a Checked,
    named: &Named<'_>,
    file: u32,
    types: &[TypeId],
    known: &mut HashMap<(u32, TypeId), HiddenNames<'a>>,
) -> Result<(), AllocError>
    requires below { AllByRecursion (λ t. t < length checked.now.types.shapes) types.now }
    requires named { IsNamed named.now }
    requires meanings { all_meanings named.now ≡ meanings (units_of checked.now.files) }
    requires known { KnowsHidden checked.now known.old }
    ensures { OnOk result (KnowsHidden checked.entry.now known.new) }
{
    for of in types {
        let key = (file, *of);
        if !known.contains_key(&key) {
            known.insert(key, names_hidden_in(alloc, checked, named, file, *of)?)?;
        }
    }
    Ok(())
}

/// Where in a file names of a type are hidden.
pub(crate) fn names_hidden_in<'a>(
    alloc: Global,
    checked: &'a Checked,
    named: &Named<'_>,
    file: u32,
    of: TypeId,
) -> Result<HiddenNames<'a>, AllocError>
    requires below { of < length checked.now.types.shapes }
    requires named { IsNamed named.now }
    requires meanings { all_meanings named.now ≡ meanings (units_of checked.now.files) }
    ensures { IfOk result (λ h. AreHidden checked.entry.now file (names_of_type checked.entry.now of) h) }
{
    let names = names_in(alloc, checked, of)?;
    let words = words_of(alloc, &names)?;
    let stretches = stretches_of(alloc, checked, named, file, &names)?;
    Ok(HiddenNames {
        words,
        stretches: ordered(alloc, stretches)?,
    })
}

/// The texts of names.
fn words_of<'a>(alloc: Global, names: &[TypeName<'a>]) -> Result<HashSet<&'a [u8]>, AllocError>
    ensures { IfOk result (λ words. (w : Bor (List ℕ)) → set.contains same_bytes words w ≡ list_any (λ (x : specs.TypeName). same_text x.name w.now) (map type_name_view names.now)) }
{
    let mut words = HashSet::new(alloc);
    for name in names {
        words.insert(name.name)?;
    }
    Ok(words)
}

/// The tokens of a file at which one of the names means something else.
fn stretches_of(
    alloc: Global,
    checked: &Checked,
    named: &Named<'_>,
    file: u32,
    names: &[TypeName<'_>],
) -> Result<Vec<Stretch>, AllocError>
    requires named { IsNamed named.now }
    requires meanings { all_meanings named.now ≡ meanings (units_of checked.now.files) }
    ensures { (t : ℕ) → t < 2 ^ 32 → IfOk result (λ v. list_any (covers t) v.items ≡ list_any (means_other checked.now file t) (map type_name_view names.now)) }
{
    let mut stretches = Vec::new(alloc);
    for name in names {
        add_name(alloc, checked, named, file, name, &mut stretches)?;
    }
    Ok(stretches)
}

/// Puts the tokens of a file at which a name means something else behind the others.
fn add_name(
    alloc: Global,
    checked: &Checked,
    named: &Named<'_>,
    file: u32,
    name: &TypeName<'_>,
    stretches: &mut Vec<Stretch>,
) -> Result<(), AllocError>
    requires named { IsNamed named.now }
    requires meanings { all_meanings named.now ≡ meanings (units_of checked.now.files) }
    ensures { (t : ℕ) → t < 2 ^ 32 → OnOk result (list_any (covers t) stretches.new.items ≡ (list_any (covers t) stretches.old.items || means_other checked.now file t (type_name_view name.now))) }
{
    let changes = named.changes(alloc, file, name.name)?;
    add_between(checked, named, file, name, &changes, stretches)
}

/// The same where the meaning of the name changes at these tokens only.
fn add_between(
    checked: &Checked,
    named: &Named<'_>,
    file: u32,
    name: &TypeName<'_>,
    changes: &[u32],
    stretches: &mut Vec<Stretch>,
) -> Result<(), AllocError>
    requires named { IsNamed named.now }
    requires meanings { all_meanings named.now ≡ meanings (units_of checked.now.files) }
    ensures { OnOk result (stretches.new.items ≡ stretches.old.items ++ stretches_from (λ t. means_other checked.now file t (type_name_view name.now)) 0 changes.now) }
{
    let mut from = 0;
    for change in changes {
        add_stretch(
            checked,
            named,
            file,
            name,
            from,
            u64::from(*change),
            stretches,
        )?;
        from = *change;
    }
    add_stretch(checked, named, file, name, from, END, stretches)
}

/// Puts a stretch behind the others, if the name means something else at its first token.
fn add_stretch(
    checked: &Checked,
    named: &Named<'_>,
    file: u32,
    name: &TypeName<'_>,
    from: u32,
    upto: u64,
    stretches: &mut Vec<Stretch>,
) -> Result<(), AllocError>
    requires named { IsNamed named.now }
    requires meanings { all_meanings named.now ≡ meanings (units_of checked.now.files) }
    ensures { OnOk result (stretches.new.items ≡ stretches.old.items ++ stretch_if (λ t. means_other checked.now file t (type_name_view name.now)) from upto) }
{
    if means_other(checked, named, file, from, name) {
        stretches.push(Stretch { from, upto })?;
    }
    Ok(())
}

/// Whether a name means something else at a token of a file than it has to.
fn means_other(
    checked: &Checked,
    named: &Named<'_>,
    file: u32,
    token: u32,
    name: &TypeName<'_>,
) -> bool
    requires named { IsNamed named.now }
    requires meanings { all_meanings named.now ≡ meanings (units_of checked.now.files) }
    ensures { result ≡ means_other checked.now file token (type_name_view name.now) }
{
    let object = named.object_at(file, token, name.name);
    !means_type(checked, object, name.number)
}
