//! What is known of an object after some rounds.
ghost use Rattle.std.specs.Prelude.{◌≡◌, IfOk, IsTrue, map};
ghost use Rattle.go_package_rounds.specs.Held as held;
ghost use Rattle.go_package_rounds.specs.Held.{ReadAlike, AllReadAlike};

use go_base::Memory;
use go_exprs_rules::TypeFault;
use go_typed::Sort;
use go_types::TypeId;
use std::alloc::Global;

/// What is known of an object: the right side of a type, what it stands for, and the least of the rules that fail in its type and its
/// expression, and at its own assignment.
#[derive(Debug, Drop)]
pub struct Held {
    pub right: Option<TypeId>,
    pub stands: Sort,
    pub fault: Option<TypeFault>,
    pub assigning: Option<TypeFault>,
}

/// Whether no rule fails at it.
pub fn is_sound(known: &Held) -> bool
    ensures { result ≡ held.is_sound known.now }
{
    known.fault.is_none() && known.assigning.is_none()
}

/// Whether it stands for something, and has a right side if it is a type.
pub fn is_told(known: &Held) -> bool
    ensures { result ≡ held.is_told known.now }
{
    match &known.stands {
        Sort::Type(_) => known.right.is_some(),
        Sort::Unknown => false,
        _ => true,
    }
}

/// Of each object whether no rule fails at it.
pub fn all_sound(alloc: Global, all: &[Held]) -> Result<Vec<bool>, Memory>
    ensures { IfOk result (λ v. v.items ≡ map held.is_sound all.now) }
{
    let mut flags = Vec::new(alloc);
    for known in all {
        flags.push(is_sound(known))?;
    }
    Ok(flags)
}

/// Of each object whether it stands for something.
pub fn all_told(alloc: Global, all: &[Held]) -> Result<Vec<bool>, Memory>
    ensures { IfOk result (λ v. v.items ≡ map held.is_told all.now) }
{
    let mut flags = Vec::new(alloc);
    for known in all {
        flags.push(is_told(known))?;
    }
    Ok(flags)
}

/// Whether the two are found to stand for the same.
fn same_sort(a: &Sort, b: &Sort) -> bool
    ensures { IsTrue result → a.now ≡ b.now }
{
    match (a, b) {
        (Sort::Unknown, Sort::Unknown) => true,
        (Sort::Type(a), Sort::Type(b)) => *a == *b,
        (Sort::Value(a), Sort::Value(b)) => *a == *b,
        (Sort::Constant(a, x), Sort::Constant(b, y)) => a.id() == b.id() && x.get() == y.get(),
        (Sort::OpenConstant(x), Sort::OpenConstant(y)) => x.get() == y.get(),
        _ => false,
    }
}

/// Whether scopes can't tell the two from each other.
fn read_alike(a: &Held, b: &Held) -> bool
    ensures { IsTrue result → ReadAlike a.now b.now }
{
    a.right == b.right && is_sound(a) == is_sound(b) && same_sort(&a.stands, &b.stands)
}

/// Whether scopes can't tell what was known from what is known now.
pub fn all_read_alike(old: &[Held], new: &[Held]) -> bool
    ensures { IsTrue result → AllReadAlike old.now new.now }
{
    if old.len() != new.len() {
        return false;
    }
    for number in 0..old.len() {
        if !read_alike(&old[number], &new[number]) {
            return false;
        }
    }
    true
}
