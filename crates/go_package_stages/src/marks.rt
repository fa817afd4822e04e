//! From when on objects are known.

ghost use Rattle.std.specs.Prelude.{◌≡◌, slice_get};
ghost use Rattle.go_exprs_rules.specs.Scopes.{in_full};
ghost use Rattle.go_tree.specs.Uses.{object_of};
ghost use Rattle.go_package_stages.specs.Marks.{is_before, mark_before, known_from, type_need};

use go_tree::object::Object;
use go_tree::uses::Uses;

/// From after which stage on an object is known, by the way in which it is needed: loosely, at once with what it needs so, and in full
/// with all that it needs.
#[derive(Clone, Copy, Debug)]
pub struct Mark {
    pub loosely: usize,
    pub at_once: usize,
    pub in_full: usize,
}

/// What names mean, and the marks of objects by their numbers.
#[derive(Clone, Copy)]
pub struct Marks<'a> {
    pub uses: &'a Uses,
    pub marks: &'a [Mark],
}

/// Whether an object of the package is known before a stage, in full.
fn full_before(marks: &Marks<'_>, stage: usize, number: usize) -> bool
    ensures { result ≡ mark_before stage in_full (slice_get marks.now.marks.now number) }
{
    match marks.marks.get(number).copied() {
        None => false,
        Some(mark) => mark.in_full < stage,
    }
}

/// Whether an object of the package is known before a stage, at once or loosely.
fn type_before(marks: &Marks<'_>, stage: usize, loose: bool, number: usize) -> bool
    ensures { result ≡ mark_before stage (type_need loose) (slice_get marks.now.marks.now number) }
{
    match marks.marks.get(number).copied() {
        None => false,
        Some(mark) => {
            if loose {
                mark.loosely < stage
            } else {
                mark.at_once < stage
            }
        }
    }
}

/// Whether what a name means is known before a stage, in full.
pub fn is_full_before(marks: &Marks<'_>, file: usize, stage: usize, token: usize) -> bool
    ensures { result ≡ is_before marks.now.marks.now stage in_full (object_of marks.now.uses.now file token) }
{
    match marks.uses.object(file, token) {
        Some(Object::Package(number)) => full_before(marks, stage, number as usize),
        _ => true,
    }
}

/// Whether what a name means is known before a stage, at once or loosely.
pub fn is_type_before(
    marks: &Marks<'_>,
    file: usize,
    stage: usize,
    loose: bool,
    token: usize,
) -> bool
    ensures { result ≡ is_before marks.now.marks.now stage (type_need loose) (object_of marks.now.uses.now file token) }
{
    match marks.uses.object(file, token) {
        Some(Object::Package(number)) => type_before(marks, stage, loose, number as usize),
        _ => true,
    }
}
