//! Numbers that say from when on objects are known.

ghost use Rattle.std.specs.Prelude.{◌≡◌, ◌<◌};
ghost use Rattle.go_package_defs.specs.Knowledge.{is_type};
ghost use Rattle.go_package_stages.specs.Numbers as specs;
ghost use Rattle.go_package_stages.specs.Numbers.{at_most, is_told_at, next_type, types_told};

use go_needs::Bound;
use go_tree::context::Entity;
use go_tree::object::Declared;

/// After how many rounds it is known of each object what it stands for, its right side if it is a type, and all that is found of it;
/// after how many all right sides are known that a declared type reaches, by its number; and bounds of `told` and `own` at all that an
/// object needs.
#[derive(Debug, Drop)]
pub struct Numbers {
    pub stands: Vec<usize>,
    pub told: Vec<usize>,
    pub own: Vec<usize>,
    pub reach: Vec<usize>,
    pub told_bounds: Vec<Bound>,
    pub own_bounds: Vec<Bound>,
}

/// The number of an object, or of a declared type.
pub fn number_at(numbers: &[usize], number: usize) -> usize
    ensures { result ≡ specs.number_at numbers.now number }
{
    numbers.get(number).copied().unwrap_or(0)
}

/// Whether none is greater.
pub fn are_at_most(most: usize, numbers: &[usize]) -> bool
    ensures { result ≡ at_most most numbers.now }
{
    for number in numbers {
        if *number > most {
            return false;
        }
    }
    true
}

/// Whether an object is no type, or its right side is known where those are that the declared type of this number reaches.
fn is_told_at(numbers: &Numbers, number: usize, place: usize, declared: &Declared) -> bool
    ensures { result ≡ is_told_at numbers.now number place declared.now }
{
    match declared.entity {
        Entity::Type => number_at(&numbers.told, number) <= number_at(&numbers.reach, place),
        _ => true,
    }
}

/// How many types there are up to an object, where there are so many in front of it.
pub fn next_type(declared: &Declared, place: usize) -> usize
    requires { place < usize.MAX }
    ensures { result ≡ next_type (is_type declared.now.entity) place }
{
    match declared.entity {
        Entity::Type => place + 1,
        _ => place,
    }
}

/// Whether that holds of all objects.
pub fn are_types_told(numbers: &Numbers, objects: &[Declared]) -> bool
    ensures { result ≡ types_told numbers.now 0 0 objects.now }
{
    let mut place: usize = 0;
    for (number, declared) in objects.iter().enumerate() {
        if !is_told_at(numbers, number, place, declared) {
            return false;
        }
        place = next_type(declared, place);
    }
    true
}
