//! The names of a package's files.

ghost use Rattle.std.specs.Prelude.{◌≡◌, List, ℕ, filter};
ghost use Rattle.std.specs.List.{Contains};
ghost use Rattle.std.specs.List.Sorted.{IsStrictlySortedBy};
ghost use Rattle.std.specs.Ordering.{nat_cmp};
ghost use Rattle.std.specs.Cmp.Lexicographic.{slice_cmp};
ghost use Rattle.go_base.specs.Name.{is_go_file_name};

use go_base::Name;

/// The names of the right form.
fn go_files(names: Vec<Name>) -> Vec<Name>
    ensures { result.items ≡ filter is_go_file_name names.items }
{
    let mut names = names;
    names.retain(|name| name.is_go_file());
    names
}

/// The names of the right form, each once, in byte order.
pub(crate) fn go_names(names: Vec<Name>) -> Vec<Name>
    ensures sorted { IsStrictlySortedBy (slice_cmp nat_cmp) result.items }
    ensures keeps { (name : List ℕ) → Contains (filter is_go_file_name names.items) name → Contains result.items name }
    ensures adds_none { (name : List ℕ) → Contains result.items name → Contains (filter is_go_file_name names.items) name }
{
    let mut names = go_files(names);
    names.sort_unstable();
    names.dedup();
    names
}
