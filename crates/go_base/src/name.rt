ghost use Rattle.std.specs.Prelude.{◌≡◌, ◌≤◌, ◌↔◌, Some, refl, length, nat_eq, IsTrue};
ghost use Rattle.std.specs.List.{list_all};
ghost use Rattle.std.specs.Ordering.{nat_cmp};
ghost use Rattle.std.specs.Cmp.{partial_equiv_from_equiv};
ghost use Rattle.std.specs.Cmp.Lexicographic.{pointwise, slice_cmp, nat_list_eq_equiv, nat_list_cmp_total, texts_ties, texts_po};
ghost use Rattle.go_base.specs.Gives.{Gives};
ghost use Rattle.go_base.specs.Name.{name_of, name_refusal, is_name_byte, is_plain_name, has_go_ending, has_plain_start, is_go_file_name, IsGoFileName};

use std::alloc::{AllocError, Global};
use std::cmp::Ordering;
use std::marker::Model;
use thiserror::Error;

/// Why bytes are no name.
#[derive(Clone, Copy, Debug, PartialEq, Eq, Hash, Error)]
pub enum NameError {
    /// There are not 1 to 255 bytes.
    #[error("a name has 1 to 255 bytes")]
    Form,
    #[error("out of memory")]
    Memory,
}

impl From<AllocError> for NameError {
    ghost use Rattle.go_base.specs.declared.name.NameError.TheVariants as errors;

    ghost from_gives = { λ _ e. e ≡ errors.Memory };

    fn from(_error: AllocError) -> NameError {
        NameError::Memory
    }
}

/// The name of a file: 1 to 255 bytes, ordered by them.
#[derive(Clone, Debug, Drop)]
pub struct Name {
    bytes: Vec<u8>,
}

impl Model for Name {
    ghost use Rattle.std.specs.Prelude.{List, ℕ, ◌≤◌, length};

    ghost Value = { List ℕ };

    ghost view = { λ n. n.bytes.items };

    ghost invariant = { λ n. (1 ≤ length n.bytes.items) × (length n.bytes.items ≤ 255) };
}

impl Name {
    /// The name with these bytes. Answers `Form` exactly where there are not 1 to 255 of them.
    pub fn of(alloc: Global, bytes: &[u8]) -> Result<Name, NameError>
        ensures { Gives (λ n. n) name_refusal result (name_of bytes.now) }
    {
        if bytes.is_empty() || bytes.len() > 255 {
            return Err(NameError::Form);
        }
        let bytes = Vec::from_slice(alloc, bytes)?;
        Ok(Name { bytes })
    }

    /// The bytes of the name. There are 1 to 255 of them.
    pub fn bytes(&self) -> &[u8]
        ensures value { result.now ≡ self.now }
        ensures some { 1 ≤ length self.now }
        ensures few { length self.now ≤ 255 }
    {
        self.bytes.as_slice()
    }

    /// Whether a file of this name is a file of the package: 4 to 255 bytes, each an ASCII letter, a
    /// digit, `_`, `-` or `.`, that end in `.go` and not in `_test.go` and begin neither with `_` nor
    /// with `.`.
    pub fn is_go_file(&self) -> bool
        ensures form { IsTrue result ↔ IsGoFileName self.now }
        ensures test { result ≡ is_go_file_name self.now }
    {
        is_go_file_name(self.bytes())
    }
}

impl PartialEq for Name {
    ghost eq = { pointwise nat_eq };

    ghost laws = { partial_equiv_from_equiv nat_list_eq_equiv };

    fn eq(&self, other: &Name) -> bool {
        self.bytes() == other.bytes()
    }
}

impl Eq for Name {
    ghost laws = { nat_list_eq_equiv };
}

impl PartialOrd for Name {
    ghost partial_cmp = { λ x y. Some (slice_cmp nat_cmp x y) };

    ghost laws = { texts_po };

    fn partial_cmp(&self, other: &Name) -> Option<Ordering> {
        Some(self.cmp(other))
    }
}

impl Ord for Name {
    ghost cmp = { slice_cmp nat_cmp };

    ghost total = { nat_list_cmp_total };

    ghost matches_partial_cmp = { λ x y. refl };

    ghost matches_eq = { texts_ties };

    fn cmp(&self, other: &Name) -> Ordering {
        self.bytes().cmp(other.bytes())
    }
}

fn is_name_byte(byte: u8) -> bool
    ensures { result ≡ is_name_byte byte }
{
    byte.is_ascii_alphanumeric() || matches!(byte, b'_' | b'-' | b'.')
}

fn has_plain_bytes(name: &[u8]) -> bool
    ensures { result ≡ list_all is_name_byte name.now }
{
    name.iter().all(|byte| is_name_byte(*byte))
}

#[tactic(auto, unfolding(crate::specs::Name::is_plain_name))]
fn is_plain_name(name: &[u8]) -> bool
    ensures { result ≡ is_plain_name name.now }
{
    name.len() >= 4 && name.len() <= 255 && has_plain_bytes(name)
}

#[tactic(auto, unfolding(crate::specs::Name::has_go_ending))]
fn has_go_ending(name: &[u8]) -> bool
    ensures { result ≡ has_go_ending name.now }
{
    name.ends_with(b".go") && !name.ends_with(b"_test.go")
}

#[tactic(auto, unfolding(crate::specs::Name::has_plain_start))]
fn has_plain_start(name: &[u8]) -> bool
    ensures { result ≡ has_plain_start name.now }
{
    !name.starts_with(b"_") && !name.starts_with(b".")
}

#[tactic(auto, unfolding(crate::specs::Name::is_go_file_name))]
fn is_go_file_name(name: &[u8]) -> bool
    ensures { result ≡ is_go_file_name name.now }
{
    is_plain_name(name) && has_go_ending(name) && has_plain_start(name)
}
