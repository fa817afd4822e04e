//! Kinds of blocks, of declarations and of places.

ghost use Rattle.std.specs.Prelude.{◌≡◌};
ghost use Rattle.go_tree.specs.Contexts.{is_package};
ghost use Rattle.go_tree.specs.Redeclared.{is_by_define};
ghost use Rattle.go_scopes_lookup.specs.Sited.{is_sited};

use go_tree::context::{Block, Manner, Site};

/// Whether it is the block of the package.
pub fn is_package(block: Block) -> bool
    ensures { result ≡ is_package block }
{
    match block {
        Block::Package => true,
        Block::Local(_) => false,
    }
}

/// Whether the name stands before a `:=`.
pub fn is_by_define(manner: Manner) -> bool
    ensures { result ≡ is_by_define manner }
{
    match manner {
        Manner::Declared => false,
        Manner::Defined | Manner::Ranged => true,
    }
}

/// Whether a name with this site stands in a part of a declaration.
pub fn is_sited(site: Site) -> bool
    ensures { result ≡ is_sited site }
{
    match site {
        Site::Elsewhere => false,
        Site::Type { .. } | Site::Value { .. } | Site::Right { .. } => true,
    }
}
