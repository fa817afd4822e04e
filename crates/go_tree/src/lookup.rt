//! What a name that is looked up is for, and where it stands, in little room: a file has one of each for each such name.

ghost use Rattle.std.specs.Prelude.{◌≡◌, IfSome, is_some, true};
ghost use Rattle.go_tree.specs.Shortened.{is_looked_up, has_short_column};

use crate::context::{Reach, Role, Site};
use std::marker::Model;

/// What a name is for that is looked up.
#[derive(Clone, Copy, Debug)]
enum ShortRole {
    Operand,
    Assigned,
    Called,
    Selected { called: bool, last: u32 },
}

/// The role of a name that is looked up.
#[derive(Clone, Copy, Debug)]
pub struct LookupRole {
    short: ShortRole,
}

impl Model for LookupRole {
    ghost use Rattle.std.specs.Prelude.{};
    ghost use Rattle.go_tree.specs.declared.context.Role.{Role};

    ghost Value = { Role };

    ghost use Rattle.std.proofs.Common.{ap};
    ghost use Rattle.go_tree.specs.Shortened.{whole_role, short_role, short_role_again};

    ghost view = { λ r. whole_role r.short };

    ghost inverse = { λ r. record { short = short_role r } };

    ghost inverse_ok = { λ r h. ap (λ s. record { short = s }) (short_role_again r.short) };
}

impl LookupRole {
    /// This role, which is one of a name that is looked up.
    pub fn of(role: Role) -> LookupRole
        requires { is_looked_up role ≡ true }
        ensures { result ≡ role }
    {
        let short = match role {
            Role::Assigned => ShortRole::Assigned,
            Role::Called => ShortRole::Called,
            Role::Selected { last, called } => ShortRole::Selected { called, last },
            _ => ShortRole::Operand,
        };
        LookupRole { short }
    }

    /// The role.
    pub fn get(self) -> Role
        ensures { result ≡ self }
    {
        match self.short {
            ShortRole::Operand => Role::Operand,
            ShortRole::Assigned => Role::Assigned,
            ShortRole::Called => Role::Called,
            ShortRole::Selected { called, last } => Role::Selected { last, called },
        }
    }
}

/// A part of a declaration, with a column of 32 bits.
#[derive(Clone, Copy, Debug)]
enum ShortSite {
    Elsewhere,
    Type {
        specification: u32,
    },
    Value {
        alone: bool,
        specification: u32,
        column: u32,
    },
    Right {
        reach: Reach,
        specification: u32,
    },
}

/// The part of a declaration in which a name stands that is looked up.
#[derive(Clone, Copy, Debug)]
pub struct LookupSite {
    short: ShortSite,
}

impl Model for LookupSite {
    ghost use Rattle.std.specs.Prelude.{};
    ghost use Rattle.go_tree.specs.declared.context.Site.{Site};

    ghost Value = { Site };

    ghost use Rattle.std.proofs.Common.{ap};
    ghost use Rattle.go_tree.specs.Shortened.{whole_site, short_site, short_site_again};

    ghost view = { λ s. whole_site s.short };

    ghost inverse = { λ s. record { short = short_site s } };

    ghost inverse_ok = { λ s h. ap (λ t. record { short = t }) (short_site_again s.short) };
}

impl LookupSite {
    /// This site; none for a column from 2^32 on.
    pub fn of(site: Site) -> Option<LookupSite>
        ensures site { IfSome result (λ s. s ≡ site) }
        ensures answers { is_some result ≡ has_short_column site }
    {
        let short = match site {
            Site::Elsewhere => ShortSite::Elsewhere,
            Site::Type { specification } => ShortSite::Type { specification },
            Site::Value {
                specification,
                column,
                alone,
            } => ShortSite::Value {
                alone,
                specification,
                column: u32::try_from(column).ok()?,
            },
            Site::Right {
                specification,
                reach,
            } => ShortSite::Right {
                reach,
                specification,
            },
        };
        Some(LookupSite { short })
    }

    /// The site.
    pub fn get(self) -> Site
        ensures { result ≡ self }
    {
        match self.short {
            ShortSite::Elsewhere => Site::Elsewhere,
            ShortSite::Type { specification } => Site::Type { specification },
            ShortSite::Value {
                alone,
                specification,
                column,
            } => Site::Value {
                specification,
                column: column as usize,
                alone,
            },
            ShortSite::Right {
                reach,
                specification,
            } => Site::Right {
                specification,
                reach,
            },
        }
    }
}
