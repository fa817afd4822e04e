//! Fields, keys and parameters by their names.

ghost use Rattle.std.specs.Prelude.{◌≡◌, ◌++◌, ◌∷◌, [], List, OnOk};
ghost use Rattle.go_tokens.specs.Tokens.{TokenList};
ghost use Rattle.go_tree.specs.declared.event.Event.{Event};
ghost use Rattle.go_tree.specs.Duplicates.{has_member};
ghost use Rattle.go_scopes.specs.Gathered.{AddsName, AddsMember, Gathers};

use go_scopes_lookup::unit::word;
use go_tokens::tokens::Tokens;
use go_tree::event::{Event, Member};
use std::alloc::{AllocError, Global};
use std::collections::HashSet;

/// The members that the events of a file told of so far, each by its group and its name.
#[derive(Drop)]
pub struct Members<'a> {
    fields: HashSet<(u32, &'a [u8])>,
    keys: HashSet<(u32, &'a [u8])>,
    parameters: HashSet<(u32, &'a [u8])>,
}

/// Adds a name of a group.
pub fn add_name<'a>(
    names: &mut HashSet<(u32, &'a [u8])>,
    group: u32,
    name: &'a [u8],
) -> Result<(), AllocError>
    ensures { OnOk result (AddsName names.old names.new group name.now) }
{
    names.insert((group, name))?;
    Ok(())
}

impl<'a> Members<'a> {
    /// No members.
    pub fn new(alloc: Global) -> Members<'a>
        ensures { (ts : TokenList) → Gathers result ts [] }
    {
        Members {
            fields: HashSet::new(alloc),
            keys: HashSet::new(alloc),
            parameters: HashSet::new(alloc),
        }
    }

    /// Whether there is a member of the group with this name.
    pub fn has(&self, member: Member, group: u32, name: &'a [u8]) -> bool
        ensures { (ts : TokenList) → (es : List Event) → Gathers self.now ts es → result ≡ has_member member group name.now ts es }
    {
        match member {
            Member::Field => self.fields.contains(&(group, name)),
            Member::Key => self.keys.contains(&(group, name)),
            Member::Parameter => self.parameters.contains(&(group, name)),
        }
    }

    /// Adds a member.
    fn insert(&mut self, member: Member, group: u32, name: &'a [u8]) -> Result<(), AllocError>
        ensures { OnOk result (AddsMember self.old self.new member group name.now) }
    {
        match member {
            Member::Field => add_name(&mut self.fields, group, name),
            Member::Key => add_name(&mut self.keys, group, name),
            Member::Parameter => add_name(&mut self.parameters, group, name),
        }
    }

    /// Adds the member that the event tells of, if it does.
    pub fn add(&mut self, tokens: &'a Tokens, event: &Event) -> Result<(), AllocError>
        ensures { (es : List Event) → Gathers self.old tokens.now es → OnOk result (Gathers self.new tokens.now (es ++ event.now ∷ [])) }
    {
        if let Event::Member {
            member,
            group,
            name,
        } = event
        {
            self.insert(*member, *group, word(tokens, *name))?;
        }
        Ok(())
    }
}
