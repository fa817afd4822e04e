//! What is declared behind a node.
ghost use Rattle.std.specs.Prelude.{◌≡◌, Some, OnOk, length, map};
ghost use Rattle.std.specs.Option.{option_map};
ghost use Rattle.go_typed.specs.Views.{seen, sort_seen, Known, AllKnown, KnownSort};
ghost use Rattle.go_typed.specs.Scopes.{KnownLocals};
ghost use Rattle.go_stmts_defs.specs.Frames.{Frame, placed};
ghost use Rattle.go_stmts_defs.specs.Reading.{is_new, declares_name, declares_all};
ghost use Rattle.go_stmts_rules.specs.Seen.{locals_in};

use go_base::Memory;
use go_exprs_rules::nodes::sort_of;
use go_stmts_parts::nodes::form_of;
use go_typed::{Form, Locals, Sort, TypedNode};
use go_types::Types;

/// The local of this number, if there are so many, stands for this from now on.
pub fn declare_local(types: &Types, locals: &mut Locals, number: u32, sort: Sort)
    requires locals { KnownLocals (length types.now.shapes) locals.old }
    requires sort { KnownSort (length types.now.shapes) sort }
    ensures locals { locals_in types.now locals.new ≡ placed number (Some (sort_seen types.now sort)) (locals_in types.now locals.old) }
    ensures iota { locals.new.iota ≡ locals.old.iota }
    ensures known { KnownLocals (length types.now.shapes) locals.new }
{
    let _types = types;
    if (number as usize) < locals.count() {
        locals.declare(number as usize, sort);
    }
}

/// The local that a name declares, if it does.
fn is_new(form: Form) -> Option<u32>
    ensures { result ≡ is_new form }
{
    match form {
        Form::New(number) => Some(number),
        Form::Declared(number) => Some(number),
        _ => None,
    }
}

/// A name that is declared stands for what it takes.
fn declare_name(types: &Types, locals: &mut Locals, name: &TypedNode) -> Result<(), Memory>
    requires locals { KnownLocals (length types.now.shapes) locals.old }
    requires name { Known (length types.now.shapes) name.now }
    ensures locals { (s : Frame) → s.locals ≡ locals_in types.now locals.old → OnOk result (declares_name (Some (seen types.now name.now)) s ≡ record s { locals = locals_in types.now locals.new }) }
    ensures iota { OnOk result (locals.new.iota ≡ locals.old.iota) }
    ensures known { OnOk result (KnownLocals (length types.now.shapes) locals.new) }
{
    let Some(number) = is_new(form_of(types, name)) else {
        return Ok(());
    };
    match sort_of(types, name) {
        Sort::Nothing => Ok(()),
        sort => {
            let sort = sort.shared()?;
            declare_local(types, locals, number, sort);
            Ok(())
        }
    }
}

/// The names among parts that are declared stand for what they take.
///
/// # Errors
///
/// Want of memory.
pub fn declare_all(
    types: &Types,
    locals: &mut Locals,
    parts: &[Option<TypedNode>],
) -> Result<(), Memory>
    requires locals { KnownLocals (length types.now.shapes) locals.old }
    requires parts { AllKnown (length types.now.shapes) parts.now }
    ensures locals { (s : Frame) → s.locals ≡ locals_in types.now locals.old → OnOk result (declares_all (map (option_map (seen types.now)) parts.now) s ≡ record s { locals = locals_in types.now locals.new }) }
    ensures iota { OnOk result (locals.new.iota ≡ locals.old.iota) }
    ensures known { OnOk result (KnownLocals (length types.now.shapes) locals.new) }
{
    for part in parts {
        let Some(name) = part else { continue };
        declare_name(types, locals, name)?;
    }
    Ok(())
}
