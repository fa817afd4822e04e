//! Laws of typed functions. These functions do nothing: their contracts are the laws.
ghost use Rattle.std.specs.Prelude.{◌≡◌, length};
ghost use Rattle.go_types.specs.Tables.{Table, IsTable, type_of};
ghost use Rattle.go_types_relations.specs.Extends.{Extends};
ghost use Rattle.go_typed.specs.Contents.{func_content};
ghost use Rattle.go_typed.specs.Funcs.{FuncView};
ghost use Rattle.go_stmts.specs.Bodies.{KnownFunction};

/// What a typed function is stays in each table that has more types.
pub fn functions_stay()
    ensures { (old new : Table) → IsTable old → Extends old new → (f : FuncView) → KnownFunction (length old.shapes) f → func_content (type_of new.shapes) f ≡ func_content (type_of old.shapes) f }
{}
