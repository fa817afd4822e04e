ghost use Rattle.std.specs.Prelude.{◌≡◌};
ghost use Rattle.go_base.specs.Fault.{code_number, code_word, code_phases, phase_number};

use crate::span::Span;

/// What a check of the package does one after the other. The earliest phase with a fault decides.
#[derive(Clone, Copy, Debug, PartialEq, Eq, Hash)]
pub enum Phase {
    /// The bytes are text.
    Encoding = 1,
    /// The text is tokens.
    Tokens,
    /// The tokens of each file have a tree.
    Trees,
    /// The clauses and imports of the files, and what is declared outside the profile.
    Clauses,
    /// Blocks, names and their uses.
    Names,
    /// The package's types, constants, variables and signatures.
    Declarations,
    /// The bodies of the functions.
    Bodies,
}

/// Which rule of the language fails.
#[derive(Clone, Copy, Debug, PartialEq, Eq, Hash)]
pub enum FaultCode {
    /// Not UTF-8, a NUL byte, or a byte order mark inside the text.
    Encoding = 1,
    /// No token begins here, or it is malformed or not ended.
    Lexical,
    /// A token, import, name or declaration of Go that is outside the profile.
    Outside,
    /// The file has no tree.
    Syntax,
    /// The package's name is `_`, or not that of the first file.
    PackageName,
    /// A second declaration in a block, or a `:=` or `range` without a new name.
    Redeclared,
    /// A name without meaning.
    Undeclared,
    /// A local variable without use.
    UnusedVariable,
    /// An import without use.
    UnusedImport,
    /// An operation whose operands it does not have.
    Operands,
    /// A value that is not assignable.
    Assignable,
    /// A constant out of range.
    Representable,
    /// A constant divisor 0.
    ZeroDivisor,
    /// A constant index, length or element count out of its bounds.
    ConstIndex,
    /// Numbers of values, arguments, names or fields disagree.
    Count,
    /// A type, `_` or a call without result as a value, or a value as a type.
    NotAValue,
    /// `==` or `!=` on types that do not compare.
    NotComparable,
    /// A body with results that does not end in a terminating statement.
    MissingReturn,
    /// A misplaced `break`, `continue` or `fallthrough`.
    Branch,
    /// A declaration that needs itself.
    Cycle,
    /// A left side that is not one.
    LeftSide,
    /// An expression that cannot be a statement.
    UnusedValue,
    /// A second field, parameter, key or `default`.
    Duplicate,
    /// A package variable whose initialiser names a function or a package variable.
    Initialiser,
    /// Too many statements, or an array type with too many scalars.
    Limit,
}

/// A fault of a package, and its place.
#[derive(Clone, Copy, Debug, PartialEq, Eq, Hash)]
pub struct Fault {
    pub code: FaultCode,
    pub span: Span,
}

impl Phase {
    /// The phase's number, from 1 to 7.
    pub fn number(self) -> u8
        ensures { result ≡ phase_number self }
    {
        self as u8
    }
}

impl FaultCode {
    /// The code's number, from 1 to 25.
    pub fn number(self) -> u8
        ensures { result ≡ code_number self }
    {
        self as u8
    }

    /// The code's word, as a reply prints it.
    pub fn word(self) -> &'static str
        ensures { result.now ≡ code_word self }
    {
        match self {
            FaultCode::Encoding => "encoding",
            FaultCode::Lexical => "lexical",
            FaultCode::Outside => "outside",
            FaultCode::Syntax => "syntax",
            FaultCode::PackageName => "packagename",
            FaultCode::Redeclared => "redeclared",
            FaultCode::Undeclared => "undeclared",
            FaultCode::UnusedVariable => "unusedvariable",
            FaultCode::UnusedImport => "unusedimport",
            FaultCode::Operands => "operands",
            FaultCode::Assignable => "assignable",
            FaultCode::Representable => "representable",
            FaultCode::ZeroDivisor => "zerodivisor",
            FaultCode::ConstIndex => "constindex",
            FaultCode::Count => "count",
            FaultCode::NotAValue => "notavalue",
            FaultCode::NotComparable => "notcomparable",
            FaultCode::MissingReturn => "missingreturn",
            FaultCode::Branch => "branch",
            FaultCode::Cycle => "cycle",
            FaultCode::LeftSide => "leftside",
            FaultCode::UnusedValue => "unusedvalue",
            FaultCode::Duplicate => "duplicate",
            FaultCode::Initialiser => "initialiser",
            FaultCode::Limit => "limit",
        }
    }

    /// The phases in which the code comes, from the earliest.
    pub fn phases(self) -> &'static [Phase]
        ensures { result.now ≡ code_phases self }
    {
        match self {
            FaultCode::Encoding => &[Phase::Encoding],
            FaultCode::Lexical => &[Phase::Tokens],
            FaultCode::Outside => &[Phase::Tokens, Phase::Clauses, Phase::Names],
            FaultCode::Syntax => &[Phase::Trees],
            FaultCode::PackageName => &[Phase::Clauses],
            FaultCode::Redeclared
            | FaultCode::Undeclared
            | FaultCode::UnusedVariable
            | FaultCode::UnusedImport
            | FaultCode::Branch
            | FaultCode::Cycle
            | FaultCode::Duplicate
            | FaultCode::Initialiser => &[Phase::Names],
            FaultCode::Operands
            | FaultCode::Assignable
            | FaultCode::Representable
            | FaultCode::ZeroDivisor
            | FaultCode::ConstIndex
            | FaultCode::Count
            | FaultCode::NotComparable => &[Phase::Declarations, Phase::Bodies],
            FaultCode::NotAValue | FaultCode::Limit => &[
                Phase::Names,
                Phase::Declarations,
                Phase::Bodies,
            ],
            FaultCode::MissingReturn | FaultCode::LeftSide | FaultCode::UnusedValue => &[
                Phase::Bodies,
            ],
        }
    }
}
