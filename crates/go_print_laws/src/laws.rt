//! Laws of printed texts, for the crates above.

ghost use Rattle.go_print_laws.specs.Lexemes.{NamesAreNames};
ghost use Rattle.go_print_laws.specs.Standing.{TypesStand};
ghost use Rattle.go_print_laws.specs.Literals.{LiteralsStand};
ghost use Rattle.go_print_laws.specs.Reading.{TypesReadBack, LiteralsReadBack};
ghost use Rattle.go_print_laws.specs.Calls.{CallsStand};
ghost use Rattle.go_print_laws.specs.Headers.{HeadersStand};
ghost use Rattle.go_print_laws.specs.Functions.{CopiesStand, FunctionsStand};
ghost use Rattle.go_print_laws.specs.Examples.{Examples};

use go_rewriting::laws::{
    copied_items_stand, excerpts_stand, ranges_end_well, rewritten_tokens, run_stands_elsewhere,
    statements_stand_in_both, texts_end_well,
};

/// A name in a file is one that texts can be written with.
pub fn names_are_names()
    ensures { NamesAreNames }
{}

/// A printed type stands alone: its tokens are those of its form, its tree is the derivation over them with any other text behind
/// that doesn't go on with a result, and at a line's end a semicolon is inserted behind it.
pub fn types_stand()
    ensures { TypesStand }
{}

/// So does a printed constant: a boolean, a whole number with its sign, and a text of bytes.
pub fn literals_stand()
    ensures { LiteralsStand }
{}

/// Where its names mean what they are printed for, a printed type is typed as that type, and no rule fails.
pub fn types_read_back()
    ensures { TypesReadBack }
{}

/// A printed constant is typed as an untyped constant of its value, and no rule fails; of the numbers all but -2 ^ 127.
pub fn literals_read_back()
    ensures { LiteralsReadBack }
{}

/// A call with the variables that are declared in front of it, and what its results are given to, is a run of statements with the
/// trees that are written down for it.
pub fn calls_stand()
    ensures { CallsStand }
{}

/// The header of a function is a declaration without a body.
pub fn headers_stand()
    ensures { HeadersStand }
{}

/// A function of a header, of statements whose text stands by itself, and of a return of names, is a declaration with the tree that is
/// written down for it, and may be appended to a file.
pub fn functions_stand()
    ensures { FunctionsStand }
{
    rewritten_tokens();
    run_stands_elsewhere();
}

/// Statements that are all of a part of a text stand by themselves, with the comments among them; so they may be copied into a function.
pub fn copies_stand()
    ensures { CopiesStand }
{
    excerpts_stand();
    copied_items_stand();
    texts_end_well();
    ranges_end_well();
    statements_stand_in_both();
}

/// Worked texts.
pub fn examples()
    ensures { Examples }
{}
