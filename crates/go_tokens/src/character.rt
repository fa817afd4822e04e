//! The classes of characters.

ghost use Rattle.std.specs.Prelude.{◌≡◌};
ghost use Rattle.go_tokens.specs.Characters.{is_white, is_digit, is_letter, is_in_word, is_in_run, is_exponent, is_power, is_x, is_b, is_o, is_sign};

use unicode::properties::{GeneralCategory, GeneralCategoryGroup};

/// White space, and the byte order mark.
#[tactic(auto, unfolding(crate::specs::Characters::is_white))]
pub fn is_white(c: char) -> bool
    ensures { result ≡ is_white c }
{
    matches!(c, ' ' | '\t' | '\n' | '\r' | '\u{FEFF}')
}

/// A decimal digit of ASCII.
#[tactic(auto, unfolding(crate::specs::Characters::is_digit))]
pub fn is_digit(c: char) -> bool
    ensures { result ≡ is_digit c }
{
    '0' <= c && c <= '9'
}

/// A letter of any script, or `_`.
#[tactic(auto, unfolding(crate::specs::Characters::is_letter))]
pub fn is_letter(c: char) -> bool
    ensures { result ≡ is_letter c }
{
    c == '_' || GeneralCategoryGroup::Letter.contains(GeneralCategory::for_char(c))
}

/// A letter or digit of any script.
#[tactic(auto, unfolding(crate::specs::Characters::is_in_word))]
pub fn is_in_word(c: char) -> bool
    ensures { result ≡ is_in_word c }
{
    is_letter(c) || GeneralCategory::for_char(c) == GeneralCategory::DecimalNumber
}

/// What a number goes on over.
#[tactic(auto, unfolding(crate::specs::Characters::is_in_run))]
pub fn is_in_run(c: char) -> bool
    ensures { result ≡ is_in_run c }
{
    is_in_word(c) || c == '.'
}

#[tactic(auto, unfolding(crate::specs::Characters::is_exponent))]
pub fn is_exponent(c: char) -> bool
    ensures { result ≡ is_exponent c }
{
    c == 'e' || c == 'E'
}

#[tactic(auto, unfolding(crate::specs::Characters::is_power))]
pub fn is_power(c: char) -> bool
    ensures { result ≡ is_power c }
{
    c == 'p' || c == 'P'
}

#[tactic(auto, unfolding(crate::specs::Characters::is_x))]
pub fn is_x(c: char) -> bool
    ensures { result ≡ is_x c }
{
    c == 'x' || c == 'X'
}

#[tactic(auto, unfolding(crate::specs::Characters::is_sign))]
pub fn is_sign(c: char) -> bool
    ensures { result ≡ is_sign c }
{
    c == '+' || c == '-'
}

#[tactic(auto, unfolding(crate::specs::Characters::is_b))]
pub fn is_b(c: char) -> bool
    ensures { result ≡ is_b c }
{
    c == 'b' || c == 'B'
}

#[tactic(auto, unfolding(crate::specs::Characters::is_o))]
pub fn is_o(c: char) -> bool
    ensures { result ≡ is_o c }
{
    c == 'o' || c == 'O'
}
