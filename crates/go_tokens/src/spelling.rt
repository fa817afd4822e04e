//! How keywords, operators and punctuation are spelled.

ghost use Rattle.std.specs.Prelude.{◌≡◌, ◌∷◌, [], map};
ghost use Rattle.go_tokens.specs.Spellings.{same_text, spelled, word_kind, is_outside, ends_statement_kind, listed, operators, outside_operators, operator_kind};

use crate::token::TokenKind;

pub const KEYWORDS: [(&[u8], TokenKind); 25] = [
    (b"break", TokenKind::Break),
    (b"case", TokenKind::Case),
    (b"chan", TokenKind::Chan),
    (b"const", TokenKind::Const),
    (b"continue", TokenKind::Continue),
    (b"default", TokenKind::Default),
    (b"defer", TokenKind::Defer),
    (b"else", TokenKind::Else),
    (b"fallthrough", TokenKind::Fallthrough),
    (b"for", TokenKind::For),
    (b"func", TokenKind::Func),
    (b"go", TokenKind::Go),
    (b"goto", TokenKind::Goto),
    (b"if", TokenKind::If),
    (b"import", TokenKind::Import),
    (b"interface", TokenKind::Interface),
    (b"map", TokenKind::Map),
    (b"package", TokenKind::Package),
    (b"range", TokenKind::Range),
    (b"return", TokenKind::Return),
    (b"select", TokenKind::Select),
    (b"struct", TokenKind::Struct),
    (b"switch", TokenKind::Switch),
    (b"type", TokenKind::Type),
    (b"var", TokenKind::Var),
];

/// Those that stand most often come first.
pub const PUNCTUATION: [(&[u8], TokenKind); 45] = [
    (b"(", TokenKind::LeftParenthesis),
    (b")", TokenKind::RightParenthesis),
    (b",", TokenKind::Comma),
    (b".", TokenKind::Period),
    (b"=", TokenKind::Assign),
    (b":=", TokenKind::Define),
    (b"{", TokenKind::LeftBrace),
    (b"}", TokenKind::RightBrace),
    (b"[", TokenKind::LeftBracket),
    (b"]", TokenKind::RightBracket),
    (b"+", TokenKind::Plus),
    (b"-", TokenKind::Minus),
    (b"*", TokenKind::Star),
    (b"/", TokenKind::Slash),
    (b"%", TokenKind::Percent),
    (b"&", TokenKind::Ampersand),
    (b"|", TokenKind::Bar),
    (b"^", TokenKind::Caret),
    (b"<<", TokenKind::ShiftLeft),
    (b">>", TokenKind::ShiftRight),
    (b"&^", TokenKind::AndNot),
    (b"+=", TokenKind::PlusAssign),
    (b"-=", TokenKind::MinusAssign),
    (b"*=", TokenKind::StarAssign),
    (b"/=", TokenKind::SlashAssign),
    (b"%=", TokenKind::PercentAssign),
    (b"&=", TokenKind::AmpersandAssign),
    (b"|=", TokenKind::BarAssign),
    (b"^=", TokenKind::CaretAssign),
    (b"<<=", TokenKind::ShiftLeftAssign),
    (b">>=", TokenKind::ShiftRightAssign),
    (b"&^=", TokenKind::AndNotAssign),
    (b"&&", TokenKind::LogicalAnd),
    (b"||", TokenKind::LogicalOr),
    (b"++", TokenKind::Increment),
    (b"--", TokenKind::Decrement),
    (b"==", TokenKind::Equal),
    (b"!=", TokenKind::NotEqual),
    (b"<", TokenKind::Less),
    (b"<=", TokenKind::LessEqual),
    (b">", TokenKind::Greater),
    (b">=", TokenKind::GreaterEqual),
    (b"!", TokenKind::Not),
    (b";", TokenKind::Semicolon),
    (b":", TokenKind::Colon),
];

/// Whether characters are these of ASCII.
fn same_text(text: &[u8], word: &[char]) -> bool
    ensures { result ≡ same_text text.now word.now }
{
    let mut text = text;
    let mut word = word;
    while let [byte, bytes @ ..] = text {
        match word {
            [first, characters @ ..] if *first == char::from(*byte) => word = characters,
            _ => return false,
        }
        text = bytes;
    }
    word.is_empty()
}

/// The token that is spelled so, by a table of spellings.
fn spelled(mut table: &[(&[u8], TokenKind)], word: &[char]) -> Option<TokenKind>
    ensures { result ≡ spelled (map (λ k. (k.0.now, k.1)) table.entry.now) word.now }
{
    while let [entry, rest @ ..] = table {
        if same_text(entry.0, word) {
            return Some(entry.1);
        }
        table = rest;
    }
    None
}

/// What a word is: a keyword or an identifier. No keyword has one letter.
pub fn word_kind(word: &[char]) -> TokenKind
    ensures { result ≡ word_kind word.now }
{
    match word {
        [_] => TokenKind::Identifier,
        _ => spelled(&KEYWORDS, word).unwrap_or(TokenKind::Identifier),
    }
}

/// What an operator of the profile is.
pub fn operator_kind(operator: &[char]) -> TokenKind
    ensures { result ≡ operator_kind operator.now }
{
    spelled(&PUNCTUATION, operator).unwrap_or(TokenKind::Semicolon)
}

/// Whether a keyword is outside the profile.
pub fn is_outside(kind: TokenKind) -> bool
    ensures { result ≡ is_outside kind }
{
    matches!(
        kind,
        TokenKind::Chan
            | TokenKind::Defer
            | TokenKind::Go
            | TokenKind::Goto
            | TokenKind::Interface
            | TokenKind::Map
            | TokenKind::Select
    )
}

/// Whether a semicolon is inserted behind the last token of a line.
pub fn ends_statement(kind: TokenKind) -> bool
    ensures { result ≡ ends_statement_kind kind }
{
    matches!(
        kind,
        TokenKind::Identifier
            | TokenKind::Integer
            | TokenKind::Rune
            | TokenKind::Text
            | TokenKind::Break
            | TokenKind::Continue
            | TokenKind::Fallthrough
            | TokenKind::Return
            | TokenKind::Increment
            | TokenKind::Decrement
            | TokenKind::RightParenthesis
            | TokenKind::RightBracket
            | TokenKind::RightBrace
    )
}

/// Whether characters are an operator or punctuation of Go.
#[tactic(auto, unfolding(crate::specs::Spellings::operators, crate::specs::Spellings::punctuation, crate::specs::Spellings::outside_operators))]
pub fn is_operator(characters: &[char]) -> bool
    ensures { result ≡ listed operators characters.now }
{
    match characters {
        [a] => is_single(*a),
        [a, b] => is_double(*a, *b),
        [a, b, c] => is_triple(*a, *b, *c),
        _ => false,
    }
}

/// Whether an operator is outside the profile.
#[tactic(auto, unfolding(crate::specs::Spellings::outside_operators))]
pub fn is_outside_operator(operator: &[char]) -> bool
    ensures { result ≡ listed outside_operators operator.now }
{
    match operator {
        [a] => *a == '~',
        [a, b] => *a == '<' && *b == '-',
        [a, b, c] => *a == '.' && *b == '.' && *c == '.',
        _ => false,
    }
}

#[tactic(auto, unfolding(crate::specs::Spellings::operators, crate::specs::Spellings::punctuation, crate::specs::Spellings::outside_operators))]
pub fn is_single(a: char) -> bool
    ensures { result ≡ listed operators (a ∷ []) }
{
    matches!(
        a,
        '+' | '-'
            | '*'
            | '/'
            | '%'
            | '&'
            | '|'
            | '^'
            | '<'
            | '>'
            | '='
            | '!'
            | '('
            | ')'
            | '['
            | ']'
            | '{'
            | '}'
            | ','
            | ';'
            | '.'
            | ':'
            | '~'
    )
}

#[tactic(auto, unfolding(crate::specs::Spellings::operators, crate::specs::Spellings::punctuation, crate::specs::Spellings::outside_operators))]
fn is_double(a: char, b: char) -> bool
    ensures { result ≡ listed operators (a ∷ b ∷ []) }
{
    match a {
        '<' => b == '<' || b == '=' || b == '-',
        '>' => b == '>' || b == '=',
        '&' => b == '^' || b == '=' || b == '&',
        '+' => b == '=' || b == '+',
        '-' => b == '=' || b == '-',
        '*' => b == '=',
        '/' => b == '=',
        '%' => b == '=',
        '|' => b == '=' || b == '|',
        '^' => b == '=',
        '=' => b == '=',
        '!' => b == '=',
        ':' => b == '=',
        _ => false,
    }
}

#[tactic(auto, unfolding(crate::specs::Spellings::operators, crate::specs::Spellings::punctuation, crate::specs::Spellings::outside_operators))]
fn is_triple(a: char, b: char, c: char) -> bool
    ensures { result ≡ listed operators (a ∷ b ∷ c ∷ []) }
{
    match a {
        '<' => b == '<' && c == '=',
        '>' => b == '>' && c == '=',
        '&' => b == '^' && c == '=',
        '.' => b == '.' && c == '.',
        _ => false,
    }
}
