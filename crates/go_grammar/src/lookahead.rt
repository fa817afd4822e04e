//! What the next token says.

ghost use Rattle.std.specs.Prelude.{◌≡◌, Some, None};
ghost use Rattle.go_grammar.specs.Reader as reader;

use crate::kind::{
    Arithmetic, Category, Comparison, Kind, Level, Operator, Place, Sign, Sort, Step,
};
use go_tokens::token::TokenKind;

/// The kind of operand or unary expression that a token opens.
fn opened_expression(word: TokenKind) -> Option<Kind>
    ensures { result ≡ reader.opened_expression word }
{
    match word {
        TokenKind::Identifier => Some(Kind::Name),
        TokenKind::Integer => Some(Kind::Integer),
        TokenKind::Rune => Some(Kind::Rune),
        TokenKind::Text => Some(Kind::Text),
        TokenKind::LeftParenthesis => Some(Kind::Parenthesized),
        TokenKind::LeftBracket => Some(Kind::SequenceType),
        TokenKind::Func => Some(Kind::FunctionType),
        TokenKind::Struct => Some(Kind::StructType),
        TokenKind::Plus => Some(Kind::Unary(Sign::Plus)),
        TokenKind::Minus => Some(Kind::Unary(Sign::Minus)),
        TokenKind::Not => Some(Kind::Unary(Sign::Not)),
        TokenKind::Caret => Some(Kind::Unary(Sign::Complement)),
        _ => None,
    }
}

/// The kind of type that a token opens.
fn opened_type(word: TokenKind) -> Option<Kind>
    ensures { result ≡ reader.opened_type word }
{
    match word {
        TokenKind::Identifier => Some(Kind::Name),
        TokenKind::LeftParenthesis => Some(Kind::ParenthesizedType),
        TokenKind::LeftBracket => Some(Kind::SequenceType),
        TokenKind::Func => Some(Kind::FunctionType),
        TokenKind::Struct => Some(Kind::StructType),
        _ => None,
    }
}

/// The kind that this word opens.
fn opened_by(word: TokenKind, kind: Kind, next: TokenKind) -> Option<Kind>
    ensures { result ≡ reader.opened_by word kind next }
{
    (next == word).then_some(kind)
}

/// The kind of node that a specification opens with.
fn opened_specification(sort: Sort, word: TokenKind) -> Option<Kind>
    ensures { result ≡ reader.opened_specification sort word }
{
    match sort {
        Sort::Type => opened_by(TokenKind::Identifier, Kind::Specification(Sort::Type), word),
        _ => opened_by(TokenKind::Identifier, Kind::DeclaredName, word),
    }
}

/// The kind of node that stands behind the first word of a declaration.
fn opened_body(sort: Sort, word: TokenKind) -> Option<Kind>
    ensures { result ≡ reader.opened_body sort word }
{
    match word {
        TokenKind::LeftParenthesis => Some(Kind::Group(sort)),
        _ => opened_specification(sort, word),
    }
}

/// The kind of node that stands behind `import`.
fn opened_import(word: TokenKind) -> Option<Kind>
    ensures { result ≡ reader.opened_import word }
{
    match word {
        TokenKind::Text => Some(Kind::ImportPath),
        TokenKind::LeftParenthesis => Some(Kind::ImportGroup),
        _ => None,
    }
}

/// The kind of declaration that a token opens.
fn opened_declaration(word: TokenKind) -> Option<Kind>
    ensures { result ≡ reader.opened_declaration word }
{
    match word {
        TokenKind::Const => Some(Kind::Declaration(Sort::Constant)),
        TokenKind::Type => Some(Kind::Declaration(Sort::Type)),
        TokenKind::Var => Some(Kind::Declaration(Sort::Variable)),
        TokenKind::Func => Some(Kind::FunctionDeclaration),
        _ => None,
    }
}

/// The kind of node that stands behind the names of a specification.
fn opened_rest(word: TokenKind) -> Option<Kind>
    ensures { result ≡ reader.opened_rest word }
{
    match word {
        TokenKind::Assign => Some(Kind::Values),
        _ => opened_type(word),
    }
}

/// The kind of result that a token opens.
fn opened_result(word: TokenKind) -> Option<Kind>
    ensures { result ≡ reader.opened_result word }
{
    match word {
        TokenKind::LeftParenthesis => Some(Kind::Results),
        _ => opened_type(word),
    }
}

/// The kind of type of a composite literal that a token opens.
fn opened_literal_type(word: TokenKind) -> Option<Kind>
    ensures { result ≡ reader.opened_literal_type word }
{
    match word {
        TokenKind::Identifier => Some(Kind::Name),
        TokenKind::LeftBracket => Some(Kind::SequenceType),
        TokenKind::Struct => Some(Kind::StructType),
        _ => None,
    }
}

/// The kind of node that stands in the brackets of an index or slice expression.
fn opened_bracket(word: TokenKind) -> Option<Kind>
    ensures { result ≡ reader.opened_bracket word }
{
    match word {
        TokenKind::Colon => Some(Kind::Bounds),
        _ => opened_expression(word),
    }
}

/// The kind of element of a composite literal that a token opens.
fn opened_element(word: TokenKind) -> Option<Kind>
    ensures { result ≡ reader.opened_element word }
{
    match word {
        TokenKind::LeftBrace => Some(Kind::LiteralValue),
        _ => opened_expression(word),
    }
}

/// The kind of node that a statement opens with.
fn opened_statement(word: TokenKind) -> Option<Kind>
    ensures { result ≡ reader.opened_statement word }
{
    match word {
        TokenKind::Const => Some(Kind::Declaration(Sort::Constant)),
        TokenKind::Type => Some(Kind::Declaration(Sort::Type)),
        TokenKind::Var => Some(Kind::Declaration(Sort::Variable)),
        TokenKind::Return => Some(Kind::Return),
        TokenKind::Break => Some(Kind::Break),
        TokenKind::Continue => Some(Kind::Continue),
        TokenKind::Fallthrough => Some(Kind::Fallthrough),
        TokenKind::LeftBrace => Some(Kind::Block),
        TokenKind::If => Some(Kind::If),
        TokenKind::Switch => Some(Kind::Switch),
        TokenKind::For => Some(Kind::For),
        _ => opened_expression(word),
    }
}

/// The kind of node that stands behind `else`.
fn opened_branch(word: TokenKind) -> Option<Kind>
    ensures { result ≡ reader.opened_branch word }
{
    match word {
        TokenKind::If => Some(Kind::If),
        TokenKind::LeftBrace => Some(Kind::Block),
        _ => None,
    }
}

/// The kind of node that the header of an if statement opens with.
fn opened_condition(word: TokenKind) -> Option<Kind>
    ensures { result ≡ reader.opened_condition word }
{
    match word {
        TokenKind::Semicolon => Some(Kind::LateCondition),
        _ => opened_expression(word),
    }
}

/// The kind of node that the header of a switch statement opens with.
fn opened_tag(word: TokenKind) -> Option<Kind>
    ensures { result ≡ reader.opened_tag word }
{
    match word {
        TokenKind::Semicolon => Some(Kind::LateTag),
        _ => opened_expression(word),
    }
}

/// The kind of node that the header of a loop opens with.
fn opened_loop(word: TokenKind) -> Option<Kind>
    ensures { result ≡ reader.opened_loop word }
{
    match word {
        TokenKind::Semicolon => Some(Kind::ForClause),
        TokenKind::Range => Some(Kind::Range),
        _ => opened_expression(word),
    }
}

/// The kind of clause that a token opens.
fn opened_clause(word: TokenKind) -> Option<Kind>
    ensures { result ≡ reader.opened_clause word }
{
    match word {
        TokenKind::Case => Some(Kind::Case),
        TokenKind::Default => Some(Kind::Default),
        _ => None,
    }
}

/// The kind of node that a text of the category opens with, by its first token.
pub fn opened(category: Category, word: TokenKind) -> Option<Kind>
    ensures { result ≡ reader.opens category word }
{
    match category {
        Category::File => opened_by(TokenKind::Package, Kind::File, word),
        Category::Imports | Category::Import => opened_by(TokenKind::Import, Kind::Import, word),
        Category::ImportBody => opened_import(word),
        Category::ImportPath => opened_by(TokenKind::Text, Kind::ImportPath, word),
        Category::Declaration => opened_declaration(word),
        Category::DeclarationBody(sort) => opened_body(sort, word),
        Category::Specification(sort) => opened_specification(sort, word),
        Category::NameList | Category::DeclaredName | Category::Fields => {
            opened_by(TokenKind::Identifier, Kind::DeclaredName, word)
        }
        Category::ConstantRest | Category::VariableRest => opened_rest(word),
        Category::Signature | Category::Parameters => {
            opened_by(TokenKind::LeftParenthesis, Kind::Parameters, word)
        }
        Category::Entry | Category::Type => opened_type(word),
        Category::Result => opened_result(word),
        Category::LiteralType(_) => opened_literal_type(word),
        Category::Name => opened_by(TokenKind::Identifier, Kind::Name, word),
        Category::Bracket => opened_bracket(word),
        Category::Element | Category::Value => opened_element(word),
        Category::Expression(_, _)
        | Category::ExpressionList(_)
        | Category::LeftList(_)
        | Category::Targets(_)
        | Category::NewNames(_)
        | Category::Simple
        | Category::Post => opened_expression(word),
        Category::Block => opened_by(TokenKind::LeftBrace, Kind::Block, word),
        Category::Statement => opened_statement(word),
        Category::Else => opened_by(TokenKind::Else, Kind::Else, word),
        Category::Branch => opened_branch(word),
        Category::IfHeader => opened_condition(word),
        Category::SwitchHeader => opened_tag(word),
        Category::ForHeader => opened_loop(word),
        Category::Clause => opened_clause(word),
    }
}

/// Whether a text of the category may begin with the token.
pub fn begins(category: Category, next: Option<TokenKind>) -> bool
    ensures { result ≡ reader.begins category next }
{
    match next {
        Some(word) => opened(category, word).is_some(),
        None => false,
    }
}

/// The operator that a token is, between operands.
fn operator_of(word: TokenKind) -> Option<Operator>
    ensures { result ≡ reader.operator_of word }
{
    match word {
        TokenKind::LogicalOr => Some(Operator::Either),
        TokenKind::LogicalAnd => Some(Operator::Both),
        TokenKind::Equal => Some(Operator::Compare(Comparison::Equal)),
        TokenKind::NotEqual => Some(Operator::Compare(Comparison::NotEqual)),
        TokenKind::Less => Some(Operator::Compare(Comparison::Less)),
        TokenKind::LessEqual => Some(Operator::Compare(Comparison::LessEqual)),
        TokenKind::Greater => Some(Operator::Compare(Comparison::Greater)),
        TokenKind::GreaterEqual => Some(Operator::Compare(Comparison::GreaterEqual)),
        TokenKind::Plus => Some(Operator::Compute(Arithmetic::Add)),
        TokenKind::Minus => Some(Operator::Compute(Arithmetic::Subtract)),
        TokenKind::Bar => Some(Operator::Compute(Arithmetic::Or)),
        TokenKind::Caret => Some(Operator::Compute(Arithmetic::Xor)),
        TokenKind::Star => Some(Operator::Compute(Arithmetic::Multiply)),
        TokenKind::Slash => Some(Operator::Compute(Arithmetic::Divide)),
        TokenKind::Percent => Some(Operator::Compute(Arithmetic::Remainder)),
        TokenKind::ShiftLeft => Some(Operator::Compute(Arithmetic::ShiftLeft)),
        TokenKind::ShiftRight => Some(Operator::Compute(Arithmetic::ShiftRight)),
        TokenKind::Ampersand => Some(Operator::Compute(Arithmetic::And)),
        TokenKind::AndNot => Some(Operator::Compute(Arithmetic::AndNot)),
        _ => None,
    }
}

/// The kind of primary expression that a token makes of one in front of it.
fn suffix(word: TokenKind) -> Option<Kind>
    ensures { result ≡ reader.suffix word }
{
    match word {
        TokenKind::Period => Some(Kind::Selector),
        TokenKind::LeftBracket => Some(Kind::Bracketed),
        TokenKind::LeftParenthesis => Some(Kind::Call),
        _ => None,
    }
}

/// The kind of binary expression that an expression as tight as this becomes the first operand of, where at least the level
/// is asked for.
fn joined_by(level: Level, tightness: u8, operator: Option<Operator>) -> Option<Kind>
    ensures { result ≡ reader.joined_by level tightness operator }
{
    let operator = operator?;
    let rank = operator.level().rank();
    (level.rank() <= rank && rank <= tightness).then_some(Kind::Binary(operator))
}

/// The first kind, or where there is none the second.
fn or_else(first: Option<Kind>, second: Option<Kind>) -> Option<Kind>
    ensures { result ≡ reader.or_else first second }
{
    match first {
        Some(kind) => Some(kind),
        None => second,
    }
}

/// What an expression becomes before the token.
fn extended(level: Level, place: Place, kind: Kind, word: TokenKind) -> Option<Kind>
    ensures { result ≡ reader.extended level place kind word }
{
    if word == TokenKind::LeftBrace {
        return kind.is_literal_type(place).then_some(Kind::Composite);
    }
    let tightness = kind.tightness();
    if tightness >= 7
        && let Some(kind) = suffix(word)
    {
        return Some(kind);
    }
    joined_by(level, tightness, operator_of(word))
}

/// What an expression becomes before the next token.
fn extends(level: Level, place: Place, kind: Kind, next: Option<TokenKind>) -> Option<Kind>
    ensures { result ≡ reader.extends level place kind next }
{
    let word = next?;
    if kind.is_expression() {
        extended(level, place, kind, word)
    } else {
        None
    }
}

/// What a whole expression at the head of a statement becomes before the token, other than an expression statement.
fn assigned(word: TokenKind) -> Option<Kind>
    ensures { result ≡ reader.assigned word }
{
    match word {
        TokenKind::PlusAssign => Some(Kind::OperatorAssignment(Arithmetic::Add)),
        TokenKind::MinusAssign => Some(Kind::OperatorAssignment(Arithmetic::Subtract)),
        TokenKind::BarAssign => Some(Kind::OperatorAssignment(Arithmetic::Or)),
        TokenKind::CaretAssign => Some(Kind::OperatorAssignment(Arithmetic::Xor)),
        TokenKind::StarAssign => Some(Kind::OperatorAssignment(Arithmetic::Multiply)),
        TokenKind::SlashAssign => Some(Kind::OperatorAssignment(Arithmetic::Divide)),
        TokenKind::PercentAssign => Some(Kind::OperatorAssignment(Arithmetic::Remainder)),
        TokenKind::ShiftLeftAssign => Some(Kind::OperatorAssignment(Arithmetic::ShiftLeft)),
        TokenKind::ShiftRightAssign => Some(Kind::OperatorAssignment(Arithmetic::ShiftRight)),
        TokenKind::AmpersandAssign => Some(Kind::OperatorAssignment(Arithmetic::And)),
        TokenKind::AndNotAssign => Some(Kind::OperatorAssignment(Arithmetic::AndNot)),
        TokenKind::Increment => Some(Kind::StepStatement(Step::Increment)),
        TokenKind::Decrement => Some(Kind::StepStatement(Step::Decrement)),
        TokenKind::Assign | TokenKind::Define | TokenKind::Comma => Some(Kind::ExpressionList),
        _ => None,
    }
}

/// What a whole expression at the head of a statement becomes before the next token; otherwise this kind.
fn headed(otherwise: Option<Kind>, next: Option<TokenKind>) -> Option<Kind>
    ensures { result ≡ reader.headed otherwise next }
{
    match next {
        Some(word) => or_else(assigned(word), otherwise),
        None => otherwise,
    }
}

/// What a list of expressions at the head of a statement becomes.
fn listed(next: Option<TokenKind>) -> Option<Kind>
    ensures { result ≡ reader.listed next }
{
    match next? {
        TokenKind::Assign => Some(Kind::Targets),
        TokenKind::Define => Some(Kind::NewNames),
        _ => None,
    }
}

/// What a list of expressions, alone or with `=` or `:=`, becomes at the head of a statement.
fn begun(kind: Kind, next: Option<TokenKind>) -> Option<Kind>
    ensures { result ≡ reader.begun kind next }
{
    match kind {
        Kind::ExpressionList => listed(next),
        Kind::Targets => Some(Kind::Assignment),
        Kind::NewNames => Some(Kind::Define),
        _ => None,
    }
}

/// What a finished node at the head of a statement becomes; a whole expression otherwise becomes this kind.
fn stated(
    place: Place,
    otherwise: Option<Kind>,
    kind: Kind,
    next: Option<TokenKind>,
) -> Option<Kind>
    ensures { result ≡ reader.stated place otherwise kind next }
{
    let extended = extends(Level::Either, place, kind, next);
    let whole = whole(kind, headed(otherwise, next));
    or_else(begun(kind, next), or_else(extended, whole))
}

/// What a whole expression becomes; nothing where this is none.
fn whole(kind: Kind, becomes: Option<Kind>) -> Option<Kind>
    ensures { result ≡ reader.whole kind becomes }
{
    if kind.is_expression() { becomes } else { None }
}

/// What a whole expression at the head of a header becomes, other than an assignment.
fn condition_or_statement(next: Option<TokenKind>) -> Option<Kind>
    ensures { result ≡ reader.condition_or_statement next }
{
    match next? {
        TokenKind::Semicolon => Some(Kind::ExpressionStatement),
        _ => None,
    }
}

/// The first kind before `range`, else the second.
fn ranged(range: Kind, otherwise: Kind, next: Option<TokenKind>) -> Option<Kind>
    ensures { result ≡ reader.ranged range otherwise next }
{
    match next {
        Some(TokenKind::Range) => Some(range),
        _ => Some(otherwise),
    }
}

/// What a finished node in a header becomes; a simple statement becomes this kind.
fn headed_by(begun: Kind, kind: Kind, next: Option<TokenKind>) -> Option<Kind>
    ensures { result ≡ reader.headed_by begun kind next }
{
    if kind.is_simple() {
        Some(begun)
    } else {
        stated(Place::Header, condition_or_statement(next), kind, next)
    }
}

/// What a list with `=` or `:=` in a loop's header becomes.
fn looping(kind: Kind, next: Option<TokenKind>) -> Option<Kind>
    ensures { result ≡ reader.looping kind next }
{
    match kind {
        Kind::Targets => ranged(Kind::AssigningRange, Kind::Assignment, next),
        Kind::NewNames => ranged(Kind::DefiningRange, Kind::Define, next),
        _ => None,
    }
}

/// What a finished node in a loop's header becomes.
fn looped(kind: Kind, next: Option<TokenKind>) -> Option<Kind>
    ensures { result ≡ reader.looped kind next }
{
    let begun = headed_by(Kind::InitializedForClause, kind, next);
    or_else(looping(kind, next), begun)
}

/// What a finished node becomes where names are listed in front of a node of this kind.
fn named(list: Kind, kind: Kind) -> Option<Kind>
    ensures { result ≡ reader.named list kind }
{
    match kind {
        Kind::DeclaredName => Some(Kind::NameList),
        Kind::NameList => Some(list),
        _ => None,
    }
}

/// What a finished node in a list of expressions becomes.
fn listing(place: Place, kind: Kind, next: Option<TokenKind>) -> Option<Kind>
    ensures { result ≡ reader.listing place kind next }
{
    or_else(
        extends(Level::Either, place, kind, next),
        whole(kind, Some(Kind::ExpressionList)),
    )
}

/// The kind before this word.
fn at_word(word: TokenKind, kind: Kind, next: Option<TokenKind>) -> Option<Kind>
    ensures { result ≡ reader.at_word word kind next }
{
    (next == Some(word)).then_some(kind)
}

/// What a finished node in a list in front of `=` or `:=` becomes, once the list is whole.
fn assigning(whole: Kind, place: Place, kind: Kind, next: Option<TokenKind>) -> Option<Kind>
    ensures { result ≡ reader.assigning whole place kind next }
{
    match kind {
        Kind::ExpressionList => Some(whole),
        _ => listing(place, kind, next),
    }
}

/// What a finished node in an element of a composite literal becomes.
fn keyed(kind: Kind, next: Option<TokenKind>) -> Option<Kind>
    ensures { result ≡ reader.keyed kind next }
{
    let extended = extends(Level::Either, Place::Free, kind, next);
    match kind {
        Kind::Name => or_else(extended, at_word(TokenKind::Colon, Kind::Keyed, next)),
        _ => extended,
    }
}

/// What a finished node in an entry of parameters becomes.
fn entered(kind: Kind, next: Option<TokenKind>) -> Option<Kind>
    ensures { result ≡ reader.entered kind next }
{
    match kind {
        Kind::Name => begins(Category::Type, next).then_some(Kind::Parameter),
        _ => None,
    }
}

/// What a type becomes.
fn typed(kind: Kind, becomes: Option<Kind>) -> Option<Kind>
    ensures { result ≡ reader.typed kind becomes }
{
    if kind.is_type() { becomes } else { None }
}

/// What a finished node among imports becomes.
fn imported(kind: Kind) -> Option<Kind>
    ensures { result ≡ reader.imported kind }
{
    match kind {
        Kind::Import => Some(Kind::Imports),
        _ => None,
    }
}

/// What a finished node in a signature becomes.
fn signed(kind: Kind) -> Option<Kind>
    ensures { result ≡ reader.signed kind }
{
    match kind {
        Kind::Parameters => Some(Kind::Signature),
        _ => None,
    }
}

/// What a finished node among declared names becomes.
fn declared(kind: Kind) -> Option<Kind>
    ensures { result ≡ reader.declared kind }
{
    match kind {
        Kind::DeclaredName => Some(Kind::NameList),
        _ => None,
    }
}

/// The kind of node that a finished node becomes the first part of, on the way to the category, before the next token.
pub fn continued(category: Category, kind: Kind, next: Option<TokenKind>) -> Option<Kind>
    ensures { result ≡ reader.continues category kind next }
{
    let statement = Some(Kind::ExpressionStatement);
    match category {
        Category::Imports => imported(kind),
        Category::DeclarationBody(sort) | Category::Specification(sort) => {
            named(Kind::Specification(sort), kind)
        }
        Category::NameList => declared(kind),
        Category::ConstantRest => typed(kind, Some(Kind::TypedValues)),
        Category::VariableRest => {
            typed(kind, at_word(TokenKind::Assign, Kind::TypedValues, next))
        }
        Category::Signature => signed(kind),
        Category::Entry => entered(kind, next),
        Category::Fields => named(Kind::Fields, kind),
        Category::Expression(level, place) => extends(level, place, kind, next),
        Category::Bracket => or_else(
            extends(Level::Either, Place::Free, kind, next),
            whole(kind, at_word(TokenKind::Colon, Kind::BoundsFrom, next)),
        ),
        Category::Element => keyed(kind, next),
        Category::Value => extends(Level::Either, Place::Free, kind, next),
        Category::ExpressionList(place) | Category::LeftList(place) => listing(place, kind, next),
        Category::Targets(place) => assigning(Kind::Targets, place, kind, next),
        Category::NewNames(place) => assigning(Kind::NewNames, place, kind, next),
        Category::Statement => stated(Place::Free, statement, kind, next),
        Category::Simple | Category::Post => stated(Place::Header, statement, kind, next),
        Category::IfHeader => headed_by(Kind::InitializedCondition, kind, next),
        Category::SwitchHeader => headed_by(Kind::InitializedTag, kind, next),
        Category::ForHeader => looped(kind, next),
        _ => None,
    }
}
