//! The grammar as data: for each kind of node the right side of its production.

ghost use Rattle.std.specs.Prelude.{◌≡◌};
ghost use Rattle.go_grammar.specs.Grammar as grammar;
ghost use Rattle.go_grammar.specs.Symbols.{right};

use crate::kind::{Category, Kind, Level, Place, Sort};
use go_tokens::token::TokenKind;

/// A symbol of a production's right side.
#[derive(Clone, Copy, Debug, PartialEq, Eq)]
pub enum Symbol {
    /// This token, which is the node's own.
    Word(TokenKind),
    /// A part of this category.
    Part(Category),
    /// A part of this category, or nothing.
    Optional(Category),
    /// A result, which is left out only where none may begin.
    Result,
    /// Items, the last symbol of their production.
    Items(Repetition),
    /// Behind the last symbol.
    End,
}

/// Any number of items of a category.
#[derive(Clone, Copy, Debug, PartialEq, Eq)]
pub enum Repetition {
    /// Each item is followed by the separator, which may be left out before the closing word; then the closing word.
    Lines {
        /// Whether the separator may stand alone.
        alone: bool,
        item: Category,
        separator: TokenKind,
        close: TokenKind,
    },
    /// Each item is followed by the separator, which may also stand alone, and may be left out before a closing brace. The
    /// brace is no part of the text.
    Open {
        item: Category,
        separator: TokenKind,
    },
    /// Each item is followed by the separator, and all of them by the closing word, where there is one.
    Each {
        item: Category,
        separator: Option<TokenKind>,
        close: Option<TokenKind>,
    },
    /// The separator stands before each item.
    Again {
        item: Category,
        separator: TokenKind,
    },
}

/// Any expression.
fn any(place: Place) -> Category
    ensures { result ≡ grammar.any place }
{
    Category::Expression(Level::Either, place)
}

/// The right side of the production of a kind of node, in a place.
pub fn production(place: Place, kind: Kind) -> [Symbol; 5]
    ensures { right result ≡ grammar.rule place kind }
{
    match kind {
        // Source file organization: SourceFile = PackageClause ";" { ImportDecl ";" } { TopLevelDecl ";" }
        Kind::File => [
            Symbol::Word(TokenKind::Package),
            Symbol::Word(TokenKind::Identifier),
            Symbol::Word(TokenKind::Semicolon),
            Symbol::Optional(Category::Imports),
            Symbol::Items(Repetition::Each {
                item: Category::Declaration,
                separator: Some(TokenKind::Semicolon),
                close: None,
            }),
        ],
        Kind::Imports => [
            Symbol::Part(Category::Import),
            Symbol::Word(TokenKind::Semicolon),
            Symbol::Items(Repetition::Each {
                item: Category::Import,
                separator: Some(TokenKind::Semicolon),
                close: None,
            }),
            Symbol::End,
            Symbol::End,
        ],
        // Import declarations: ImportDecl = "import" ( ImportSpec | "(" { ImportSpec ";" } ")" )
        Kind::Import => [
            Symbol::Word(TokenKind::Import),
            Symbol::Part(Category::ImportBody),
            Symbol::End,
            Symbol::End,
            Symbol::End,
        ],
        Kind::ImportGroup => [
            Symbol::Word(TokenKind::LeftParenthesis),
            Symbol::Items(Repetition::Lines {
                alone: false,
                item: Category::ImportPath,
                separator: TokenKind::Semicolon,
                close: TokenKind::RightParenthesis,
            }),
            Symbol::End,
            Symbol::End,
            Symbol::End,
        ],
        // Import declarations: ImportPath = string_lit
        Kind::ImportPath => [
            Symbol::Word(TokenKind::Text),
            Symbol::End,
            Symbol::End,
            Symbol::End,
            Symbol::End,
        ],
        // Constant, type and variable declarations: "const" ( ConstSpec | "(" { ConstSpec ";" } ")" ), and alike
        Kind::Declaration(sort) => [
            Symbol::Word(sort.word()),
            Symbol::Part(Category::DeclarationBody(sort)),
            Symbol::End,
            Symbol::End,
            Symbol::End,
        ],
        Kind::Group(sort) => [
            Symbol::Word(TokenKind::LeftParenthesis),
            Symbol::Items(Repetition::Lines {
                alone: false,
                item: Category::Specification(sort),
                separator: TokenKind::Semicolon,
                close: TokenKind::RightParenthesis,
            }),
            Symbol::End,
            Symbol::End,
            Symbol::End,
        ],
        // Constant declarations: ConstSpec = IdentifierList [ [ Type ] "=" ExpressionList ]
        Kind::Specification(Sort::Constant) => [
            Symbol::Part(Category::NameList),
            Symbol::Optional(Category::ConstantRest),
            Symbol::End,
            Symbol::End,
            Symbol::End,
        ],
        // Type declarations: TypeDef = identifier Type
        Kind::Specification(Sort::Type) => [
            Symbol::Word(TokenKind::Identifier),
            Symbol::Part(Category::Type),
            Symbol::End,
            Symbol::End,
            Symbol::End,
        ],
        // Variable declarations: VarSpec = IdentifierList ( Type [ "=" ExpressionList ] | "=" ExpressionList )
        Kind::Specification(Sort::Variable) => [
            Symbol::Part(Category::NameList),
            Symbol::Part(Category::VariableRest),
            Symbol::End,
            Symbol::End,
            Symbol::End,
        ],
        // Constant declarations: IdentifierList = identifier { "," identifier }
        Kind::NameList => [
            Symbol::Part(Category::DeclaredName),
            Symbol::Items(Repetition::Again {
                item: Category::DeclaredName,
                separator: TokenKind::Comma,
            }),
            Symbol::End,
            Symbol::End,
            Symbol::End,
        ],
        Kind::DeclaredName => [
            Symbol::Word(TokenKind::Identifier),
            Symbol::End,
            Symbol::End,
            Symbol::End,
            Symbol::End,
        ],
        Kind::TypedValues => [
            Symbol::Part(Category::Type),
            Symbol::Word(TokenKind::Assign),
            Symbol::Part(Category::ExpressionList(Place::Free)),
            Symbol::End,
            Symbol::End,
        ],
        Kind::Values => [
            Symbol::Word(TokenKind::Assign),
            Symbol::Part(Category::ExpressionList(Place::Free)),
            Symbol::End,
            Symbol::End,
            Symbol::End,
        ],
        // Function declarations: FunctionDecl = "func" FunctionName Signature [ FunctionBody ]
        Kind::FunctionDeclaration => [
            Symbol::Word(TokenKind::Func),
            Symbol::Word(TokenKind::Identifier),
            Symbol::Part(Category::Signature),
            Symbol::Optional(Category::Block),
            Symbol::End,
        ],
        // Function types: Signature = Parameters [ Result ]
        Kind::Signature => [
            Symbol::Part(Category::Parameters),
            Symbol::Result,
            Symbol::End,
            Symbol::End,
            Symbol::End,
        ],
        // Function types: Parameters = "(" [ ParameterList [ "," ] ] ")"
        Kind::Parameters => [
            Symbol::Word(TokenKind::LeftParenthesis),
            Symbol::Items(Repetition::Lines {
                alone: false,
                item: Category::Entry,
                separator: TokenKind::Comma,
                close: TokenKind::RightParenthesis,
            }),
            Symbol::End,
            Symbol::End,
            Symbol::End,
        ],
        // Function types: ParameterDecl = [ IdentifierList ] Type
        Kind::Parameter => [
            Symbol::Part(Category::Name),
            Symbol::Part(Category::Type),
            Symbol::End,
            Symbol::End,
            Symbol::End,
        ],
        // Function types: Result = Parameters | Type
        Kind::Results => [
            Symbol::Word(TokenKind::LeftParenthesis),
            Symbol::Items(Repetition::Lines {
                alone: false,
                item: Category::Type,
                separator: TokenKind::Comma,
                close: TokenKind::RightParenthesis,
            }),
            Symbol::End,
            Symbol::End,
            Symbol::End,
        ],
        // Types: Type = TypeName | TypeLit | "(" Type ")"
        Kind::ParenthesizedType => [
            Symbol::Word(TokenKind::LeftParenthesis),
            Symbol::Part(Category::Type),
            Symbol::Word(TokenKind::RightParenthesis),
            Symbol::End,
            Symbol::End,
        ],
        // Array types, Slice types: "[" [ ArrayLength ] "]" ElementType
        Kind::SequenceType => [
            Symbol::Word(TokenKind::LeftBracket),
            Symbol::Optional(any(Place::Free)),
            Symbol::Word(TokenKind::RightBracket),
            Symbol::Part(Category::Type),
            Symbol::End,
        ],
        // Function types: FunctionType = "func" Signature
        Kind::FunctionType => [
            Symbol::Word(TokenKind::Func),
            Symbol::Part(Category::Signature),
            Symbol::End,
            Symbol::End,
            Symbol::End,
        ],
        // Struct types: StructType = "struct" "{" { FieldDecl ";" } "}"
        Kind::StructType => [
            Symbol::Word(TokenKind::Struct),
            Symbol::Word(TokenKind::LeftBrace),
            Symbol::Items(Repetition::Lines {
                alone: false,
                item: Category::Fields,
                separator: TokenKind::Semicolon,
                close: TokenKind::RightBrace,
            }),
            Symbol::End,
            Symbol::End,
        ],
        // Struct types: FieldDecl = IdentifierList Type
        Kind::Fields => [
            Symbol::Part(Category::NameList),
            Symbol::Part(Category::Type),
            Symbol::End,
            Symbol::End,
            Symbol::End,
        ],
        // Operands: OperandName, BasicLit, "(" Expression ")"
        Kind::Name => [
            Symbol::Word(TokenKind::Identifier),
            Symbol::End,
            Symbol::End,
            Symbol::End,
            Symbol::End,
        ],
        Kind::Integer => [
            Symbol::Word(TokenKind::Integer),
            Symbol::End,
            Symbol::End,
            Symbol::End,
            Symbol::End,
        ],
        Kind::Rune => [
            Symbol::Word(TokenKind::Rune),
            Symbol::End,
            Symbol::End,
            Symbol::End,
            Symbol::End,
        ],
        Kind::Text => [
            Symbol::Word(TokenKind::Text),
            Symbol::End,
            Symbol::End,
            Symbol::End,
            Symbol::End,
        ],
        Kind::Parenthesized => [
            Symbol::Word(TokenKind::LeftParenthesis),
            Symbol::Part(any(Place::Free)),
            Symbol::Word(TokenKind::RightParenthesis),
            Symbol::End,
            Symbol::End,
        ],
        // Operators: UnaryExpr = unary_op UnaryExpr
        Kind::Unary(sign) => [
            Symbol::Word(sign.word()),
            Symbol::Part(Category::Expression(Level::Unary, place)),
            Symbol::End,
            Symbol::End,
            Symbol::End,
        ],
        // Operators: Expression binary_op Expression
        Kind::Binary(operator) => [
            Symbol::Part(Category::Expression(operator.level(), place)),
            Symbol::Word(operator.word()),
            Symbol::Part(Category::Expression(operator.level().tighter(), place)),
            Symbol::End,
            Symbol::End,
        ],
        // Primary expressions: Selector = "." identifier
        Kind::Selector => [
            Symbol::Part(Category::Expression(Level::Primary, place)),
            Symbol::Word(TokenKind::Period),
            Symbol::Word(TokenKind::Identifier),
            Symbol::End,
            Symbol::End,
        ],
        // Primary expressions: Index = "[" Expression "]", Slice = "[" [ Expression ] ":" [ Expression ] "]"
        Kind::Bracketed => [
            Symbol::Part(Category::Expression(Level::Primary, place)),
            Symbol::Word(TokenKind::LeftBracket),
            Symbol::Part(Category::Bracket),
            Symbol::Word(TokenKind::RightBracket),
            Symbol::End,
        ],
        Kind::Bounds => [
            Symbol::Word(TokenKind::Colon),
            Symbol::Optional(any(Place::Free)),
            Symbol::End,
            Symbol::End,
            Symbol::End,
        ],
        Kind::BoundsFrom => [
            Symbol::Part(any(Place::Free)),
            Symbol::Word(TokenKind::Colon),
            Symbol::Optional(any(Place::Free)),
            Symbol::End,
            Symbol::End,
        ],
        // Primary expressions: Arguments = "(" [ ExpressionList [ "," ] ] ")"
        Kind::Call => [
            Symbol::Part(Category::Expression(Level::Primary, place)),
            Symbol::Word(TokenKind::LeftParenthesis),
            Symbol::Items(Repetition::Lines {
                alone: false,
                item: any(Place::Free),
                separator: TokenKind::Comma,
                close: TokenKind::RightParenthesis,
            }),
            Symbol::End,
            Symbol::End,
        ],
        // Composite literals: CompositeLit = LiteralType LiteralValue
        Kind::Composite => [
            Symbol::Part(Category::LiteralType(place)),
            Symbol::Word(TokenKind::LeftBrace),
            Symbol::Items(Repetition::Lines {
                alone: false,
                item: Category::Element,
                separator: TokenKind::Comma,
                close: TokenKind::RightBrace,
            }),
            Symbol::End,
            Symbol::End,
        ],
        // Composite literals: LiteralValue = "{" [ ElementList [ "," ] ] "}"
        Kind::LiteralValue => [
            Symbol::Word(TokenKind::LeftBrace),
            Symbol::Items(Repetition::Lines {
                alone: false,
                item: Category::Element,
                separator: TokenKind::Comma,
                close: TokenKind::RightBrace,
            }),
            Symbol::End,
            Symbol::End,
            Symbol::End,
        ],
        // Composite literals: KeyedElement = [ FieldName ":" ] Element
        Kind::Keyed => [
            Symbol::Part(Category::Name),
            Symbol::Word(TokenKind::Colon),
            Symbol::Part(Category::Value),
            Symbol::End,
            Symbol::End,
        ],
        // Constant declarations: ExpressionList = Expression { "," Expression }
        Kind::ExpressionList => [
            Symbol::Part(any(place)),
            Symbol::Items(Repetition::Again {
                item: any(place),
                separator: TokenKind::Comma,
            }),
            Symbol::End,
            Symbol::End,
            Symbol::End,
        ],
        // Blocks: Block = "{" StatementList "}"
        Kind::Block => [
            Symbol::Word(TokenKind::LeftBrace),
            Symbol::Items(Repetition::Lines {
                alone: true,
                item: Category::Statement,
                separator: TokenKind::Semicolon,
                close: TokenKind::RightBrace,
            }),
            Symbol::End,
            Symbol::End,
            Symbol::End,
        ],
        // Return statements: ReturnStmt = "return" [ ExpressionList ]
        Kind::Return => [
            Symbol::Word(TokenKind::Return),
            Symbol::Optional(Category::ExpressionList(place)),
            Symbol::End,
            Symbol::End,
            Symbol::End,
        ],
        Kind::Break => [
            Symbol::Word(TokenKind::Break),
            Symbol::End,
            Symbol::End,
            Symbol::End,
            Symbol::End,
        ],
        Kind::Continue => [
            Symbol::Word(TokenKind::Continue),
            Symbol::End,
            Symbol::End,
            Symbol::End,
            Symbol::End,
        ],
        Kind::Fallthrough => [
            Symbol::Word(TokenKind::Fallthrough),
            Symbol::End,
            Symbol::End,
            Symbol::End,
            Symbol::End,
        ],
        // Expression statements: ExpressionStmt = Expression
        Kind::ExpressionStatement => [
            Symbol::Part(any(place)),
            Symbol::End,
            Symbol::End,
            Symbol::End,
            Symbol::End,
        ],
        // IncDec statements: IncDecStmt = Expression ( "++" | "--" )
        Kind::StepStatement(step) => [
            Symbol::Part(any(place)),
            Symbol::Word(step.word()),
            Symbol::End,
            Symbol::End,
            Symbol::End,
        ],
        // Assignment statements: Assignment = ExpressionList "=" ExpressionList
        Kind::Targets => [
            Symbol::Part(Category::LeftList(place)),
            Symbol::Word(TokenKind::Assign),
            Symbol::End,
            Symbol::End,
            Symbol::End,
        ],
        Kind::Assignment => [
            Symbol::Part(Category::Targets(place)),
            Symbol::Part(Category::ExpressionList(place)),
            Symbol::End,
            Symbol::End,
            Symbol::End,
        ],
        // Assignment statements: Expression assign_op Expression
        Kind::OperatorAssignment(operator) => [
            Symbol::Part(any(place)),
            Symbol::Word(operator.assigning_word()),
            Symbol::Part(any(place)),
            Symbol::End,
            Symbol::End,
        ],
        // Short variable declarations: ShortVarDecl = IdentifierList ":=" ExpressionList
        Kind::NewNames => [
            Symbol::Part(Category::LeftList(place)),
            Symbol::Word(TokenKind::Define),
            Symbol::End,
            Symbol::End,
            Symbol::End,
        ],
        Kind::Define => [
            Symbol::Part(Category::NewNames(place)),
            Symbol::Part(Category::ExpressionList(place)),
            Symbol::End,
            Symbol::End,
            Symbol::End,
        ],
        // If statements: IfStmt = "if" [ SimpleStmt ";" ] Expression Block [ "else" ( IfStmt | Block ) ]
        Kind::If => [
            Symbol::Word(TokenKind::If),
            Symbol::Part(Category::IfHeader),
            Symbol::Part(Category::Block),
            Symbol::Optional(Category::Else),
            Symbol::End,
        ],
        Kind::Else => [
            Symbol::Word(TokenKind::Else),
            Symbol::Part(Category::Branch),
            Symbol::End,
            Symbol::End,
            Symbol::End,
        ],
        Kind::LateCondition => [
            Symbol::Word(TokenKind::Semicolon),
            Symbol::Part(any(Place::Header)),
            Symbol::End,
            Symbol::End,
            Symbol::End,
        ],
        Kind::InitializedCondition => [
            Symbol::Part(Category::Simple),
            Symbol::Word(TokenKind::Semicolon),
            Symbol::Part(any(Place::Header)),
            Symbol::End,
            Symbol::End,
        ],
        // Expression switches: ExprSwitchStmt = "switch" [ SimpleStmt ";" ] [ Expression ] "{" { ExprCaseClause } "}"
        Kind::Switch => [
            Symbol::Word(TokenKind::Switch),
            Symbol::Optional(Category::SwitchHeader),
            Symbol::Word(TokenKind::LeftBrace),
            Symbol::Items(Repetition::Each {
                item: Category::Clause,
                separator: None,
                close: Some(TokenKind::RightBrace),
            }),
            Symbol::End,
        ],
        Kind::LateTag => [
            Symbol::Word(TokenKind::Semicolon),
            Symbol::Optional(any(Place::Header)),
            Symbol::End,
            Symbol::End,
            Symbol::End,
        ],
        Kind::InitializedTag => [
            Symbol::Part(Category::Simple),
            Symbol::Word(TokenKind::Semicolon),
            Symbol::Optional(any(Place::Header)),
            Symbol::End,
            Symbol::End,
        ],
        // Expression switches: ExprCaseClause = ( "case" ExpressionList | "default" ) ":" StatementList
        Kind::Case => [
            Symbol::Word(TokenKind::Case),
            Symbol::Part(Category::ExpressionList(Place::Free)),
            Symbol::Word(TokenKind::Colon),
            Symbol::Items(Repetition::Open {
                item: Category::Statement,
                separator: TokenKind::Semicolon,
            }),
            Symbol::End,
        ],
        Kind::Default => [
            Symbol::Word(TokenKind::Default),
            Symbol::Word(TokenKind::Colon),
            Symbol::Items(Repetition::Open {
                item: Category::Statement,
                separator: TokenKind::Semicolon,
            }),
            Symbol::End,
            Symbol::End,
        ],
        // For statements: ForStmt = "for" [ Condition | ForClause | RangeClause ] Block
        Kind::For => [
            Symbol::Word(TokenKind::For),
            Symbol::Optional(Category::ForHeader),
            Symbol::Part(Category::Block),
            Symbol::End,
            Symbol::End,
        ],
        // For statements: ForClause = [ InitStmt ] ";" [ Condition ] ";" [ PostStmt ]
        Kind::ForClause => [
            Symbol::Word(TokenKind::Semicolon),
            Symbol::Optional(any(Place::Header)),
            Symbol::Word(TokenKind::Semicolon),
            Symbol::Optional(Category::Post),
            Symbol::End,
        ],
        Kind::InitializedForClause => [
            Symbol::Part(Category::Simple),
            Symbol::Word(TokenKind::Semicolon),
            Symbol::Optional(any(Place::Header)),
            Symbol::Word(TokenKind::Semicolon),
            Symbol::Optional(Category::Post),
        ],
        // For statements: RangeClause = [ ExpressionList "=" | IdentifierList ":=" ] "range" Expression
        Kind::Range => [
            Symbol::Word(TokenKind::Range),
            Symbol::Part(any(Place::Header)),
            Symbol::End,
            Symbol::End,
            Symbol::End,
        ],
        Kind::AssigningRange => [
            Symbol::Part(Category::Targets(Place::Header)),
            Symbol::Word(TokenKind::Range),
            Symbol::Part(any(Place::Header)),
            Symbol::End,
            Symbol::End,
        ],
        Kind::DefiningRange => [
            Symbol::Part(Category::NewNames(Place::Header)),
            Symbol::Word(TokenKind::Range),
            Symbol::Part(any(Place::Header)),
            Symbol::End,
            Symbol::End,
        ],
    }
}
