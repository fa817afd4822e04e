//! Which kinds of nodes stand where.

ghost use Rattle.std.specs.Prelude.{◌≡◌};
ghost use Rattle.go_grammar.specs.Categories as categories;
ghost use Rattle.go_grammar.specs.Grammar as grammar;
ghost use Rattle.go_grammar.specs.Trees as trees;

use crate::kind::{Category, Kind, Place};
use go_tokens::token::TokenKind;

impl Kind {
    /// How tightly an expression of this kind holds together: 7 for an operand, 0 for what is no expression.
    pub fn tightness(self) -> u8
        ensures { result ≡ categories.tightness self }
    {
        match self {
            Kind::Name
            | Kind::Integer
            | Kind::Rune
            | Kind::Text
            | Kind::Parenthesized
            | Kind::Selector
            | Kind::Bracketed
            | Kind::Call
            | Kind::Composite
            | Kind::SequenceType
            | Kind::FunctionType
            | Kind::StructType => 7,
            Kind::Unary(_) => 6,
            Kind::Binary(operator) => operator.level().rank(),
            _ => 0,
        }
    }

    /// Whether it is an expression (Go specification: Expressions).
    pub fn is_expression(self) -> bool
        ensures { result ≡ categories.is_expression self }
    {
        self.tightness() >= 1
    }

    /// Whether it may stand as a type (Go specification: Types).
    pub fn is_type(self) -> bool
        ensures { result ≡ categories.is_type self }
    {
        matches!(
            self,
            Kind::Name
                | Kind::ParenthesizedType
                | Kind::SequenceType
                | Kind::FunctionType
                | Kind::StructType
        )
    }

    /// Whether it is a type, other than a name, that may stand as an operand.
    pub fn is_type_literal(self) -> bool
        ensures { result ≡ categories.is_type_literal self }
    {
        matches!(
            self,
            Kind::SequenceType | Kind::FunctionType | Kind::StructType
        )
    }

    /// Whether a composite literal may begin with it in this place (Go specification: Composite literals).
    pub fn is_literal_type(self, place: Place) -> bool
        ensures { result ≡ categories.is_literal_type place self }
    {
        match self {
            Kind::Name => place == Place::Free,
            Kind::SequenceType | Kind::StructType => true,
            _ => false,
        }
    }

    /// Whether it may be the last statement of a loop's header (Go specification: For statements).
    pub fn is_post(self) -> bool
        ensures { result ≡ categories.is_post self }
    {
        matches!(
            self,
            Kind::ExpressionStatement
                | Kind::StepStatement(_)
                | Kind::Assignment
                | Kind::OperatorAssignment(_)
        )
    }

    /// Whether it is a simple statement (Go specification: Statements).
    pub fn is_simple(self) -> bool
        ensures { result ≡ categories.is_simple self }
    {
        self.is_post() || matches!(self, Kind::Define)
    }

    /// Whether it is a statement (Go specification: Statements).
    pub fn is_statement(self) -> bool
        ensures { result ≡ categories.is_statement self }
    {
        self.is_simple()
            || matches!(
                self,
                Kind::Declaration(_)
                    | Kind::Return
                    | Kind::Break
                    | Kind::Continue
                    | Kind::Fallthrough
                    | Kind::Block
                    | Kind::If
                    | Kind::Switch
                    | Kind::For
            )
    }

    /// Whether it may be a result (Go specification: Function types).
    fn is_result(self) -> bool
        ensures { result ≡ categories.is_result self }
    {
        matches!(
            self,
            Kind::Name | Kind::SequenceType | Kind::FunctionType | Kind::StructType | Kind::Results
        )
    }

    /// What a node of the kind adds to the levels of a tree: 0 where it only holds others together, else 1.
    pub fn weight(self) -> u32
        ensures { result ≡ trees.weight self }
    {
        match self {
            Kind::Imports
            | Kind::ImportPath
            | Kind::ImportGroup
            | Kind::Group(_)
            | Kind::NameList
            | Kind::DeclaredName
            | Kind::TypedValues
            | Kind::Values
            | Kind::Parameters
            | Kind::Results
            | Kind::Bounds
            | Kind::BoundsFrom
            | Kind::Keyed
            | Kind::ExpressionList
            | Kind::Targets
            | Kind::NewNames
            | Kind::Else
            | Kind::LateCondition
            | Kind::InitializedCondition
            | Kind::LateTag
            | Kind::InitializedTag
            | Kind::ForClause
            | Kind::InitializedForClause
            | Kind::Range
            | Kind::AssigningRange
            | Kind::DefiningRange => 0,
            _ => 1,
        }
    }
}

impl Category {
    /// The place that its texts belong to.
    pub fn place(self) -> Place
        ensures { result ≡ categories.place_of self }
    {
        match self {
            Category::Expression(_, place)
            | Category::LiteralType(place)
            | Category::ExpressionList(place)
            | Category::LeftList(place)
            | Category::Targets(place)
            | Category::NewNames(place) => place,
            Category::Simple
            | Category::Post
            | Category::IfHeader
            | Category::SwitchHeader
            | Category::ForHeader => Place::Header,
            _ => Place::Free,
        }
    }

    /// Whether nodes of this kind stand where this category is asked for.
    pub fn has(self, kind: Kind) -> bool
        ensures { result ≡ categories.within self kind }
    {
        match self {
            Category::File => matches!(kind, Kind::File),
            Category::Imports => matches!(kind, Kind::Imports),
            Category::Import => matches!(kind, Kind::Import),
            Category::ImportBody => matches!(kind, Kind::ImportPath | Kind::ImportGroup),
            Category::ImportPath => matches!(kind, Kind::ImportPath),
            Category::Declaration => {
                matches!(kind, Kind::Declaration(_) | Kind::FunctionDeclaration)
            }
            Category::DeclarationBody(sort) => match kind {
                Kind::Specification(other) | Kind::Group(other) => sort == other,
                _ => false,
            },
            Category::Specification(sort) => match kind {
                Kind::Specification(other) => sort == other,
                _ => false,
            },
            Category::NameList => matches!(kind, Kind::NameList),
            Category::DeclaredName => matches!(kind, Kind::DeclaredName),
            Category::ConstantRest => matches!(kind, Kind::Values | Kind::TypedValues),
            Category::VariableRest => {
                matches!(kind, Kind::Values | Kind::TypedValues) || kind.is_type()
            }
            Category::Signature => matches!(kind, Kind::Signature),
            Category::Parameters => matches!(kind, Kind::Parameters),
            Category::Entry => matches!(kind, Kind::Parameter) || kind.is_type(),
            Category::Result => kind.is_result(),
            Category::Type => kind.is_type(),
            Category::Fields => matches!(kind, Kind::Fields),
            Category::Expression(level, _) => level.rank() <= kind.tightness(),
            Category::LiteralType(place) => kind.is_literal_type(place),
            Category::Name => matches!(kind, Kind::Name),
            Category::Bracket => {
                matches!(kind, Kind::Bounds | Kind::BoundsFrom) || kind.is_expression()
            }
            Category::Element => {
                matches!(kind, Kind::LiteralValue | Kind::Keyed) || kind.is_expression()
            }
            Category::Value => matches!(kind, Kind::LiteralValue) || kind.is_expression(),
            Category::ExpressionList(_) | Category::LeftList(_) => {
                matches!(kind, Kind::ExpressionList)
            }
            Category::Targets(_) => matches!(kind, Kind::Targets),
            Category::NewNames(_) => matches!(kind, Kind::NewNames),
            Category::Block => matches!(kind, Kind::Block),
            Category::Statement => kind.is_statement(),
            Category::Simple => kind.is_simple(),
            Category::Post => kind.is_post(),
            Category::Else => matches!(kind, Kind::Else),
            Category::Branch => matches!(kind, Kind::If | Kind::Block),
            Category::IfHeader => {
                matches!(kind, Kind::LateCondition | Kind::InitializedCondition)
                    || kind.is_expression()
            }
            Category::SwitchHeader => {
                matches!(kind, Kind::LateTag | Kind::InitializedTag) || kind.is_expression()
            }
            Category::ForHeader => {
                matches!(
                    kind,
                    Kind::ForClause
                        | Kind::InitializedForClause
                        | Kind::Range
                        | Kind::AssigningRange
                        | Kind::DefiningRange
                ) || kind.is_expression()
            }
            Category::Clause => matches!(kind, Kind::Case | Kind::Default),
        }
    }

    /// Whether a type is a type where this category is asked for, and no operand.
    pub fn is_type_place(self) -> bool
        ensures { result ≡ categories.is_type_place self }
    {
        matches!(
            self,
            Category::VariableRest
                | Category::Entry
                | Category::Result
                | Category::Type
                | Category::LiteralType(_)
        )
    }

    /// Whether a node of the kind, where this category is asked for, may end before the next token: a type that is an operand
    /// isn't followed by a brace.
    pub fn may_end(self, kind: Kind, next: Option<TokenKind>) -> bool
        ensures { result ≡ grammar.ends self kind next }
    {
        self.is_type_place() || !kind.is_type_literal() || next != Some(TokenKind::LeftBrace)
    }
}
