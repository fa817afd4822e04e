//! Operators: their words, and how tightly they bind.

ghost use Rattle.std.specs.Prelude.{◌≡◌};
ghost use Rattle.go_grammar.specs.Operators as operators;

use crate::kind::{Arithmetic, Comparison, Level, Operator, Sign, Sort, Step};
use go_tokens::token::TokenKind;

impl Arithmetic {
    /// The token of the operator.
    pub fn word(self) -> TokenKind
        ensures { result ≡ operators.arithmetic_word self }
    {
        match self {
            Arithmetic::Add => TokenKind::Plus,
            Arithmetic::Subtract => TokenKind::Minus,
            Arithmetic::Or => TokenKind::Bar,
            Arithmetic::Xor => TokenKind::Caret,
            Arithmetic::Multiply => TokenKind::Star,
            Arithmetic::Divide => TokenKind::Slash,
            Arithmetic::Remainder => TokenKind::Percent,
            Arithmetic::ShiftLeft => TokenKind::ShiftLeft,
            Arithmetic::ShiftRight => TokenKind::ShiftRight,
            Arithmetic::And => TokenKind::Ampersand,
            Arithmetic::AndNot => TokenKind::AndNot,
        }
    }

    /// The token of an assignment with the operator (Go specification: Assignment statements).
    pub fn assigning_word(self) -> TokenKind
        ensures { result ≡ operators.assigning_word self }
    {
        match self {
            Arithmetic::Add => TokenKind::PlusAssign,
            Arithmetic::Subtract => TokenKind::MinusAssign,
            Arithmetic::Or => TokenKind::BarAssign,
            Arithmetic::Xor => TokenKind::CaretAssign,
            Arithmetic::Multiply => TokenKind::StarAssign,
            Arithmetic::Divide => TokenKind::SlashAssign,
            Arithmetic::Remainder => TokenKind::PercentAssign,
            Arithmetic::ShiftLeft => TokenKind::ShiftLeftAssign,
            Arithmetic::ShiftRight => TokenKind::ShiftRightAssign,
            Arithmetic::And => TokenKind::AmpersandAssign,
            Arithmetic::AndNot => TokenKind::AndNotAssign,
        }
    }

    /// How tightly the operator binds (Go specification: Operator precedence).
    pub fn level(self) -> Level
        ensures { result ≡ operators.arithmetic_level self }
    {
        match self {
            Arithmetic::Add | Arithmetic::Subtract | Arithmetic::Or | Arithmetic::Xor => Level::Sum,
            _ => Level::Product,
        }
    }
}

impl Comparison {
    /// The token of the operator.
    pub fn word(self) -> TokenKind
        ensures { result ≡ operators.comparison_word self }
    {
        match self {
            Comparison::Equal => TokenKind::Equal,
            Comparison::NotEqual => TokenKind::NotEqual,
            Comparison::Less => TokenKind::Less,
            Comparison::LessEqual => TokenKind::LessEqual,
            Comparison::Greater => TokenKind::Greater,
            Comparison::GreaterEqual => TokenKind::GreaterEqual,
        }
    }
}

impl Operator {
    /// The token of the operator.
    pub fn word(self) -> TokenKind
        ensures { result ≡ operators.operator_word self }
    {
        match self {
            Operator::Either => TokenKind::LogicalOr,
            Operator::Both => TokenKind::LogicalAnd,
            Operator::Compare(operator) => operator.word(),
            Operator::Compute(operator) => operator.word(),
        }
    }

    /// How tightly the operator binds (Go specification: Operator precedence).
    pub fn level(self) -> Level
        ensures { result ≡ operators.operator_level self }
    {
        match self {
            Operator::Either => Level::Either,
            Operator::Both => Level::Both,
            Operator::Compare(_) => Level::Comparison,
            Operator::Compute(operator) => operator.level(),
        }
    }
}

impl Sign {
    /// The token of the operator.
    pub fn word(self) -> TokenKind
        ensures { result ≡ operators.sign_word self }
    {
        match self {
            Sign::Plus => TokenKind::Plus,
            Sign::Minus => TokenKind::Minus,
            Sign::Not => TokenKind::Not,
            Sign::Complement => TokenKind::Caret,
        }
    }
}

impl Step {
    /// The token of the statement.
    pub fn word(self) -> TokenKind
        ensures { result ≡ operators.step_word self }
    {
        match self {
            Step::Increment => TokenKind::Increment,
            Step::Decrement => TokenKind::Decrement,
        }
    }
}

impl Sort {
    /// The token that such a declaration begins with.
    pub fn word(self) -> TokenKind
        ensures { result ≡ operators.sort_word self }
    {
        match self {
            Sort::Constant => TokenKind::Const,
            Sort::Type => TokenKind::Type,
            Sort::Variable => TokenKind::Var,
        }
    }
}

impl Level {
    /// The level as a number: from 1 to 5 for binary operators, 6 for unary ones, 7 for operands.
    pub fn rank(self) -> u8
        ensures { result ≡ operators.rank self }
    {
        match self {
            Level::Either => 1,
            Level::Both => 2,
            Level::Comparison => 3,
            Level::Sum => 4,
            Level::Product => 5,
            Level::Unary => 6,
            Level::Primary => 7,
        }
    }

    /// The next tighter level.
    pub fn tighter(self) -> Level
        ensures { result ≡ operators.tighter self }
    {
        match self {
            Level::Either => Level::Both,
            Level::Both => Level::Comparison,
            Level::Comparison => Level::Sum,
            Level::Sum => Level::Product,
            Level::Product => Level::Unary,
            Level::Unary | Level::Primary => Level::Primary,
        }
    }
}
