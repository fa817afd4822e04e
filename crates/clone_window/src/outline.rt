//! What the forms of nodes show by themselves.

ghost use Rattle.std.specs.Prelude.{◌≡◌};
ghost use Rattle.clone_window.specs.Kinds as kinds;
ghost use Rattle.clone_window.specs.Masses as masses;

use go_grammar::kind::{Arithmetic, Comparison, Operator, Sign, Step};
use go_tree::object::Predeclared;
use go_typed::form::{Form, Referent};

/// What a node shows by itself, but for which local it names and what it stands for.
#[derive(Clone, Copy, Debug, PartialEq, Eq)]
pub struct Outline {
    /// The number of its kind; kinds from 50 on weigh nothing.
    pub kind: u32,
    /// The number of its operator among Go's operators and punctuation, from 1, or 0.
    pub operator: u32,
    /// How many parts are of a sort, which field or object is named, or how a local stands there.
    pub count: u32,
}

const fn outlined(kind: u32, operator: u32, count: u32) -> Outline
    ensures { result ≡ kinds.outlined kind operator count }
{
    Outline {
        kind,
        operator,
        count,
    }
}

/// What a node of this form shows by itself.
pub fn outline_of(form: Form) -> Outline
    ensures { result ≡ kinds.outline form }
{
    match form {
        Form::Expression => outlined(1, 0, 0),
        Form::Step(step) => outlined(2, step_number(step), 0),
        Form::Assign(targets) => outlined(4, 0, targets),
        Form::Operate(operator) => outlined(5, assigning_number(operator), 0),
        Form::Define(names) => outlined(6, 0, names),
        Form::Variables => outlined(7, 0, 0),
        Form::Constants => outlined(8, 0, 0),
        Form::TypeNames => outlined(9, 0, 0),
        Form::Return => outlined(10, 0, 0),
        Form::Break => outlined(11, 0, 0),
        Form::Continue => outlined(12, 0, 0),
        Form::Fallthrough => outlined(13, 0, 0),
        Form::Block => outlined(14, 0, 0),
        Form::If => outlined(15, 0, 0),
        Form::Switch => outlined(16, 0, 0),
        Form::Case(values) => outlined(17, 0, values),
        Form::Default => outlined(18, 0, 0),
        Form::For => outlined(19, 0, 0),
        Form::Range { defines, targets } => outlined(if defines { 21 } else { 20 }, 0, targets),
        Form::Local(_) => outlined(31, 0, 0),
        Form::New(_) => outlined(31, 0, 1),
        Form::Declared(_) => outlined(31, 0, 2),
        Form::Object(referent) => referent_outline(referent),
        Form::Blank => outlined(33, 0, 0),
        Form::Literal => outlined(34, 0, 0),
        Form::Parenthesized => outlined(35, 0, 0),
        Form::Selector(field) => outlined(36, 0, field),
        Form::Index => outlined(37, 0, 0),
        Form::Slice => outlined(38, 0, 0),
        Form::Call => outlined(39, 0, 0),
        Form::Conversion => outlined(40, 0, 0),
        Form::Composite => outlined(41, 0, 0),
        Form::Unary(sign) => outlined(42, sign_number(sign), 0),
        Form::Binary(operator) => outlined(43, operator_number(operator), 0),
        Form::Specified(names) => outlined(50, 0, names),
        Form::Keyed(field) => outlined(51, 0, field),
        Form::Type => outlined(52, 0, 0),
        Form::Function => outlined(53, 0, 0),
        Form::Held(_) => outlined(54, 0, 0),
    }
}

/// What a name of the package or of the universe shows: what sort of object it means, and which of these.
fn referent_outline(referent: Referent) -> Outline
    ensures { result ≡ kinds.referent_outline referent }
{
    match referent {
        Referent::Constant(number) => outlined(32, 1, number),
        Referent::Type(number) => outlined(32, 2, number),
        Referent::Variable(number) => outlined(32, 3, number),
        Referent::Function(number) => outlined(32, 4, number),
        Referent::Predeclared(name) => outlined(32, 5, predeclared_number(name)),
        Referent::Println => outlined(32, 6, 0),
    }
}

/// The number of an operator of arithmetic.
fn arithmetic_number(operator: Arithmetic) -> u32
    ensures { result ≡ kinds.arithmetic_number operator }
{
    match operator {
        Arithmetic::Add => 1,
        Arithmetic::Subtract => 2,
        Arithmetic::Multiply => 3,
        Arithmetic::Divide => 4,
        Arithmetic::Remainder => 5,
        Arithmetic::And => 6,
        Arithmetic::Or => 7,
        Arithmetic::Xor => 8,
        Arithmetic::ShiftLeft => 9,
        Arithmetic::ShiftRight => 10,
        Arithmetic::AndNot => 11,
    }
}

/// The number of an operator of arithmetic that also assigns, as `+=`.
fn assigning_number(operator: Arithmetic) -> u32
    ensures { result ≡ kinds.assigning_number operator }
{
    match operator {
        Arithmetic::Add => 12,
        Arithmetic::Subtract => 13,
        Arithmetic::Multiply => 14,
        Arithmetic::Divide => 15,
        Arithmetic::Remainder => 16,
        Arithmetic::And => 17,
        Arithmetic::Or => 18,
        Arithmetic::Xor => 19,
        Arithmetic::ShiftLeft => 20,
        Arithmetic::ShiftRight => 21,
        Arithmetic::AndNot => 22,
    }
}

fn step_number(step: Step) -> u32
    ensures { result ≡ kinds.step_number step }
{
    match step {
        Step::Increment => 25,
        Step::Decrement => 26,
    }
}

fn operator_number(operator: Operator) -> u32
    ensures { result ≡ kinds.operator_number operator }
{
    match operator {
        Operator::Both => 23,
        Operator::Either => 24,
        Operator::Compare(comparison) => comparison_number(comparison),
        Operator::Compute(operator) => arithmetic_number(operator),
    }
}

fn comparison_number(comparison: Comparison) -> u32
    ensures { result ≡ kinds.comparison_number comparison }
{
    match comparison {
        Comparison::Equal => 27,
        Comparison::NotEqual => 28,
        Comparison::Less => 29,
        Comparison::Greater => 30,
        Comparison::LessEqual => 31,
        Comparison::GreaterEqual => 32,
    }
}

fn sign_number(sign: Sign) -> u32
    ensures { result ≡ kinds.sign_number sign }
{
    match sign {
        Sign::Plus => 1,
        Sign::Minus => 2,
        Sign::Complement => 8,
        Sign::Not => 34,
    }
}

fn predeclared_number(name: Predeclared) -> u32
    ensures { result ≡ kinds.predeclared_number name }
{
    name as u32
}

/// Whether nodes of this form are names or expressions (Go specification: Expressions).
pub fn is_expression(form: Form) -> bool
    ensures { result ≡ masses.is_expression form }
{
    match form {
        Form::New(_) | Form::Declared(_) | Form::Blank => false,
        _ => {
            let kind = outline_of(form).kind;
            30 <= kind && kind < 50
        }
    }
}
