//! What the operators of a file do with whole numbers.

ghost use Rattle.std.specs.Prelude.{◌≡◌};
ghost use Rattle.go_typed.specs.Operators.{op_of};

use go_grammar::kind::Arithmetic;
use go_ints::Op;

/// The operation on whole numbers that an operator names.
pub fn op_of(operator: Arithmetic) -> Op
    ensures { result ≡ op_of operator }
{
    match operator {
        Arithmetic::Add => Op::Add,
        Arithmetic::Subtract => Op::Sub,
        Arithmetic::Or => Op::Or,
        Arithmetic::Xor => Op::Xor,
        Arithmetic::Multiply => Op::Mul,
        Arithmetic::Divide => Op::Div,
        Arithmetic::Remainder => Op::Rem,
        Arithmetic::ShiftLeft => Op::Shl,
        Arithmetic::ShiftRight => Op::Shr,
        Arithmetic::And => Op::And,
        Arithmetic::AndNot => Op::AndNot,
    }
}
