//! The table `arith`: kind, operator, two operands, and the value or the trap.
use case_tables::table::Table;
use go_base::Memory;
use go_ints::{Kind, Op, Trap, arith, fits};
use std::alloc::{AllocError, Global};

pub struct Arithmetic;

impl Table for Arithmetic {
    fn name(&self) -> &'static str {
        "arith"
    }

    fn difference(&self, alloc: Global, fields: &[&str]) -> Result<Option<String>, Memory> {
        let [kind, op, a, b, wanted] = fields else {
            return Ok(Some(String::from_str(alloc, "not five fields")?));
        };
        let got = match (
            kind_of(kind),
            op_of(op),
            a.parse::<i128>(),
            b.parse::<i128>(),
        ) {
            (Some(kind), Some(op), Ok(a), Ok(b)) => answer(alloc, kind, op, a, b)?,
            _ => String::from_str(alloc, "not a case")?,
        };
        if got.as_str() == *wanted {
            Ok(None)
        } else {
            Ok(Some(got))
        }
    }
}

/// The value or the trap, as the table writes it.
fn answer(alloc: Global, kind: Kind, op: Op, a: i128, b: i128) -> Result<String, AllocError> {
    let is_shift = matches!(op, Op::Shl | Op::Shr);
    if !fits(kind, a) || !is_shift && !fits(kind, b) {
        return String::from_str(alloc, "an operand of another kind");
    }
    match arith(kind, op, a, b) {
        Ok(value) => format!(in alloc; "{value}"),
        Err(Trap::DivideZero) => String::from_str(alloc, "DivideZero"),
        Err(Trap::NegativeShift) => String::from_str(alloc, "NegativeShift"),
    }
}

fn kind_of(name: &str) -> Option<Kind> {
    match name {
        "Int8" => Some(Kind::Int8),
        "Int16" => Some(Kind::Int16),
        "Int32" => Some(Kind::Int32),
        "Int64" => Some(Kind::Int64),
        "Uint8" => Some(Kind::Uint8),
        "Uint16" => Some(Kind::Uint16),
        "Uint32" => Some(Kind::Uint32),
        "Uint64" => Some(Kind::Uint64),
        "Int" => Some(Kind::Int),
        "Uint" => Some(Kind::Uint),
        _ => None,
    }
}

fn op_of(name: &str) -> Option<Op> {
    match name {
        "Add" => Some(Op::Add),
        "Sub" => Some(Op::Sub),
        "Mul" => Some(Op::Mul),
        "Div" => Some(Op::Div),
        "Rem" => Some(Op::Rem),
        "And" => Some(Op::And),
        "Or" => Some(Op::Or),
        "Xor" => Some(Op::Xor),
        "AndNot" => Some(Op::AndNot),
        "Shl" => Some(Op::Shl),
        "Shr" => Some(Op::Shr),
        _ => None,
    }
}
