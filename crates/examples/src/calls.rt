//! Calls of the lowest crates with ample memory, and what is generic at a concrete type. What the table programs call stands in their
//! rows.

ghost use Rattle.std.specs.Prelude.{◌≡◌, ◌≤◌};
ghost use Rattle.go_base.specs.Steps.{no_counts};

use go_base::{Bytes, FaultCode, Phase, Steps};
use go_constants::{Basic, Const, ConstOp, SharedBytes, fold, represent};
use go_ints::{Kind, Op, arith, fits, wrap};
use go_types::Types;
use std::marker::Brand;
use std::sync::ledger::{Blank, Ledger};
use std::test::Fail;

fn tick_each<L: Ledger>(steps: &mut Steps<L>)
    requires { steps.old ≡ no_counts }
    ensures { steps.new ≡ record { checked = 1; entered = 2; compared = 1 } }
{
    steps.tick_checked();
    steps.tick_entered();
    steps.tick_compared();
    steps.tick_entered();
}

fn count<L: Ledger>(blank: Blank)
    requires name { blank.name ≡ L.name }
    requires parts { blank.parts ≡ L.parts }
    requires room { 3 ≤ blank.parts }
{
    tick_each::<L>(&mut Steps::new(blank));
}

#[test]
fn counts_each_step() {
    count::<Brand>(Blank::new(3));
}

#[test]
fn keeps_its_bytes(rt: HostRuntime) -> Result<(), Fail> {
    let alloc = rt.alloc();
    let bytes = Bytes::from_slice(alloc, b"package p\n")?;
    assert_eq!(rt; bytes.len(), 10);
    let copy = bytes.clone()?;
    assert_eq!(rt; copy.as_slice(), b"package p\n".as_slice());
    assert_eq!(rt; Bytes::of(bytes.into_vec()).as_slice(), copy.as_slice());
    Ok(())
}

#[test]
fn has_the_words_of_replies(rt: HostRuntime) {
    assert_eq!(rt; FaultCode::UnusedVariable.number(), 8);
    assert_eq!(rt; FaultCode::UnusedVariable.word(), "unusedvariable");
    assert_eq!(rt;
        FaultCode::Limit.phases(),
        [Phase::Names, Phase::Declarations, Phase::Bodies].as_slice()
    );
    assert_eq!(rt; Phase::Bodies.number(), 7);
}

#[test]
fn joins_texts(rt: HostRuntime) -> Result<(), Fail> {
    let alloc = rt.alloc();
    let left = Const::Text(SharedBytes::from_slice(alloc, b"a")?);
    let right = Const::Text(SharedBytes::of(Vec::from_slice(alloc, b"bc")?)?);
    let joined = fold(alloc, ConstOp::Arith(Op::Add), &left, &right)?;
    assert!(rt; represent(&joined, Basic::Text));
    let Const::Text(bytes) = joined else {
        return Err("a text".into());
    };
    assert_eq!(rt; bytes.as_slice(), b"abc".as_slice());
    Ok(())
}

/// Copies would take 30 GB.
#[test]
fn owners_share_a_text(rt: HostRuntime) -> Result<(), Fail> {
    let text = Const::Text(SharedBytes::of(vec![in rt.alloc(); 97u8; 500_000]?)?);
    let mut owners = Vec::new(rt.alloc());
    for _ in 0..60_000 {
        owners.push(text.shared()?)?;
    }
    assert!(rt; owners.last() == Some(&text));
    Ok(())
}

#[test]
fn wraps_integers(rt: HostRuntime) {
    assert_eq!(rt; wrap::<8, true>(200), -56);
    assert_eq!(rt; wrap::<16, false>(-1), 65_535);
    assert!(rt; fits(Kind::Uint8, 255));
    assert_eq!(rt; arith(Kind::Int8, Op::Add, 100, 100), Ok(-56));
}

#[test]
fn a_table_is_cut(rt: HostRuntime) -> Result<(), Fail> {
    let mut types = Types::new(rt.alloc());
    types.declare()?;
    types.cut(0);
    assert_eq!(rt; types.count(), 0);
    Ok(())
}
