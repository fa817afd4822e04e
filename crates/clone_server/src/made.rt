//! The package that is made from a number, for measures: one file of 400 functions whose lines are drawn.

ghost use Rattle.std.specs.Prelude.{◌≡◌, ◌+◌, ◌<◌, ◌++◌, IfOk, OnOk};
ghost use Rattle.go_base.specs.Package.{IsPackage};
ghost use Rattle.clone_server.specs.Made as specs;
ghost use Rattle.clone_server.specs.Made.{behind_draws, call_lines, drawn, drawn_line, drawn_lines, function_text, functions_text, made_text, next_state};

use go_base::{Bytes, FileText, Memory, Name};
use std::alloc::{AllocError, Global};

/// What stands for the script where a package is made from a number.
pub const MADE_SCRIPT: &[u8; 79] =
    b"stat\nedit m.go 58 68 10\na = b * 77\nstat\nextract 1 taken all\nstat\nrun 100000 0\n\n";
/// How many functions the package has beside `main`.
const FUNCTIONS: u32 = 400;
/// How many drawn lines each of them has.
const LINES: u32 = 36;

/// Numbers that are drawn one after the other from a seed.
#[derive(Clone, Copy, Debug)]
struct Draws {
    state: u64,
}

impl Draws {
    /// The next number.
    fn draw(&mut self) -> u64
        ensures drawn { result ≡ drawn self.new.state }
        ensures state { self.new.state ≡ next_state self.old.state }
    {
        self.state = self
            .state
            .wrapping_mul(6_364_136_223_846_793_005)
            .wrapping_add(1_442_695_040_888_963_407);
        self.state >> 33
    }
}

/// Puts the line that a number gives behind the others: a statement with a constant of two digits.
fn push_line(alloc: Global, out: &mut Vec<u8>, drawn: u64) -> Result<(), AllocError>
    ensures { OnOk result (out.new.items ≡ out.old.items ++ drawn_line drawn) }
{
    let constant = 10 + drawn / 5 % 90;
    let line = match drawn % 5 {
        0 => format!(in alloc; "\ta = a + {constant}\n")?,
        1 => format!(in alloc; "\tb = b ^ {constant}\n")?,
        2 => format!(in alloc; "\ta = b - {constant}\n")?,
        3 => format!(in alloc; "\tb = a & {constant}\n")?,
        _ => format!(in alloc; "\tb = a | {constant}\n")?,
    };
    out.extend_from_slice(line.as_bytes())
}

/// Puts the drawn lines of one function behind the others.
fn push_lines(alloc: Global, out: &mut Vec<u8>, draws: &mut Draws) -> Result<(), AllocError>
    ensures text { OnOk result (out.new.items ≡ out.old.items ++ drawn_lines specs.lines_of_function draws.old.state) }
    ensures state { OnOk result (draws.new.state ≡ behind_draws specs.lines_of_function draws.old.state) }
{
    for _ in 0..LINES {
        let drawn = draws.draw();
        push_line(alloc, out, drawn)?;
    }
    Ok(())
}

/// Puts the function of this number behind the others.
fn push_function(
    alloc: Global,
    out: &mut Vec<u8>,
    number: u32,
    draws: &mut Draws,
) -> Result<(), AllocError>
    ensures text { OnOk result (out.new.items ≡ out.old.items ++ function_text number draws.old.state) }
    ensures state { OnOk result (draws.new.state ≡ behind_draws specs.lines_of_function draws.old.state) }
{
    let head = format!(in alloc; "\nfunc f{number}(a int) int {{\n\tb := a\n")?;
    out.extend_from_slice(head.as_bytes())?;
    push_lines(alloc, out, draws)?;
    out.extend_from_slice(b"\treturn a + b\n}\n")
}

/// Puts all functions but `main` behind the others.
fn push_functions(alloc: Global, out: &mut Vec<u8>, seed: u32) -> Result<(), AllocError>
    ensures { OnOk result (out.new.items ≡ out.old.items ++ functions_text specs.count_functions seed) }
{
    let mut draws = Draws {
        state: u64::from(seed),
    };
    for number in 0..FUNCTIONS {
        push_function(alloc, out, number, &mut draws)?;
    }
    Ok(())
}

/// Puts the lines of `main` that call the functions behind the others.
fn push_calls(alloc: Global, out: &mut Vec<u8>) -> Result<(), AllocError>
    ensures { OnOk result (out.new.items ≡ out.old.items ++ call_lines specs.count_functions) }
{
    for number in 0..FUNCTIONS {
        let line = format!(in alloc; "\ts = s + f{number}(s)\n")?;
        out.extend_from_slice(line.as_bytes())?;
    }
    Ok(())
}

/// The bytes of the package's file.
fn text_of(alloc: Global, seed: u32) -> Result<Vec<u8>, AllocError>
    ensures { IfOk result (λ v. v.items ≡ made_text seed) }
{
    let mut out = Vec::from_slice(alloc, b"package main\n\nimport \"fmt\"\n")?;
    push_functions(alloc, &mut out, seed)?;
    out.extend_from_slice(b"\nfunc main() {\n\ts := 0\n")?;
    push_calls(alloc, &mut out)?;
    out.extend_from_slice(b"\tfmt.Println(s)\n}\n")?;
    Ok(out)
}

/// The package that is made from a seed: one file `m.go` of 198,648 bytes.
pub fn made(alloc: Global, seed: u32) -> Result<Vec<FileText>, Memory>
    ensures value { IfOk result (λ v. v.items ≡ specs.made seed) }
    ensures package { IfOk result (λ v. IsPackage v.items) }
{
    let name = match Name::of(alloc, b"m.go") {
        Ok(name) => name,
        Err(_) => return Err(Memory),
    };
    let bytes = Bytes::of(text_of(alloc, seed)?);
    let mut files = Vec::new(alloc);
    files.push(FileText { name, bytes })?;
    Ok(files)
}
