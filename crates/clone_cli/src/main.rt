//! The program `goclone [--min N] [--mass N] [--make N] DIR`: `run` of clone_program over the folders of the file system, standard input and
//! standard output.
#![tactic(auto)]

use port_io::{DirFolder, FileSink, FileSource};
use std::process::ExitCode;
use std::{env, io};

fn main(rt: HostRuntime) -> ExitCode {
    let mut folder = DirFolder::new(rt);
    let mut script = FileSource::new(rt.reader());
    let mut out = FileSink::new(io::writer(&rt));
    clone_program::run(
        rt.alloc(),
        env::args(&rt),
        &mut folder,
        &mut script,
        &mut out,
    )
}
