//! A real folder, read, edited and written by the program, and read back by it.

use clone_program::Goclone;
use clone_server::serve::serve;
use go_base::Bytes;
use port_io::{DirFolder, MemSink, MemSource};
use std::fs;
use std::test::Fail;

const PLAIN: &str =
    "package main\n\nfunc f(a int) int {\n\tb := a + 1\n\tb = b * 2\n\treturn b\n}\n\nfunc g(x int) int {\n\ty := x + 5\n\ty = y * 2\n\treturn y\n}\n";

/// The status of a run over the folder, and what it writes.
fn served(rt: &HostRuntime, script: &str) -> Result<(u8, Vec<u8>), Fail> {
    let alloc = rt.alloc();
    let mut words = Vec::new(alloc);
    words.push(String::from_str(alloc, "goclone_saved")?)?;
    let mut folder = DirFolder::new(rt.clone()?);
    let script = Bytes::from_slice(alloc, script.as_bytes())?;
    let mut script = MemSource::new(script, Vec::new(alloc));
    let mut out = MemSink::new(alloc, Vec::new(alloc));
    let status = serve::<Goclone, _, MemSource, MemSink>(
        alloc,
        &words,
        &mut folder,
        &mut script,
        &mut out,
    );
    Ok((status, Vec::from_slice(alloc, out.written())?))
}

#[test]
fn saved_files_read_back(rt: HostRuntime) -> Result<(), Fail> {
    fs::create_dir(&rt, "goclone_saved")?;
    fs::write(&rt, "goclone_saved/a.go", PLAIN)?;
    let (status, saved) = served(
        &rt,
        "edit a.go 44 45 1\n2\nadd b.go 13\npackage main\n\nsave\n",
    )?;
    assert_eq!(rt; status, 0);
    assert_eq!(rt;
        saved.as_slice(),
        b"ok edit\nok add\nok save 2\n".as_slice()
    );
    let text = fs::read_to_string(&rt, "goclone_saved/a.go")?;
    assert_eq!(rt; text.len(), PLAIN.len());
    let (status, shown) = served(&rt, "show a.go\nshow b.go\n")?;
    let reply = format!(in rt.alloc(); "show 125\n{}\nshow 13\npackage main\n\n", text.as_str())?;
    fs::remove_dir_all(&rt, "goclone_saved")?;
    assert_eq!(rt; status, 0);
    assert_eq!(rt; shown.as_slice(), reply.as_bytes());
    assert!(rt; text.contains("b := a + 2\n"));
    Ok(())
}
