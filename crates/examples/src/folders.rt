//! The adapters over std: no clause says what a file system holds, nor that a call can succeed.

ghost use Rattle.std.specs.Prelude.{◌≡◌, IsSome};

use go_base::Name;
use port_io::{DirFolder, FileSink, FileSource, Folder, FolderError, Sink, SinkError, Source};
use std::io::{ErrorKind, Write};
use std::test::Fail;
use std::{fs, io};

/// A writer whose writes fail.
#[derive(Drop)]
struct Broken {
    kind: ErrorKind,
}

impl Write for Broken {
    fn write(&mut self, _bytes: &[u8]) -> io::Result<usize> {
        Err(io::Error::new(self.kind, "broken"))
    }

    fn flush(&mut self) -> io::Result<()> {
        Ok(())
    }
}

#[test]
fn passes_on_what_streams_do(rt: HostRuntime) -> Result<(), Fail> {
    let mut source = FileSource::new(b"a.go".as_slice());
    let mut buf = [0u8; 3];
    assert_eq!(rt; source.read(&mut buf), Ok(3));
    assert_eq!(rt; buf.as_slice(), b"a.g".as_slice());
    let mut bytes = Vec::new(rt.alloc());
    assert_eq!(rt; FileSink::new(&mut bytes).write(b"classes\n"), Ok(8));
    assert_eq!(rt; bytes.as_slice(), b"classes\n".as_slice());
    for (kind, error) in [
        (ErrorKind::BrokenPipe, SinkError::Failed),
        (ErrorKind::OutOfMemory, SinkError::Memory),
    ] {
        assert_eq!(rt; FileSink::new(Broken { kind }).write(b"0\n"), Err(error));
    }
    Ok(())
}

/// The names in the chosen folder, in byte order.
fn sorted_names<F: Folder>(folder: &mut F) -> Result<Vec<Name>, FolderError>
    requires { IsSome (F.chosen folder.old) }
    ensures { F.chosen folder.new ≡ F.chosen folder.old }
{
    let mut names = folder.names()?;
    names.sort()?;
    Ok(names)
}

#[test]
fn fails_at_what_is_missing(rt: HostRuntime) -> Result<(), Fail> {
    let name = Name::of(rt.alloc(), b"a.go")?;
    let mut folder = DirFolder::new(rt.clone()?);
    folder.select("port_io_missing")?;
    assert_eq!(rt; folder.names().err(), Some(FolderError::Failed));
    assert_eq!(rt; folder.read(&name).err(), Some(FolderError::Failed));
    assert_eq!(rt; folder.write(&name, b""), Err(FolderError::Failed));
    Ok(())
}

#[test]
fn reaches_the_file_system(rt: HostRuntime) -> Result<(), Fail> {
    let name = Name::of(rt.alloc(), b"a.go")?;
    // A folder is no plain file.
    fs::create_dir_all(&rt, "port_io_files/inner.go")?;
    let mut folder = DirFolder::new(rt.clone()?);
    for dir in ["port_io_files", "port_io_files/"] {
        folder.select(dir)?;
        folder.write(&name, b"")?;
        assert!(rt; folder.read(&name)?.as_slice().is_empty());
        folder.write(&name, dir.as_bytes())?;
        let text = fs::read_to_string(&rt, "port_io_files/a.go")?;
        assert_eq!(rt; text.as_str(), dir);
        assert_eq!(rt; folder.read(&name)?.as_slice(), dir.as_bytes());
        assert_eq!(rt;
            sorted_names(&mut folder)?.as_slice(),
            [name.clone()?].as_slice()
        );
    }
    fs::remove_dir_all(&rt, "port_io_files")?;
    Ok(())
}

#[test]
fn lists_many_files(rt: HostRuntime) -> Result<(), Fail> {
    let alloc = rt.alloc();
    let mut expected = Vec::new(alloc);
    fs::create_dir(&rt, "port_io_many")?;
    for i in 0..256u32 {
        let name = format!(in alloc; "{i}.go")?;
        fs::write(
            &rt,
            format!(in alloc; "port_io_many/{name}")?,
            "package p\n",
        )?;
        expected.push(Name::of(alloc, name.as_bytes())?)?;
    }
    expected.sort()?;
    let mut folder = DirFolder::new(rt.clone()?);
    folder.select("port_io_many")?;
    let names = sorted_names(&mut folder)?;
    fs::remove_dir_all(&rt, "port_io_many")?;
    assert_eq!(rt; names.as_slice(), expected.as_slice());
    Ok(())
}
