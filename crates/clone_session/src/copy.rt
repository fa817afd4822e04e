//! Copies of texts.

ghost use Rattle.std.specs.Prelude.{◌≡◌, ◌<◌, length, slice_get, Some, IfOk};
ghost use Rattle.std.specs.Option.{option_map};
ghost use Rattle.edit_apply.specs.Edited.{bytes_under};

use edit_apply::Texts;
use go_base::{Bytes, FileText, Memory, Name};
use std::alloc::Global;

/// A copy of so many bytes of a file from its start on: all that it has.
fn copy_all(alloc: Global, texts: &Texts, name: &Name, size: u32) -> Result<Bytes, Memory>
    requires { option_map length (bytes_under texts.now name.now) ≡ Some size }
    ensures { IfOk result (λ bytes. bytes_under texts.now name.now ≡ Some bytes) }
{
    let mut bytes = vec![in alloc; 0u8; size as usize]?;
    texts.text_at(name, 0, &mut bytes);
    Ok(Bytes::of(bytes))
}

/// A copy of the bytes of the file with this name, if there is one.
pub fn copy_under(alloc: Global, texts: &Texts, name: &Name) -> Result<Option<Bytes>, Memory>
    ensures { IfOk result (λ bytes. bytes ≡ bytes_under texts.now name.now) }
{
    match texts.length(name) {
        Some(length) => Ok(Some(copy_all(alloc, texts, name, length)?)),
        None => Ok(None),
    }
}

fn copy_name(name: &Name) -> Result<Name, Memory>
    ensures { IfOk result (λ copy. copy ≡ name.now) }
{
    Ok(name.clone()?)
}

/// A copy of the file with this number, in the order of the names.
pub fn file_at(alloc: Global, texts: &Texts, file: u32) -> Result<FileText, Memory>
    requires { file < length texts.now }
    ensures { IfOk result (λ copy. slice_get texts.now file ≡ Some copy) }
{
    let _files = texts.files();
    let name = copy_name(texts.name_at(file))?;
    match copy_under(alloc, texts, &name)? {
        Some(bytes) => Ok(FileText { name, bytes }),
        None => unreachable!(),
    }
}
