ghost use Rattle.std.specs.Prelude.{◌≡◌, ◌+◌, ◌-◌, ◌<◌, ◌≤◌, ◌^◌, length, take, drop, min, IfOk, IfErr, IfSome, MatchResult};
ghost use Rattle.go_base.specs.Package.{Ascends, IsPackage, most_bytes, total_bytes};
ghost use Rattle.std.specs.List.{insert, remove};
ghost use Rattle.std.specs.Option.{option_copied};
ghost use Rattle.go_base.specs.Gives.{Gives};
ghost use Rattle.edit_apply.specs.Edited.{bytes_under, spliced, with_bytes};
ghost use Rattle.edit_apply.specs.Answers.{edit_refusal, bytes_answer, file_answer, edit_answer, add_answer, remove_answer};
ghost use Rattle.edit_apply.specs.Places.{IsAt, IsGap};

use crate::texts::EditError;
use go_base::{Bytes, FileText, MAX_BYTES, MAX_FILES, Memory, Name};
use std::alloc::Global;
use std::cmp::Ordering;

/// Where the file of a name stands, or where one of that name would stand.
pub(crate) fn place_of(files: &[FileText], name: &Name) -> Result<usize, usize>
    requires { Ascends files.now }
    ensures { MatchResult result (IsAt files.now name.now) (IsGap files.now name.now) }
{
    let mut low = 0;
    let mut high = files.len();
    while low < high {
        let middle = low + (high - low) / 2;
        match files[middle].name.cmp(name) {
            Ordering::Equal => return Ok(middle),
            Ordering::Less => low = middle + 1,
            Ordering::Greater => high = middle,
        }
    }
    Err(low)
}

/// How many bytes the files have together.
pub(crate) fn count_bytes(files: &[FileText]) -> usize
    requires { total_bytes files.now < 2 ^ 64 }
    ensures { result ≡ total_bytes files.now }
{
    files.iter().map(|file| file.bytes.len()).sum()
}

/// The bytes of the file of a name.
pub(crate) fn bytes_of<'a>(files: &'a [FileText], name: &Name) -> Option<&'a Bytes>
    requires { Ascends files.now }
    ensures value { option_copied result ≡ bytes_under files.now name.now }
    ensures small { IfSome result (λ bytes. length bytes.now ≤ total_bytes files.now) }
{
    match place_of(files, name) {
        Ok(place) => Some(&files[place].bytes),
        Err(_) => None,
    }
}

/// The pieces before the start and from the end on, with new bytes between them.
pub(crate) fn spliced(
    alloc: Global,
    bytes: &[u8],
    start: usize,
    end: usize,
    new: &[u8],
) -> Result<Bytes, Memory>
    requires start { start ≤ length bytes.now }
    requires end { end ≤ length bytes.now }
    ensures { IfOk result (λ b. b ≡ spliced bytes.now start end new.now) }
{
    let mut all = Vec::from_slice(alloc, &bytes[..start])?;
    all.extend_from_slice(new)?;
    all.extend_from_slice(&bytes[end..])?;
    Ok(Bytes::of(all))
}

/// The bytes of an edited file, where all files have `total` bytes.
#[tactic(auto, unfolding(crate::specs::Answers::bytes_answer))]
pub(crate) fn edited_bytes(
    alloc: Global,
    bytes: &[u8],
    total: usize,
    start: u32,
    end: u32,
    new: &[u8],
) -> Result<Bytes, EditError>
    requires part { length bytes.now ≤ total }
    requires small { total ≤ most_bytes }
    ensures { Gives (λ b. b) edit_refusal result (bytes_answer bytes.now total start end new.now) }
{
    let (start, end) = (start as usize, end as usize);
    if start > end || end > bytes.len() {
        return Err(EditError::Range);
    }
    let kept = total - (end - start);
    if new.len() > MAX_BYTES as usize - kept {
        return Err(EditError::Limit);
    }
    Ok(spliced(alloc, bytes, start, end, new)?)
}

/// A file that comes to the others.
#[tactic(auto, unfolding(crate::specs::Answers::file_answer))]
pub(crate) fn new_file(
    alloc: Global,
    files: &[FileText],
    name: &Name,
    bytes: &[u8],
) -> Result<FileText, EditError>
    requires { IsPackage files.now }
    ensures { Gives (λ file. file) edit_refusal result (file_answer (length files.now) (total_bytes files.now) name.now bytes.now) }
{
    if files.len() >= MAX_FILES as usize {
        return Err(EditError::Limit);
    }
    if bytes.len() > MAX_BYTES as usize - count_bytes(files) {
        return Err(EditError::Limit);
    }
    Ok(FileText {
        name: name.clone()?,
        bytes: Bytes::from_slice(alloc, bytes)?,
    })
}

/// Moves bytes to the front of the buffer, as many as fit, and answers how many.
pub(crate) fn copy_front(bytes: &[u8], buf: &mut [u8]) -> usize
    ensures count { result ≡ min (length buf.old) (length bytes.now) }
    ensures copied { take result buf.new ≡ take result bytes.now }
    ensures kept { drop result buf.new ≡ drop result buf.old }
{
    let n = buf.len().min(bytes.len());
    buf[..n].copy_from_slice(&bytes[..n]);
    n
}

/// Where the edited file of a name stands, and its new bytes.
pub(crate) fn edited_place(
    alloc: Global,
    files: &[FileText],
    name: &Name,
    start: u32,
    end: u32,
    new: &[u8],
) -> Result<(usize, Bytes), EditError>
    requires { IsPackage files.now }
    ensures answer { Gives (λ r. with_bytes files.now r.0 r.1) edit_refusal result (edit_answer files.now name.now start end new.now) }
    ensures place { IfOk result (λ r. r.0 < length files.now) }
    ensures package { IfOk result (λ r. IsPackage (with_bytes files.now r.0 r.1)) }
{
    let Ok(place) = place_of(files, name) else {
        return Err(EditError::NoFile);
    };
    let total = count_bytes(files);
    let bytes = files[place].bytes.as_slice();
    let bytes = edited_bytes(alloc, bytes, total, start, end, new)?;
    Ok((place, bytes))
}

/// Where a file of a new name goes, and the file.
pub(crate) fn added_place(
    alloc: Global,
    files: &[FileText],
    name: &Name,
    bytes: &[u8],
) -> Result<(usize, FileText), EditError>
    requires { IsPackage files.now }
    ensures answer { Gives (λ r. insert files.now r.0 r.1) edit_refusal result (add_answer files.now name.now bytes.now) }
    ensures place { IfOk result (λ r. r.0 ≤ length files.now) }
    ensures package { IfOk result (λ r. IsPackage (insert files.now r.0 r.1)) }
{
    if !name.is_go_file() {
        return Err(EditError::BadName);
    }
    let Err(place) = place_of(files, name) else {
        return Err(EditError::Held);
    };
    let file = new_file(alloc, files, name, bytes)?;
    Ok((place, file))
}

/// Where the file of a name stands.
pub(crate) fn removed_place(files: &[FileText], name: &Name) -> Result<usize, EditError>
    requires { IsPackage files.now }
    ensures answer { Gives (λ place. remove files.now place) edit_refusal result (remove_answer files.now name.now) }
    ensures only { IfErr result (λ e. e ≡ EditError.NoFile) }
    ensures place { IfOk result (λ place. place < length files.now) }
    ensures package { IfOk result (λ place. IsPackage (remove files.now place)) }
{
    match place_of(files, name) {
        Ok(place) => Ok(place),
        Err(_) => Err(EditError::NoFile),
    }
}
