//! The table `listings`: a number, the two options, the files, and the reply to `classes` with `; ` for each newline but the last.
//! Each listing is made in three ways, and all are compared with the reply.
use crate::agreement::{Case, listed_thrice};
use crate::sessions::Session;
use case_tables::folders::folder_of;
use case_tables::table::Table;
use go_base::Memory;
use std::alloc::Global;

pub struct Listings;

impl Table for Listings {
    fn name(&self) -> &'static str {
        "listings"
    }

    fn difference(&self, alloc: Global, fields: &[&str]) -> Result<Option<String>, Memory> {
        let [_, min, mass, folder, reply, ..] = fields else {
            return Ok(Some(String::from_str(alloc, "not five fields")?));
        };
        let words = format!(in alloc; "--min {min} --mass {mass} d")?;
        let session = Session {
            words: words.as_str(),
            failing: "-",
            folder,
            script: Vec::from_slice(alloc, b"classes\n")?,
        };
        let ended = session.ended(alloc)?;
        if ended.status != 0 || ended.written.as_slice() != lines(alloc, reply)?.as_bytes() {
            return Ok(Some(ended.shown(alloc)?));
        }
        let mut case = Case {
            folder: folder_of(alloc, "d", folder, Vec::new(alloc))?,
            dir: String::from_str(alloc, "d")?,
            min: min.parse::<u32>().unwrap_or(0),
            mass: mass.parse::<u32>().unwrap_or(0),
        };
        if is_listed(alloc, &mut case, &ended.written)? {
            Ok(None)
        } else {
            Ok(Some(String::from_str(alloc, "three listings")?))
        }
    }
}

/// Whether this is the listing of a package, made in each of three ways, or the line of a fault that it has.
fn is_listed(alloc: Global, case: &mut Case, written: &[u8]) -> Result<bool, Memory> {
    match listed_thrice(alloc, case)? {
        Some(listings) => Ok(listings.agree() && listings.own.as_slice() == written),
        None => Ok(written.starts_with(b"fault ")),
    }
}

/// The lines of a reply.
pub fn lines(alloc: Global, reply: &str) -> Result<String, Memory> {
    let mut lines = String::new(alloc);
    for line in reply.split("; ") {
        lines.push_str(line)?;
        lines.push_str("\n")?;
    }
    Ok(lines)
}
