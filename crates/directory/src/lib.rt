// The directory of an archive: how many records there are, and where each of them lies. An archive is document 02's reel: many texts, one after
// the other from byte 0, then the directory, then the trailer.
#![tactic(auto)]

mod read;

ghost use Rattle.std.specs.Prelude.{◌≡◌, ◌↔◌, IfOk, IfSome};
ghost use Rattle.directory.specs.declared.Directory.{Directory};
ghost use Rattle.directory.specs.Archive.{directory_of, bounds_by};
ghost use Rattle.directory.specs.Promise.{IsArchive, Lies};

use admission::LONGEST_TEXT;
use read::{ENTRY, TRAILER};
use refusal::Refusal;

// The most records of an archive.
pub const MOST_RECORDS: usize = 4096;

// Where the directory starts, and how many records there are.
#[derive(Clone, Copy)]
pub struct Directory {
    pub start: usize,
    pub records: usize,
}

// A record's bytes are those of the archive from start on and below end.
#[derive(Clone, Copy)]
pub struct Bounds {
    pub start: usize,
    pub end: usize,
}

// Reads an archive's trailer and directory, whatever bytes it is lent. Refused, in this order: more than LONGEST_TEXT bytes (5), fewer than 12
// bytes or other closing bytes than 52 45 45 4C (7), more than MOST_RECORDS records or a directory that is not exactly the bytes from its start
// to the trailer (8), records that do not touch from byte 0 to the directory (9).
#[tactic(auto, using(crate::proofs::Reading::tests), unfolding(crate::specs::Archive::directory_start, crate::specs::Archive::record_count))]
pub fn read_directory(archive: &[u8]) -> Result<Directory, Refusal>
    ensures answer { result ≡ directory_of archive.now }
    ensures meaning { (d : Directory) → (result ≡ Ok d) ↔ IsArchive archive.now d }
{
    let size = archive.len();
    if LONGEST_TEXT < size {
        return Err(Refusal::LongText);
    }
    if size < TRAILER {
        return Err(Refusal::NoTrailer);
    }
    if !read::closes(archive) {
        return Err(Refusal::NoTrailer);
    }
    let start = read::number_at(archive, size - TRAILER);
    let records = read::number_at(archive, size - 8);
    if MOST_RECORDS < records {
        return Err(Refusal::FalseDirectory);
    }
    if start + ENTRY * records + TRAILER != size {
        return Err(Refusal::FalseDirectory);
    }
    if !read::touch(archive, start, records) {
        return Err(Refusal::RecordsApart);
    }
    Ok(Directory { start, records })
}

// The bounds of a record, counted from 0, or none where there is no such record. Refused as by `read_directory`.
#[tactic(auto, using(crate::proofs::Records::missing))]
pub fn find_record(archive: &[u8], index: usize) -> Result<Option<Bounds>, Refusal>
    ensures answer { result ≡ bounds_by archive.now index }
    ensures inside { IfOk result (λ o. IfSome o (Lies archive.now index)) }
{
    let directory = read_directory(archive)?;
    if directory.records <= index {
        return Ok(None);
    }
    let at = directory.start + ENTRY * index;
    let start = read::number_at(archive, at);
    let len = read::number_at(archive, at + 4);
    Ok(Some(Bounds {
        start,
        end: start + len,
    }))
}
