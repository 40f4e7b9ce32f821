// How answers cross to C: as structs of a fixed layout, refusals and endings by number; beside a refusal all else is 0. What is promised of an answer
// holds of what C receives, since that is read back as it was (`Carrying`).
#![tactic(auto)]

mod archives;
mod corrections;
mod firsts;
mod prefix_lengths;
mod reports;

pub use archives::archive_directory;
use pattern::Pattern;

// The number of a refusal, and then all else is 0; or 0, how many pairs of the pattern's letters were compared to build hmax, and the pattern.
#[repr(C)]
#[derive(Clone, Copy)]
pub struct Preparation {
    pub refusal: u32,
    pub compared: u32,
    pub pattern: Pattern,
}

// The number of a refusal, and then all else is 0; or 0 and the report of a search. Its ending is 0 for done, 1 for spent and 2 for full,
// at a window, which is 0 for done. Of a search of one record it is 3, and all else 0, where there is no such record. The columns are at_noholes
// and at_holes in C and Rust.
#[repr(C)]
#[derive(Clone, Copy)]
pub struct SearchReport {
    pub refusal: u32,
    pub ending: u32,
    pub window: usize,
    pub count: u64,
    pub noholes: u64,
    pub holes: u64,
    pub written: usize,
}

// The number of a refusal, and then all else is 0; or 0, whether the pattern occurs, as 1 or 0, where it occurs first, or 0, and the count.
#[repr(C)]
#[derive(Clone, Copy)]
pub struct First {
    pub refusal: u32,
    pub found: u32,
    pub position: usize,
    pub count: u64,
}

// The number of a refusal, and then all else is 0; or 0 and the count of comparisons.
#[repr(C)]
#[derive(Clone, Copy)]
pub struct Lengths {
    pub refusal: u32,
    pub count: u64,
}

// The number of a refusal, and then all else is 0; or 0 and the number of a list's entries in use.
#[repr(C)]
#[derive(Clone, Copy)]
pub struct Update {
    pub refusal: u32,
    pub used: usize,
}

// The number of a refusal, and then all else is 0; or 0, the number of an archive's records, and where its directory starts.
#[repr(C)]
#[derive(Clone, Copy)]
pub struct ArchiveDirectory {
    pub refusal: u32,
    pub records: u32,
    pub start: usize,
}

// The number of a refusal, and then all else is 0; or 0, whether there is such a record, as 1 or 0, and its bounds, or 0.
#[repr(C)]
#[derive(Clone, Copy)]
pub struct RecordBounds {
    pub refusal: u32,
    pub found: u32,
    pub start: usize,
    pub end: usize,
}
