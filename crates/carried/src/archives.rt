// The answers about archives and where their records lie.
ghost use Rattle.std.specs.Prelude.{◌≡◌};
ghost use Rattle.directory.specs.Archive.{directory_of};
ghost use Rattle.carried.specs.Carried.{carried_directory, carried_bounds};

use super::{ArchiveDirectory, RecordBounds};
use directory::Bounds;
use refusal::Refusal;

// The directory of an archive. It is read here, since only of one that was read is the number of records known to fit.
pub fn archive_directory(archive: &[u8]) -> ArchiveDirectory
    ensures answer { result ≡ carried_directory (directory_of archive.now) }
{
    match directory::read_directory(archive) {
        Ok(directory) => ArchiveDirectory {
            refusal: 0,
            records: directory.records as u32,
            start: directory.start,
        },
        Err(why) => ArchiveDirectory {
            refusal: u32::from(why.number()),
            records: 0,
            start: 0,
        },
    }
}

// So are the bounds 0 where there is no such record.
impl From<Result<Option<Bounds>, Refusal>> for RecordBounds {
    ghost from_gives = { λ answer result. result ≡ carried_bounds answer };

    fn from(answer: Result<Option<Bounds>, Refusal>) -> Self {
        match answer {
            Ok(Some(bounds)) => RecordBounds {
                refusal: 0,
                found: 1,
                start: bounds.start,
                end: bounds.end,
            },
            Ok(None) => RecordBounds {
                refusal: 0,
                found: 0,
                start: 0,
                end: 0,
            },
            Err(why) => RecordBounds {
                refusal: u32::from(why.number()),
                found: 0,
                start: 0,
                end: 0,
            },
        }
    }
}
