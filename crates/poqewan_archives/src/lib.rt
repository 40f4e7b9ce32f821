// What C and Rust may call of archives. As in `poqewan`, no function has a precondition. It is a library of its own: compiled apart, the searches
// stand in one function for C in each library, and those of `poqewan` are compiled as they were.
#![tactic(auto)]

ghost use Rattle.std.specs.Prelude.{◌≡◌, length};
ghost use Rattle.archive.specs.Answer.{answer_by, list_by, plain_answer_by, plain_list_by};
ghost use Rattle.carried.specs.Carried.{report_in, carried_record, Searched, carried_directory, directory_in, carried_bounds, bounds_in};
ghost use Rattle.classes.specs.Classes.{identity};
ghost use Rattle.directory.specs.Archive.{directory_of, bounds_by, record_of};
ghost use Rattle.directory.specs.Promise.{IsArchive, Lies};
ghost use Rattle.directory.specs.declared.Directory.{Directory};
ghost use Rattle.pattern.specs.Letters.{own_bytes, word_of, text_of};
ghost use Rattle.rules.specs.Colussi.{colussi};
ghost use Rattle.rules.specs.Kmp.{kmp};
ghost use Rattle.rules.specs.Report.{Columns};
ghost use Rattle.search.specs.Promise.{Located, ListedBy, UnderCeiling, UnderKmpCeiling, AsColussi, NoZeroCovered};

use carried::{ArchiveDirectory, RecordBounds, SearchReport, archive_directory};
use pattern::Pattern;

// Reads the directory of an archive. Refused, in this order: more bytes than the longest text has (5), fewer than 12 bytes or wrong closing
// bytes (7), more than 4,096 records or a directory that is not exactly the bytes from its start to the trailer (8), records that do not touch
// from byte 0 to the directory (9).
#[unsafe(no_mangle)]
pub extern "C" fn poqewan_read_directory(archive: &[u8]) -> ArchiveDirectory
    ensures answer { result ≡ carried_directory (directory_of archive.now) }
    ensures read { result.refusal ≡ 0 → IsArchive archive.now (directory_in result) }
    ensures taken { (d : Directory) → IsArchive archive.now d → result.refusal ≡ 0 }
{
    archive_directory(archive)
}

// The bounds of a record of an archive, counted from 0. Refused as by `poqewan_read_directory`; after that, a record that is not there is told.
#[unsafe(no_mangle)]
pub extern "C" fn poqewan_find_record(archive: &[u8], index: u64) -> RecordBounds
    ensures answer { result ≡ carried_bounds (bounds_by archive.now index) }
    ensures inside { result.found ≡ 1 → Lies archive.now index (bounds_in result) }
{
    RecordBounds::from(directory::find_record(archive, index as usize))
}

// Searches one record of an archive in Colussi's order: its positions count from the record's own first byte. Refused, in this order, with the
// list unchanged: a pattern that is not what preparation gives for its own length, bytes and classes (4), and what `poqewan_read_directory`
// refuses (5, 7, 8, 9). After that a record that is not there is told, and the list is unchanged.
#[unsafe(no_mangle)]
pub extern "C" fn poqewan_colussi_record(
    pattern: Pattern,
    archive: &[u8],
    index: u64,
    cap: u64,
    positions: &mut [u32],
) -> SearchReport
    ensures answer { result ≡ carried_record (answer_by colussi pattern archive.now index cap (length positions.old)) }
    ensures list { positions.new ≡ list_by colussi pattern archive.now index cap positions.old }
    ensures accurate { Searched result → Located colussi (word_of pattern) (text_of pattern (record_of archive.now index)) cap positions.new (report_in result) }
    ensures classed { Searched result → ListedBy pattern.classes (own_bytes pattern) (record_of archive.now index) positions.new (report_in result) }
    ensures columns { Searched result → Columns (word_of pattern) (colussi (word_of pattern) (text_of pattern (record_of archive.now index)) cap (length positions.old)).last.made (report_in result) }
    ensures ceiling { Searched result → UnderCeiling (length (word_of pattern)) (length (record_of archive.now index)) (report_in result) }
    ensures zeros { Searched result → NoZeroCovered (length (word_of pattern)) (record_of archive.now index) positions.new (report_in result) }
    ensures plain { pattern.classes ≡ identity → (result ≡ carried_record (plain_answer_by colussi pattern archive.now index cap (length positions.old))) × (positions.new ≡ plain_list_by colussi pattern archive.now index cap positions.old) }
{
    SearchReport::from(archive::colussi_record(pattern, archive, index as usize, cap, positions))
}

// Searches one record by Knuth, Morris and Pratt, with the same report, endings, refusals and list. Run to its end, it lists what
// `poqewan_colussi_record` lists.
#[unsafe(no_mangle)]
pub extern "C" fn poqewan_kmp_record(
    pattern: Pattern,
    archive: &[u8],
    index: u64,
    cap: u64,
    positions: &mut [u32],
) -> SearchReport
    ensures answer { result ≡ carried_record (answer_by kmp pattern archive.now index cap (length positions.old)) }
    ensures list { positions.new ≡ list_by kmp pattern archive.now index cap positions.old }
    ensures accurate { Searched result → Located kmp (word_of pattern) (text_of pattern (record_of archive.now index)) cap positions.new (report_in result) }
    ensures classed { Searched result → ListedBy pattern.classes (own_bytes pattern) (record_of archive.now index) positions.new (report_in result) }
    ensures columns { Searched result → Columns (word_of pattern) (kmp (word_of pattern) (text_of pattern (record_of archive.now index)) cap (length positions.old)).last.made (report_in result) }
    ensures ceiling { Searched result → UnderKmpCeiling (length (word_of pattern)) (length (record_of archive.now index)) (report_in result) }
    ensures same { Searched result → AsColussi (word_of pattern) (text_of pattern (record_of archive.now index)) positions.new (report_in result) }
    ensures zeros { Searched result → NoZeroCovered (length (word_of pattern)) (record_of archive.now index) positions.new (report_in result) }
    ensures plain { pattern.classes ≡ identity → (result ≡ carried_record (plain_answer_by kmp pattern archive.now index cap (length positions.old))) × (positions.new ≡ plain_list_by kmp pattern archive.now index cap positions.old) }
{
    SearchReport::from(archive::kmp_record(pattern, archive, index as usize, cap, positions))
}
