// The searches of one record of an archive.
#![tactic(auto)]

ghost use Rattle.std.specs.Prelude.{◌≡◌, length, IfOk, IfSome};
ghost use Rattle.classes.specs.Classes.{identity};
ghost use Rattle.directory.specs.Archive.{record_of};
ghost use Rattle.directory.specs.Promise.{Lies};
ghost use Rattle.pattern.specs.Letters.{own_bytes, word_of, text_of};
ghost use Rattle.rules.specs.Colussi.{colussi};
ghost use Rattle.rules.specs.Kmp.{kmp};
ghost use Rattle.rules.specs.Report.{Columns};
ghost use Rattle.search.specs.Promise.{Located, ListedBy, UnderCeiling, UnderKmpCeiling, AsColussi, NoZeroCovered};
ghost use Rattle.archive.specs.Answer.{answer_by, list_by, plain_answer_by, plain_list_by};
ghost use Rattle.archive.specs.Promise.{IfRan};
ghost use Rattle.archive.specs.Internal.{to_search};

use directory::Bounds;
use pattern::Pattern;
use refusal::Refusal;
pub use rules::{Ending, Report};

// The bounds of the record that is to be searched. Where there is none, test 4 comes before what is told in place of a search.
#[tactic(auto, unfolding(crate::specs::Internal::to_search))]
fn to_search(pattern: Pattern, archive: &[u8], index: usize) -> Result<Option<Bounds>, Refusal>
    ensures answer { result ≡ to_search pattern archive.now index }
    ensures inside { IfOk result (λ found. IfSome found (Lies archive.now index)) }
{
    let found = directory::find_record(archive, index);
    match found {
        Ok(Some(_)) => found,
        _ if checked::is_prepared(pattern) => found,
        _ => Err(Refusal::FalsePattern),
    }
}

// Searches one record of an archive in Colussi's order, with at most `cap` comparisons, and fills the list from its start with the positions,
// counted from the record's own first byte. Refused, in this order, with the list unchanged: a pattern that is not what preparation gives for
// its own length, bytes and classes (4), and what `read_directory` refuses (5, 7, 8, 9). After that, where there is no such record, there is no
// report, and the list is unchanged. The search makes test 4 itself: the pattern is checked once a call.
pub fn colussi_record(
    pattern: Pattern,
    archive: &[u8],
    index: usize,
    cap: u64,
    positions: &mut [u32],
) -> Result<Option<Report>, Refusal>
    ensures answer { result ≡ answer_by colussi pattern archive.now index cap (length positions.old) }
    ensures list { positions.new ≡ list_by colussi pattern archive.now index cap positions.old }
    ensures accurate { IfRan (Located colussi (word_of pattern) (text_of pattern (record_of archive.now index)) cap positions.new) result }
    ensures classed { IfRan (ListedBy pattern.classes (own_bytes pattern) (record_of archive.now index) positions.new) result }
    ensures columns { IfRan (Columns (word_of pattern) (colussi (word_of pattern) (text_of pattern (record_of archive.now index)) cap (length positions.old)).last.made) result }
    ensures ceiling { IfRan (UnderCeiling (length (word_of pattern)) (length (record_of archive.now index))) result }
    ensures zeros { IfRan (NoZeroCovered (length (word_of pattern)) (record_of archive.now index) positions.new) result }
    ensures plain { pattern.classes ≡ identity → (result ≡ plain_answer_by colussi pattern archive.now index cap (length positions.old)) × (positions.new ≡ plain_list_by colussi pattern archive.now index cap positions.old) }
{
    let Some(Bounds { start, end }) = to_search(pattern, archive, index)? else {
        return Ok(None);
    };
    let report = search::colussi(pattern, &archive[start..end], cap, positions)?;
    Ok(Some(report))
}

// Searches one record by Knuth, Morris and Pratt, with the same report, endings, refusals and list. Run to its end, it lists what
// `colussi_record` lists.
pub fn kmp_record(
    pattern: Pattern,
    archive: &[u8],
    index: usize,
    cap: u64,
    positions: &mut [u32],
) -> Result<Option<Report>, Refusal>
    ensures answer { result ≡ answer_by kmp pattern archive.now index cap (length positions.old) }
    ensures list { positions.new ≡ list_by kmp pattern archive.now index cap positions.old }
    ensures accurate { IfRan (Located kmp (word_of pattern) (text_of pattern (record_of archive.now index)) cap positions.new) result }
    ensures classed { IfRan (ListedBy pattern.classes (own_bytes pattern) (record_of archive.now index) positions.new) result }
    ensures columns { IfRan (Columns (word_of pattern) (kmp (word_of pattern) (text_of pattern (record_of archive.now index)) cap (length positions.old)).last.made) result }
    ensures ceiling { IfRan (UnderKmpCeiling (length (word_of pattern)) (length (record_of archive.now index))) result }
    ensures same { IfRan (AsColussi (word_of pattern) (text_of pattern (record_of archive.now index)) positions.new) result }
    ensures zeros { IfRan (NoZeroCovered (length (word_of pattern)) (record_of archive.now index) positions.new) result }
    ensures plain { pattern.classes ≡ identity → (result ≡ plain_answer_by kmp pattern archive.now index cap (length positions.old)) × (positions.new ≡ plain_list_by kmp pattern archive.now index cap positions.old) }
{
    let Some(Bounds { start, end }) = to_search(pattern, archive, index)? else {
        return Ok(None);
    };
    let report = search::kmp(pattern, &archive[start..end], cap, positions)?;
    Ok(Some(report))
}
