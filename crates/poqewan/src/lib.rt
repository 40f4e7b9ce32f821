// What C and Rust may call: the proved functions over numbers, slices and structs of a fixed layout. No function has a precondition, so
// nothing is asked of a caller but what C asks of pointers.
#![tactic(auto)]

ghost use Rattle.std.specs.Prelude.{◌≡◌, ◌↔◌, List, ℕ, ◌+◌, ◌*◌, ◌≤◌, ◌<◌, length};
ghost use Rattle.carried.specs.Carried.{carried_preparation, carried, report_in, carried_first, first_in, carried_lengths};
ghost use Rattle.charge.specs.Charged.{charged};
ghost use Rattle.classes.specs.Classes.{identity, identity_in};
ghost use Rattle.custom.specs.Custom.{custom};
ghost use Rattle.first.specs.Answer.{first_by, plain_first_by};
ghost use Rattle.first.specs.Promise.{FirstOfFull, FirstInBytes, FirstUnderCeiling, FirstCoversNoZero};
ghost use Rattle.intake.specs.Sizes.{scratch_size};
ghost use Rattle.intake.specs.Outcomes.{Preparable, Usable};
ghost use Rattle.hmax.specs.FastMethod.{FewCompared};
ghost use Rattle.journal.specs.Journal.{journal_of};
ghost use Rattle.journal.specs.Replay.{replayed};
ghost use Rattle.journaled.specs.Answer as journals;
ghost use Rattle.journaled.specs.Promise.{Recorded};
ghost use Rattle.lengths.specs.Answer.{answer_of, list_of, plain_answer_of, plain_list_of};
ghost use Rattle.lengths.specs.Promise.{EachLongest, WholeWhere};
ghost use Rattle.ordered.specs.Answer as orders;
ghost use Rattle.pattern.specs.Letters.{own_bytes, word_of, text_of};
ghost use Rattle.preparation.specs.Prepared.{prepared, plain_prepared, scratch_after, plain_scratch, Cleared};
ghost use Rattle.prefixes.specs.Promise.{FewFor, AsKmp};
ghost use Rattle.refusal.specs.Numbers.{number_of};
ghost use Rattle.refusal.specs.declared.Refusal.TheVariants.{FalseJournal};
ghost use Rattle.replay.specs.Answer as replays;
ghost use Rattle.replay.specs.Promise.{Whole};
ghost use Rattle.rules.specs.Answered.{Answered};
ghost use Rattle.rules.specs.Colussi.{colussi};
ghost use Rattle.rules.specs.Kmp.{kmp};
ghost use Rattle.rules.specs.Occurs.{occurrences};
ghost use Rattle.rules.specs.Report.{Columns};
ghost use Rattle.rules.specs.Rules.{text_source};
ghost use Rattle.search.specs.Answer.{answer_by, list_by, plain_answer_by, plain_list_by};
ghost use Rattle.search.specs.Promise.{Located, ListedBy, UnderCeiling, UnderKmpCeiling, AsColussi, NoZeroCovered};

use carried::{First, Lengths, Preparation, SearchReport};
use pattern::Pattern;

// Each entry v becomes v mod 256: of 256 entries, the classes that give each value itself.
#[unsafe(no_mangle)]
pub extern "C" fn poqewan_identity(classes: &mut [u8])
    ensures filled { classes.new ≡ identity_in (length classes.old) }
{
    classes::fill_identity(classes)
}

// Prepares a pattern for search, whose bytes count as equal when their classes are. Refused, in this order: no byte (1), more bytes than the
// longest pattern has (2), a byte 0 among them (10), not 256 classes (14), a value other than 0 with the class of 0 (15), a scratch of too few
// numbers (3). After success the scratch begins with that many zeros and the rest is unchanged; after a refusal all of it is.
#[unsafe(no_mangle)]
pub extern "C" fn poqewan_prepare(bytes: &[u8], classes: &[u8], scratch: &mut [u16]) -> Preparation
    ensures answer { result ≡ carried_preparation (prepared bytes.now classes.now (length scratch.old)) }
    ensures scratched { scratch.new ≡ scratch_after bytes.now classes.now scratch.old }
    ensures taken { (result.refusal ≡ 0) ↔ (Preparable bytes.now × Usable classes.now × (scratch_size ≤ length scratch.old)) }
    ensures cleared { result.refusal ≡ 0 → Cleared scratch.old scratch.new }
    ensures few { FewCompared (length bytes.now) result.compared }
    ensures plain { classes.now ≡ identity → (result ≡ carried_preparation (plain_prepared bytes.now (length scratch.old))) × (scratch.new ≡ plain_scratch bytes.now scratch.old) }
{
    match preparation::prepare(bytes, classes, scratch) {
        Ok(built) => Preparation {
            refusal: 0,
            compared: built.compared as u32,
            pattern: built.pattern,
        },
        Err(why) => Preparation {
            refusal: u32::from(why.number()),
            compared: 0,
            pattern: pattern::zero_pattern(),
        },
    }
}

// Searches a text in Colussi's order, with at most `cap` comparisons, and fills the list from its start with the positions where the pattern
// occurs, overlaps included. The entries after them are unchanged. Refused, in this order, with the list unchanged: a pattern that is not
// what preparation gives for its own length, bytes and classes (4), a text that is longer than the longest (5).
#[unsafe(no_mangle)]
pub extern "C" fn poqewan_colussi(
    pattern: Pattern,
    text: &[u8],
    cap: u64,
    positions: &mut [u32],
) -> SearchReport
    ensures answer { result ≡ carried (answer_by colussi pattern text.now cap (length positions.old)) }
    ensures list { positions.new ≡ list_by colussi pattern text.now cap positions.old }
    ensures accurate { result.refusal ≡ 0 → Located colussi (word_of pattern) (text_of pattern text.now) cap positions.new (report_in result) }
    ensures classed { result.refusal ≡ 0 → ListedBy pattern.classes (own_bytes pattern) text.now positions.new (report_in result) }
    ensures columns { result.refusal ≡ 0 → Columns (word_of pattern) (colussi (word_of pattern) (text_of pattern text.now) cap (length positions.old)).last.made (report_in result) }
    ensures ceiling { result.refusal ≡ 0 → UnderCeiling (length (word_of pattern)) (length text.now) (report_in result) }
    ensures zeros { result.refusal ≡ 0 → NoZeroCovered (length (word_of pattern)) text.now positions.new (report_in result) }
    ensures plain { pattern.classes ≡ identity → (result ≡ carried (plain_answer_by colussi pattern text.now cap (length positions.old))) × (positions.new ≡ plain_list_by colussi pattern text.now cap positions.old) }
{
    SearchReport::from(search::colussi(pattern, text, cap, positions))
}

// Searches a text by Knuth, Morris and Pratt, with the same report, endings, refusals and list. Run to its end, it lists what
// `poqewan_colussi` lists.
#[unsafe(no_mangle)]
pub extern "C" fn poqewan_kmp(
    pattern: Pattern,
    text: &[u8],
    cap: u64,
    positions: &mut [u32],
) -> SearchReport
    ensures answer { result ≡ carried (answer_by kmp pattern text.now cap (length positions.old)) }
    ensures list { positions.new ≡ list_by kmp pattern text.now cap positions.old }
    ensures accurate { result.refusal ≡ 0 → Located kmp (word_of pattern) (text_of pattern text.now) cap positions.new (report_in result) }
    ensures classed { result.refusal ≡ 0 → ListedBy pattern.classes (own_bytes pattern) text.now positions.new (report_in result) }
    ensures columns { result.refusal ≡ 0 → Columns (word_of pattern) (kmp (word_of pattern) (text_of pattern text.now) cap (length positions.old)).last.made (report_in result) }
    ensures ceiling { result.refusal ≡ 0 → UnderKmpCeiling (length (word_of pattern)) (length text.now) (report_in result) }
    ensures same { result.refusal ≡ 0 → AsColussi (word_of pattern) (text_of pattern text.now) positions.new (report_in result) }
    ensures zeros { result.refusal ≡ 0 → NoZeroCovered (length (word_of pattern)) text.now positions.new (report_in result) }
    ensures plain { pattern.classes ≡ identity → (result ≡ carried (plain_answer_by kmp pattern text.now cap (length positions.old))) × (positions.new ≡ plain_list_by kmp pattern text.now cap positions.old) }
{
    SearchReport::from(search::kmp(pattern, text, cap, positions))
}

// Searches a text in an order of the caller's own, with at most `cap` comparisons: entry i is the place of the pattern that rank i compares. Report,
// endings and list are as above. Refused, in this order, with the list unchanged: a pattern that is not what preparation gives for its own length,
// bytes and classes (4), an order that is not an arrangement of the pattern's places (16), a text that is longer than the longest (5). Run to its
// end, it lists what `poqewan_colussi` lists. The count has no ceiling.
#[unsafe(no_mangle)]
pub extern "C" fn poqewan_ordered(
    pattern: Pattern,
    order: &[u8],
    text: &[u8],
    cap: u64,
    positions: &mut [u32],
) -> SearchReport
    ensures answer { result ≡ carried (orders.answer_of pattern order.now text.now cap (length positions.old)) }
    ensures list { positions.new ≡ orders.list_of pattern order.now text.now cap positions.old }
    ensures accurate { result.refusal ≡ 0 → Located (custom order.now) (word_of pattern) (text_of pattern text.now) cap positions.new (report_in result) }
    ensures classed { result.refusal ≡ 0 → ListedBy pattern.classes (own_bytes pattern) text.now positions.new (report_in result) }
    ensures columns { result.refusal ≡ 0 → Columns (word_of pattern) (custom order.now (word_of pattern) (text_of pattern text.now) cap (length positions.old)).last.made (report_in result) }
    ensures same { result.refusal ≡ 0 → AsColussi (word_of pattern) (text_of pattern text.now) positions.new (report_in result) }
    ensures zeros { result.refusal ≡ 0 → NoZeroCovered (length (word_of pattern)) text.now positions.new (report_in result) }
    ensures plain { pattern.classes ≡ identity → (result ≡ carried (orders.plain_answer_of pattern order.now text.now cap (length positions.old))) × (positions.new ≡ orders.plain_list_of pattern order.now text.now cap positions.old) }
{
    SearchReport::from(ordered::ordered(pattern, order, text, cap, positions))
}

// Searches a text in Colussi's order, with at most `cap` comparisons, and writes an entry of the journal for each: twice its position in the text,
// plus 1 if equal. The entries past the count are unchanged. Report, endings and list are those of `poqewan_colussi`. Refused, in this order, with
// list and journal unchanged: a pattern that is not what preparation gives for its own length, bytes and classes (4), a text that is longer than the
// longest (5), a journal that is shorter than the cap (17).
#[unsafe(no_mangle)]
pub extern "C" fn poqewan_journaled(
    pattern: Pattern,
    text: &[u8],
    cap: u64,
    positions: &mut [u32],
    journal: &mut [u32],
) -> SearchReport
    ensures answer { result ≡ carried (journals.answer_of pattern text.now cap (length positions.old) (length journal.old)) }
    ensures list { positions.new ≡ journals.list_of pattern text.now cap (length journal.old) positions.old }
    ensures journal { journal.new ≡ journals.journal_in pattern text.now cap (length positions.old) journal.old }
    ensures same { cap ≤ length journal.old → (result ≡ carried (answer_by colussi pattern text.now cap (length positions.old))) × (positions.new ≡ list_by colussi pattern text.now cap positions.old) }
    ensures entries { result.refusal ≡ 0 → Recorded (colussi (word_of pattern) (text_of pattern text.now) cap (length positions.old)).last.made journal.old journal.new (report_in result) }
    ensures accurate { result.refusal ≡ 0 → Located colussi (word_of pattern) (text_of pattern text.now) cap positions.new (report_in result) }
    ensures classed { result.refusal ≡ 0 → ListedBy pattern.classes (own_bytes pattern) text.now positions.new (report_in result) }
    ensures columns { result.refusal ≡ 0 → Columns (word_of pattern) (colussi (word_of pattern) (text_of pattern text.now) cap (length positions.old)).last.made (report_in result) }
    ensures ceiling { result.refusal ≡ 0 → UnderCeiling (length (word_of pattern)) (length text.now) (report_in result) }
    ensures zeros { result.refusal ≡ 0 → NoZeroCovered (length (word_of pattern)) text.now positions.new (report_in result) }
    ensures plain { pattern.classes ≡ identity → (result ≡ carried (journals.plain_answer_of pattern text.now cap (length positions.old) (length journal.old))) × (positions.new ≡ journals.plain_list_of pattern text.now cap (length journal.old) positions.old) × (journal.new ≡ journals.plain_journal_in pattern text.now cap (length positions.old) journal.old) }
{
    SearchReport::from(journaled::journaled(pattern, text, cap, positions, journal))
}

// Follows the search for a pattern in a text of n bytes by a journal of its comparisons, without the text: an odd entry says that they were equal. Where
// the journal runs out while a comparison is due, the ending is spent. Report and list are those of `poqewan_colussi`, capped at the journal's length, on
// any text of n bytes that answers those comparisons so. Refused, in this order, with the list unchanged: a pattern that is not what preparation gives
// for its own length, bytes and classes (4), a text that is longer than the longest (5), a journal with an entry whose place is not the one that the
// rules compare next, or with entries that remain after done or full (18).
#[unsafe(no_mangle)]
pub extern "C" fn poqewan_replay(
    pattern: Pattern,
    n: usize,
    positions: &mut [u32],
    journal: &[u32],
) -> SearchReport
    ensures answer { result ≡ carried (replays.answer_of pattern n journal.now (length positions.old)) }
    ensures list { positions.new ≡ replays.list_of pattern n journal.now positions.old }
    ensures text { (t : List ℕ) → length t ≡ n → Answered (text_source (word_of pattern) (text_of pattern t)) (replayed (word_of pattern) n journal.now (length positions.old)).last.made → (result.refusal ≡ number_of FalseJournal → ⊥) → (result ≡ carried (answer_by colussi pattern t (length journal.now) (length positions.old))) × (positions.new ≡ list_by colussi pattern t (length journal.now) positions.old) }
    ensures own { (t : List ℕ) (cap : ℕ) → length t ≡ n → journal.now ≡ journal_of (colussi (word_of pattern) (text_of pattern t) cap (length positions.old)).last.made → (result ≡ carried (answer_by colussi pattern t cap (length positions.old))) × (positions.new ≡ list_by colussi pattern t cap positions.old) }
    ensures whole { result.refusal ≡ 0 → Whole (word_of pattern) n journal.now (length positions.old) (report_in result) }
    ensures columns { result.refusal ≡ 0 → Columns (word_of pattern) (replayed (word_of pattern) n journal.now (length positions.old)).last.made (report_in result) }
    ensures ceiling { result.refusal ≡ 0 → UnderCeiling (length (word_of pattern)) n (report_in result) }
    ensures plain { pattern.classes ≡ identity → (result ≡ carried (replays.plain_answer_of pattern n journal.now (length positions.old))) × (positions.new ≡ replays.plain_list_of pattern n journal.now positions.old) }
{
    SearchReport::from(replay::replay(pattern, n, positions, journal))
}

// Searches a text in Colussi's order, without a cap, up to the first position where the pattern occurs. Refused, in this order: a pattern that
// is not what preparation gives for its own length, bytes and classes (4), a text that is longer than the longest (5).
#[unsafe(no_mangle)]
pub extern "C" fn poqewan_find_first(pattern: Pattern, text: &[u8]) -> First
    ensures answer { result ≡ carried_first (first_by pattern text.now) }
    ensures full { result.refusal ≡ 0 → FirstOfFull (word_of pattern) (text_of pattern text.now) (first_in result) }
    ensures classed { result.refusal ≡ 0 → FirstInBytes pattern.classes (own_bytes pattern) text.now (first_in result) }
    ensures ceiling { result.refusal ≡ 0 → FirstUnderCeiling (length (word_of pattern)) (length text.now) (first_in result) }
    ensures zeros { result.refusal ≡ 0 → FirstCoversNoZero (length (word_of pattern)) text.now (first_in result) }
    ensures plain { pattern.classes ≡ identity → result ≡ carried_first (plain_first_by pattern text.now) }
{
    First::from(first::find_first(pattern, text))
}

// Writes the length of the longest prefix of the pattern that begins at each position of a text into the list's entry for it. The entries past them
// are unchanged. Refused, in this order, with the list unchanged: a pattern that is not what preparation gives for its own length, bytes and
// classes (4), a text that is longer than the longest (5), a list with fewer entries than the text has bytes (11).
#[unsafe(no_mangle)]
pub extern "C" fn poqewan_prefix_lengths(
    pattern: Pattern,
    text: &[u8],
    lengths: &mut [u16],
) -> Lengths
    ensures answer { result ≡ carried_lengths (answer_of pattern text.now (length lengths.old)) }
    ensures list { lengths.new ≡ list_of pattern text.now lengths.old }
    ensures longest { result.refusal ≡ 0 → EachLongest pattern.classes (own_bytes pattern) text.now lengths.new }
    ensures whole { result.refusal ≡ 0 → WholeWhere pattern.classes (own_bytes pattern) text.now (occurrences (word_of pattern) (text_of pattern text.now)) lengths.new }
    ensures ceiling { result.refusal ≡ 0 → FewFor (length text.now) result.count }
    ensures kmp { result.refusal ≡ 0 → AsKmp (word_of pattern) (text_of pattern text.now) }
    ensures plain { pattern.classes ≡ identity → (result ≡ carried_lengths (plain_answer_of pattern text.now (length lengths.old))) × (lengths.new ≡ plain_list_of pattern text.now lengths.old) }
{
    Lengths::from(lengths::prefix_lengths(pattern, text, lengths))
}

// The charge of a count of comparisons: its started thousands.
#[unsafe(no_mangle)]
pub extern "C" fn poqewan_charge(count: u64) -> u64
    ensures answer { result ≡ charged count }
    ensures started { (count ≤ 1000 * result) × (1000 * result < count + 1000) }
{
    charge::charge(count)
}
