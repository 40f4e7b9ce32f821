// The search in Colussi's order that writes a journal of its comparisons: document 02's request C-21.
#![tactic(auto)]

mod scan;

ghost use Rattle.std.specs.Prelude.{◌≡◌, length, IfOk};
ghost use Rattle.classes.specs.Classes.{identity};
ghost use Rattle.pattern.specs.Letters.{own_bytes, word_of, text_of};
ghost use Rattle.rules.specs.Colussi.{colussi};
ghost use Rattle.rules.specs.Report.{Columns};
ghost use Rattle.search.specs.Promise.{Located, ListedBy, UnderCeiling, NoZeroCovered};
ghost use Rattle.journaled.specs.Answer.{answer_of, list_of, journal_in, plain_answer_of, plain_list_of, plain_journal_in};
ghost use Rattle.journaled.specs.Promise.{AsWithout, Recorded};

use admission::{admit, also, letters};
use pattern::Pattern;
use refusal::Refusal;
pub use rules::{Ending, Report};

// Searches a text in Colussi's order, with at most `cap` comparisons, and writes an entry of the journal for each: twice its position in the text,
// plus 1 if equal. The entries past the count are unchanged. The answer and the list are those of `colussi`. Refused, in this order, with list and
// journal unchanged: a pattern that is not what preparation gives for its own length, bytes and classes (4), a text that is longer than the
// longest (5), a journal that is shorter than the cap (17).
pub fn journaled(
    pattern: Pattern,
    text: &[u8],
    cap: u64,
    positions: &mut [u32],
    journal: &mut [u32],
) -> Result<Report, Refusal>
    ensures answer { result ≡ answer_of pattern text.now cap (length positions.old) (length journal.old) }
    ensures list { positions.new ≡ list_of pattern text.now cap (length journal.old) positions.old }
    ensures journal { journal.new ≡ journal_in pattern text.now cap (length positions.old) journal.old }
    ensures same { AsWithout pattern text.now cap (length journal.old) positions.old positions.new result }
    ensures entries { IfOk result (Recorded (colussi (word_of pattern) (text_of pattern text.now) cap (length positions.old)).last.made journal.old journal.new) }
    ensures accurate { IfOk result (Located colussi (word_of pattern) (text_of pattern text.now) cap positions.new) }
    ensures classed { IfOk result (ListedBy pattern.classes (own_bytes pattern) text.now positions.new) }
    ensures columns { IfOk result (Columns (word_of pattern) (colussi (word_of pattern) (text_of pattern text.now) cap (length positions.old)).last.made) }
    ensures ceiling { IfOk result (UnderCeiling (length (word_of pattern)) (length text.now)) }
    ensures zeros { IfOk result (NoZeroCovered (length (word_of pattern)) text.now positions.new) }
    ensures plain { pattern.classes ≡ identity → (result ≡ plain_answer_of pattern text.now cap (length positions.old) (length journal.old)) × (positions.new ≡ plain_list_of pattern text.now cap (length journal.old) positions.old) × (journal.new ≡ plain_journal_in pattern text.now cap (length positions.old) journal.old) }
{
    let door = admit(checked::is_prepared(pattern), text.len());
    also(door, cap <= journal.len() as u64, Refusal::ShortJournal)?;
    let letters = letters(&pattern);
    Ok(scan::scan(&pattern, &letters, text, cap as usize, positions, journal))
}
