// The replay of a journal, without the text: document 02's request C-21.
#![tactic(auto)]

mod follow;

ghost use Rattle.std.specs.Prelude.{◌≡◌, length, IfOk};
ghost use Rattle.classes.specs.Classes.{identity};
ghost use Rattle.journal.specs.Replay.{replayed};
ghost use Rattle.pattern.specs.Letters.{word_of};
ghost use Rattle.rules.specs.Report.{Columns};
ghost use Rattle.search.specs.Promise.{UnderCeiling};
ghost use Rattle.replay.specs.Answer.{answer_of, list_of, plain_answer_of, plain_list_of};
ghost use Rattle.replay.specs.Promise.{OnAnyText, GivesBack, Whole};

use admission::admit;
use follow::follow;
use pattern::Pattern;
use refusal::Refusal;
pub use rules::{Ending, Report};

// Follows the search for a pattern in a text of n bytes by a journal of its comparisons: an odd entry says that they were equal. Where the journal runs
// out while a comparison is due, the ending is spent. The list is filled from its start as the search fills it. Refused, in this order, with the list
// unchanged: a pattern that is not what preparation gives for its own length, bytes and classes (4), a text that is longer than the longest (5), a
// journal with an entry whose place is not the one that the rules compare next, or with entries that remain after done or full (18). Since that is
// known only at the end, a first pass follows and a second one writes.
pub fn replay(
    pattern: Pattern,
    n: usize,
    positions: &mut [u32],
    journal: &[u32],
) -> Result<Report, Refusal>
    ensures answer { result ≡ answer_of pattern n journal.now (length positions.old) }
    ensures list { positions.new ≡ list_of pattern n journal.now positions.old }
    ensures text { OnAnyText pattern n journal.now positions.old positions.new result }
    ensures own { GivesBack pattern n journal.now positions.old positions.new result }
    ensures whole { IfOk result (Whole (word_of pattern) n journal.now (length positions.old)) }
    ensures columns { IfOk result (Columns (word_of pattern) (replayed (word_of pattern) n journal.now (length positions.old)).last.made) }
    ensures ceiling { IfOk result (UnderCeiling (length (word_of pattern)) n) }
    ensures plain { pattern.classes ≡ identity → (result ≡ plain_answer_of pattern n journal.now (length positions.old)) × (positions.new ≡ plain_list_of pattern n journal.now positions.old) }
{
    admit(checked::is_prepared(pattern), n)?;
    let size = positions.len();
    follow(&pattern, n, size, journal, &mut positions[..0]).ok_or(Refusal::FalseJournal)?;
    follow(&pattern, n, size, journal, positions).ok_or(Refusal::FalseJournal)
}
