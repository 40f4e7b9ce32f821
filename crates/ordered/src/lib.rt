// The search in a custom order of comparison: document 02's request C-20.
#![tactic(auto)]

mod scan;

ghost use Rattle.std.specs.Prelude.{◌≡◌, length, IfOk};
ghost use Rattle.admission.specs.Admitted.{IsAdmitted};
ghost use Rattle.classes.specs.Classes.{identity};
ghost use Rattle.custom.specs.Order.{Arrangement};
ghost use Rattle.custom.specs.Custom.{custom};
ghost use Rattle.pattern.specs.Letters.{own_bytes, word_of, text_of};
ghost use Rattle.rules.specs.Report.{Columns, Reported};
ghost use Rattle.search.specs.Promise.{Located, ListedBy, AsColussi, NoZeroCovered};
ghost use Rattle.ordered.specs.Answer.{judged, answer_of, list_of, plain_answer_of, plain_list_of};

use admission::{admit, letters};
use custom::{fill_shifts, is_arrangement};
use pattern::{Pattern, RANKS};
use refusal::Refusal;
pub use rules::{Ending, Report};
use scan::Text;

// Whether an order of the m places of a pattern may be searched in, in a text of n bytes, by whether `is_prepared` finds the pattern prepared.
#[tactic(auto, unfolding(crate::specs::Answer::judged, admission::specs::Admitted::judged))]
fn door(prepared: bool, m: usize, order: &[u8], n: usize) -> Result<(), Refusal>
    ensures { result ≡ judged prepared m order.now n }
{
    if !prepared {
        return Err(Refusal::FalsePattern);
    }
    if !is_arrangement(order, m) {
        return Err(Refusal::FalseOrder);
    }
    admit(true, n)
}

// The scan for a pattern's letters in those of a text, with the tables of their order.
#[tactic(auto, using(crate::proofs::Lent::short_enough))]
fn scan_for(pattern: &Pattern, order: &[u8], text: &[u8], cap: u64, positions: &mut [u32]) -> Report
    requires admitted { IsAdmitted pattern.now (length text.now) }
    requires arrangement { Arrangement pattern.now.len order.now }
    ensures { Reported (word_of pattern.now) (custom order.now (word_of pattern.now) (text_of pattern.now text.now) cap (length positions.old)) positions.old positions.new result }
{
    let letters = &letters(pattern)[..pattern.len];
    let mut shifts = [0u16; RANKS];
    fill_shifts(letters, order, &mut shifts);
    let mut among = [0u16; RANKS];
    scan::fill_among(order, &pattern.marks, &mut among);
    let text = Text {
        classes: &pattern.classes,
        bytes: text,
    };
    scan::scan(letters, order, &shifts, &among, text, cap, positions)
}

// Searches a text in an order of the caller's own, with at most `cap` comparisons: entry i is the place of the pattern that rank i compares. It
// fills the list from its start with the positions where the pattern occurs, overlaps included. The entries after them are unchanged. Refused, in
// this order, with the list unchanged: a pattern that is not what preparation gives for its own length, bytes and classes (4), an order that is not
// an arrangement of the pattern's places (16), a text that is longer than the longest (5). The count has no ceiling.
pub fn ordered(
    pattern: Pattern,
    order: &[u8],
    text: &[u8],
    cap: u64,
    positions: &mut [u32],
) -> Result<Report, Refusal>
    ensures answer { result ≡ answer_of pattern order.now text.now cap (length positions.old) }
    ensures list { positions.new ≡ list_of pattern order.now text.now cap positions.old }
    ensures accurate { IfOk result (Located (custom order.now) (word_of pattern) (text_of pattern text.now) cap positions.new) }
    ensures classed { IfOk result (ListedBy pattern.classes (own_bytes pattern) text.now positions.new) }
    ensures columns { IfOk result (Columns (word_of pattern) (custom order.now (word_of pattern) (text_of pattern text.now) cap (length positions.old)).last.made) }
    ensures same { IfOk result (AsColussi (word_of pattern) (text_of pattern text.now) positions.new) }
    ensures zeros { IfOk result (NoZeroCovered (length (word_of pattern)) text.now positions.new) }
    ensures plain { pattern.classes ≡ identity → (result ≡ plain_answer_of pattern order.now text.now cap (length positions.old)) × (positions.new ≡ plain_list_of pattern order.now text.now cap positions.old) }
{
    door(
        checked::is_prepared(pattern),
        pattern.len,
        order,
        text.len(),
    )?;
    Ok(scan_for(&pattern, order, text, cap, positions))
}
