// One byte of a text is corrected: the list of a pattern's positions is brought up to date by a search of the windows that cover it. Document 02's
// request C-22.
#![tactic(auto)]

mod bisect;
mod moving;
mod windows;

ghost use Rattle.std.specs.Prelude.{◌≡◌, ◌+◌, ◌≤◌, ◌<◌, length, take, drop, IfOk};
ghost use Rattle.admission.specs.Admitted.{admitted, also_judged};
ghost use Rattle.classes.specs.Classes.{identity};
ghost use Rattle.lists.specs.Lists.{Ascending, moved};
ghost use Rattle.pattern.specs.Letters.{own_bytes, word_of, text_of};
ghost use Rattle.refusal.specs.declared.Refusal.TheVariants.{FalseList};
ghost use Rattle.update.specs.Promise.{Corrected};
ghost use Rattle.correct.specs.Answer.{answered, answer_of, list_of, plain_answer_of, plain_list_of};
ghost use Rattle.correct.specs.Promise.{CoveredBy, StaysFull, NoZeroNear};
ghost use Rattle.correct.specs.Internal.{Small, Joined};

use admission::{LONGEST_TEXT, admit, also};
use pattern::{LONGEST_PATTERN, Pattern};
use refusal::Refusal;
use rules::NO_CAP;
use windows::Part;

// The answer where nothing is searched: tests 4, 5 and 19, in that order. Who passes has the list as it is.
#[tactic(auto, unfolding(crate::specs::Answer::answered, admission::specs::Admitted::admitted))]
fn unsearched(pattern: Pattern, n: usize, in_order: bool, used: usize) -> Result<usize, Refusal>
    ensures { result ≡ answered (also_judged (admitted pattern n) in_order FalseList) used }
{
    let door = admit(checked::is_prepared(pattern), n);
    also(door, in_order, Refusal::FalseList)?;
    Ok(used)
}

// Puts the positions found, moved by `start`, in place of the entries in use from `start` on and below `past`, if the list has room for all (20).
fn join(
    positions: &mut [u32],
    used: usize,
    found: &[u32],
    start: usize,
    past: usize,
) -> Result<usize, Refusal>
    requires used_in_bounds { (used ≤ length positions.old) × Ascending (take used positions.old) × (start ≤ past) }
    requires small { Small start found.now }
    ensures { Joined positions.old used start past (moved start found.now) positions.new result }
{
    let in_use = &positions[..used];
    let low = bisect::below(in_use, start);
    let high = bisect::below(in_use, past);
    let kept = low + (used - high);
    let new = found.len();
    if positions.len() - kept < new {
        return Err(Refusal::ShortList);
    }
    moving::slide(positions, high, used - high, low + new);
    moving::put(positions, low, found, start);
    Ok(kept + new)
}

// Brings the first `used` entries of a list of positions up to date after the byte at a place of the text was corrected. The windows that cover the
// place are searched, and every other entry is kept, right or wrong. Entries past the new number keep what they held before. Refused, in this
// order, with the list unchanged: a pattern that is not what preparation gives for its own length, bytes and classes (4), a text that is longer
// than the longest (5), entries in use that are not strictly ascending or more than the list has (19), more entries then than the list has (20).
// The search makes test 4 itself: the pattern is checked once a call.
pub fn correct(
    pattern: Pattern,
    text: &[u8],
    place: usize,
    positions: &mut [u32],
    used: usize,
) -> Result<usize, Refusal>
    ensures answer { result ≡ answer_of pattern text.now place positions.old used }
    ensures list { positions.new ≡ list_of pattern text.now place positions.old used }
    ensures corrected { IfOk result (λ new. Corrected (word_of pattern) (text_of pattern text.now) place (take used positions.old) (take new positions.new)) }
    ensures rest { IfOk result (λ new. drop new positions.new ≡ drop new positions.old) }
    ensures classed { IfOk result (λ new. CoveredBy pattern.classes (own_bytes pattern) text.now place (take new positions.new)) }
    ensures full { IfOk result (λ new. StaysFull pattern text.now place (take used positions.old) (take new positions.new)) }
    ensures zeros { IfOk result (λ new. NoZeroNear (length (word_of pattern)) text.now place (take new positions.new)) }
    ensures plain { pattern.classes ≡ identity → (result ≡ plain_answer_of pattern text.now place positions.old used) × (positions.new ≡ plain_list_of pattern text.now place positions.old used) }
{
    let n = text.len();
    let in_order = lists::in_order(positions, used);
    if LONGEST_TEXT < n || !in_order || n <= place {
        return unsearched(pattern, n, in_order, used);
    }
    let Part { start, end, past } = windows::around(place, pattern.len, n);
    let mut found = [0u32; LONGEST_PATTERN];
    let report = search::colussi(pattern, &text[start..end], NO_CAP, &mut found)?;
    join(positions, used, &found[..report.written], start, past)
}
