// What C and Rust may call to correct a list. As in `poqewan`, the function has no precondition. It is a library of its own: compiled apart, the
// search stands in one function for C in each library, and those of `poqewan` are compiled as they were.
#![tactic(auto)]

ghost use Rattle.std.specs.Prelude.{◌≡◌, length, take, drop};
ghost use Rattle.carried.specs.Carried.{carried_update};
ghost use Rattle.classes.specs.Classes.{identity};
ghost use Rattle.correct.specs.Answer.{answer_of, list_of, plain_answer_of, plain_list_of};
ghost use Rattle.correct.specs.Promise.{CoveredBy, StaysFull, NoZeroNear};
ghost use Rattle.pattern.specs.Letters.{own_bytes, word_of, text_of};
ghost use Rattle.update.specs.Promise.{Corrected};

use carried::Update;
use pattern::Pattern;

// Brings the first `used` entries of a list of positions up to date after the byte at a place of the text was corrected, by a search of the windows
// that cover the place; every other entry is kept, right or wrong, and those past the new number keep what they held before. Refused, in this
// order, with the list unchanged: a pattern that is not what preparation gives for its own length, bytes and classes (4), a text that is longer
// than the longest (5), entries in use that are not strictly ascending or more than the list has (19), more entries then than the list has (20).
#[unsafe(no_mangle)]
pub extern "C" fn poqewan_correct(
    pattern: Pattern,
    text: &[u8],
    place: usize,
    positions: &mut [u32],
    used: usize,
) -> Update
    ensures answer { result ≡ carried_update (answer_of pattern text.now place positions.old used) }
    ensures list { positions.new ≡ list_of pattern text.now place positions.old used }
    ensures corrected { result.refusal ≡ 0 → Corrected (word_of pattern) (text_of pattern text.now) place (take used positions.old) (take result.used positions.new) }
    ensures rest { result.refusal ≡ 0 → drop result.used positions.new ≡ drop result.used positions.old }
    ensures classed { result.refusal ≡ 0 → CoveredBy pattern.classes (own_bytes pattern) text.now place (take result.used positions.new) }
    ensures full { result.refusal ≡ 0 → StaysFull pattern text.now place (take used positions.old) (take result.used positions.new) }
    ensures zeros { result.refusal ≡ 0 → NoZeroNear (length (word_of pattern)) text.now place (take result.used positions.new) }
    ensures plain { pattern.classes ≡ identity → (result ≡ carried_update (plain_answer_of pattern text.now place positions.old used)) × (positions.new ≡ plain_list_of pattern text.now place positions.old used) }
{
    Update::from(correct::correct(pattern, text, place, positions, used))
}
