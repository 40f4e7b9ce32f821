// Whether a pattern occurs in a text at all, and where first: the search in Colussi's order, stopped at its first occurrence.
#![tactic(auto)]

ghost use Rattle.std.specs.Prelude.{◌≡◌, length, IfOk};
ghost use Rattle.classes.specs.Classes.{identity};
ghost use Rattle.pattern.specs.Letters.{own_bytes, word_of, text_of};
ghost use Rattle.first.specs.Answer.{first_at, first_by, plain_first_by};
ghost use Rattle.first.specs.Promise.{FirstOfFull, FirstInBytes, FirstUnderCeiling, FirstCoversNoZero};

use pattern::Pattern;
use refusal::Refusal;
use rules::Ending;

// The first position, or none, and the count.
#[derive(Clone, Copy)]
pub struct FirstAnswer {
    pub position: Option<usize>,
    pub count: u64,
}

// What a search up to the first occurrence comes to, by how it ended: cut off at that occurrence, or run to its end.
fn first_at(ending: Ending, count: u64) -> FirstAnswer
    ensures { result ≡ first_at ending count }
{
    let position = match ending {
        Ending::Done => None,
        Ending::Spent(b) | Ending::Full(b) => Some(b),
    };
    FirstAnswer { position, count }
}

// Searches a text in Colussi's order, without a cap, up to the first position where the pattern occurs. Refused as every search is: a pattern
// that is not what preparation gives for its own length, bytes and classes (4), then a text that is longer than the longest (5).
pub fn find_first(pattern: Pattern, text: &[u8]) -> Result<FirstAnswer, Refusal>
    ensures answer { result ≡ first_by pattern text.now }
    ensures full { IfOk result (FirstOfFull (word_of pattern) (text_of pattern text.now)) }
    ensures classed { IfOk result (FirstInBytes pattern.classes (own_bytes pattern) text.now) }
    ensures ceiling { IfOk result (FirstUnderCeiling (length (word_of pattern)) (length text.now)) }
    ensures zeros { IfOk result (FirstCoversNoZero (length (word_of pattern)) text.now) }
    ensures plain { pattern.classes ≡ identity → result ≡ plain_first_by pattern text.now }
{
    let stop = search::upto_first(pattern, text)?;
    Ok(first_at(stop.ending, stop.count))
}
