// How much of a pattern begins at each position of a text: document 02's request C-14.
#![tactic(auto)]

mod scan;
mod steps;

ghost use Rattle.std.specs.Prelude.{◌≡◌, ◌≤◌, length, IfOk};
ghost use Rattle.admission.specs.Admitted.{IsAdmitted};
ghost use Rattle.classes.specs.Classes.{identity};
ghost use Rattle.pattern.specs.Letters.{own_bytes, word_of, text_of};
ghost use Rattle.prefixes.specs.Longest.{lengths_in};
ghost use Rattle.prefixes.specs.CarriedOn.{comparisons};
ghost use Rattle.prefixes.specs.Promise.{FewFor, AsKmp};
ghost use Rattle.rules.specs.Occurs.{occurrences};
ghost use Rattle.lengths.specs.Answer.{answer_of, list_of, plain_answer_of, plain_list_of};
ghost use Rattle.lengths.specs.Promise.{EachLongest, WholeWhere};

use admission::{admit, also, letters};
use hmax::fill_hmax;
use pattern::{Pattern, RANKS};
use refusal::Refusal;
use scan::Prefixes;
use steps::Text;

// The scan for a pattern's letters in those of a text, with their table of hmax.
#[tactic(auto, using(crate::proofs::Lent::short_enough))]
fn scan_for(pattern: &Pattern, text: &[u8], lengths: &mut [u16]) -> u64
    requires admitted { IsAdmitted pattern.now (length text.now) }
    requires room { length text.now ≤ length lengths.old }
    ensures value { result ≡ comparisons (word_of pattern.now) (text_of pattern.now text.now) }
    ensures lengths_after { lengths.new ≡ lengths_in (word_of pattern.now) (text_of pattern.now text.now) lengths.old }
{
    let letters = &letters(pattern)[..pattern.len];
    let mut table = [0u16; RANKS];
    fill_hmax(letters, &mut table);
    let text = Text {
        classes: &pattern.classes,
        bytes: text,
    };
    let prefixes = Prefixes {
        letters,
        hmax: &table,
    };
    prefixes.scan(text, lengths)
}

// Writes into entry x of a list, for each position x of a text, the length of the longest prefix of the pattern that begins there. The entries past
// the text's length are unchanged. Answers the comparisons of a pattern byte with a text byte: those of `kmp`, carried on to the text's end. Refused,
// in this order, with the list unchanged: a pattern that is not what preparation gives for its own length, bytes and classes (4), a text that is
// longer than the longest (5), a list with fewer entries than the text has bytes (11).
pub fn prefix_lengths(pattern: Pattern, text: &[u8], lengths: &mut [u16]) -> Result<u64, Refusal>
    ensures answer { result ≡ answer_of pattern text.now (length lengths.old) }
    ensures list { lengths.new ≡ list_of pattern text.now lengths.old }
    ensures longest { IfOk result (λ count. EachLongest pattern.classes (own_bytes pattern) text.now lengths.new) }
    ensures whole { IfOk result (λ count. WholeWhere pattern.classes (own_bytes pattern) text.now (occurrences (word_of pattern) (text_of pattern text.now)) lengths.new) }
    ensures ceiling { IfOk result (FewFor (length text.now)) }
    ensures kmp { IfOk result (λ count. AsKmp (word_of pattern) (text_of pattern text.now)) }
    ensures plain { pattern.classes ≡ identity → (result ≡ plain_answer_of pattern text.now (length lengths.old)) × (lengths.new ≡ plain_list_of pattern text.now lengths.old) }
{
    also(
        admit(checked::is_prepared(pattern), text.len()),
        text.len() <= lengths.len(),
        Refusal::ShortLengths,
    )?;
    Ok(scan_for(&pattern, text, lengths))
}
