// The program's input: its parts, and the tests that the program makes first, in one place.
#![tactic(auto)]

ghost use Rattle.std.specs.Prelude.{◌≡◌, IfOk};
ghost use Rattle.input.specs.Parsed.{parsed, Accepted};

use refusal::Refusal;

// The longest text, in bytes.
pub const LONGEST_TEXT: usize = 60000;

// The length of the pattern of an input that is accepted: a length byte, so many pattern bytes, and the text to the end. Refused, in this order: a
// length of 0, or no input (1), fewer bytes than the length says (6), a byte 0 among those (10), a text of more than LONGEST_TEXT bytes (5).
#[tactic(auto, using(crate::proofs::Cut::pattern_cut_lem), unfolding(crate::specs::Parsed::parsed))]
pub fn parse(input: &[u8]) -> Result<usize, Refusal>
    ensures answer { result ≡ parsed input.now }
    ensures meaning { IfOk result (Accepted input.now) }
{
    if input.is_empty() {
        return Err(Refusal::NoPattern);
    }
    let len = usize::from(input[0]);
    if len == 0 {
        return Err(Refusal::NoPattern);
    }
    let end = 1 + len;
    if input.len() < end {
        return Err(Refusal::ShortInput);
    }
    if intake::holds(0, &input[1..end]) {
        return Err(Refusal::ZeroInPattern);
    }
    if LONGEST_TEXT < input.len() - end {
        return Err(Refusal::LongText);
    }
    Ok(len)
}
