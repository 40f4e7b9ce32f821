// The door of every search: the two tests that each of them makes first, in one place, one that some make after them, and the letters that they
// then compare.
#![tactic(auto)]

mod reading;

ghost use Rattle.std.specs.Prelude.{◌≡◌, true, ◌↔◌, ◌≤◌, IsOk};
ghost use Rattle.admission.specs.Admitted.{longest_text, judged, also_judged};

pub use reading::letters;
use refusal::Refusal;

// Document 01's longest record: 2^24 bytes.
pub const LONGEST_TEXT: usize = 16777216;

// Whether a pattern may be searched for in a text of n bytes, by whether `is_prepared` finds it prepared. Refused, in this order: a pattern that is
// not (4), a text of more than LONGEST_TEXT bytes (5).
#[tactic(auto, unfolding(crate::specs::Admitted::judged))]
pub fn admit(prepared: bool, n: usize) -> Result<(), Refusal>
    ensures answer { result ≡ judged prepared n }
    ensures meaning { IsOk result ↔ ((prepared ≡ true) × (n ≤ longest_text)) }
{
    if !prepared {
        return Err(Refusal::FalsePattern);
    }
    if LONGEST_TEXT < n {
        return Err(Refusal::LongText);
    }
    Ok(())
}

// One test more, of who is let in so far: the refusal of who does not pass it.
#[tactic(auto, unfolding(crate::specs::Admitted::also_judged))]
pub fn also(door: Result<(), Refusal>, passes: bool, why: Refusal) -> Result<(), Refusal>
    ensures answer { result ≡ also_judged door passes why }
{
    door?;
    if passes { Ok(()) } else { Err(why) }
}
