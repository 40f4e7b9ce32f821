// Preparation: a pattern is tested, built, and its cost told; and the scratch is left clear.
#![tactic(auto)]

ghost use Rattle.std.specs.Prelude.{◌≡◌, ◌↔◌, ◌≤◌, length, IfOk, IsOk};
ghost use Rattle.classes.specs.Classes.{identity};
ghost use Rattle.intake.specs.Sizes.{scratch_size};
ghost use Rattle.intake.specs.Outcomes.{Preparable, Usable};
ghost use Rattle.hmax.specs.FastMethod.{FewCompared};
ghost use Rattle.preparation.specs.Prepared.{prepared, plain_prepared, scratch_after, plain_scratch, Cleared};

pub use classes::CLASSES;
pub use intake::{LONGEST_PATTERN, SCRATCH};
pub use pattern::{Built, Pattern};
pub use refusal::Refusal;

// Prepares a pattern for search, whose bytes count as equal when their classes are; tells how many pairs of its letters were compared to build
// hmax. Refused, in this order: no byte (1), more than LONGEST_PATTERN bytes (2), a byte 0 among them (10), not CLASSES classes (14), a value
// other than 0 with the class of 0 (15), a scratch of fewer than SCRATCH numbers (3). On success the first SCRATCH numbers are 0 and the rest
// unchanged; on a refusal all are unchanged.
pub fn prepare(bytes: &[u8], classes: &[u8], scratch: &mut [u16]) -> Result<Built, Refusal>
    ensures answer { result ≡ prepared bytes.now classes.now (length scratch.old) }
    ensures scratched { scratch.new ≡ scratch_after bytes.now classes.now scratch.old }
    ensures taken { IsOk result ↔ (Preparable bytes.now × Usable classes.now × (scratch_size ≤ length scratch.old)) }
    ensures cleared { IsOk result → Cleared scratch.old scratch.new }
    ensures few { IfOk result (λ built. FewCompared (length bytes.now) built.compared) }
    ensures plain { classes.now ≡ identity → (result ≡ plain_prepared bytes.now (length scratch.old)) × (scratch.new ≡ plain_scratch bytes.now scratch.old) }
{
    intake::outcome_of(bytes, classes, scratch.len())?;
    let built = pattern::build(bytes, classes, scratch);
    scratch[..SCRATCH].fill(0);
    Ok(built)
}

// The same with a scratch of its own, which nobody needs cleared.
pub fn prepare_alone(bytes: &[u8], classes: &[u8]) -> Result<Built, Refusal>
    ensures answer { result ≡ prepared bytes.now classes.now scratch_size }
    ensures plain { classes.now ≡ identity → result ≡ plain_prepared bytes.now scratch_size }
{
    intake::outcome_of(bytes, classes, SCRATCH)?;
    let mut scratch = [0u16; SCRATCH];
    Ok(pattern::build(bytes, classes, &mut scratch))
}
