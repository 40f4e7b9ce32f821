// Which bytes preparation takes: its tests, in one place below it.
#![tactic(auto)]

ghost use Rattle.std.specs.Prelude.{◌≡◌, false, ◌↔◌, ◌≤◌, IsOk};
ghost use Rattle.words.specs.Holds.{holds, Lacks};
ghost use Rattle.intake.specs.Sizes.{scratch_size};
ghost use Rattle.intake.specs.Outcomes.{outcome_of, Preparable, Usable};

use classes::CLASSES;
use refusal::Refusal;

// The longest pattern, in bytes.
pub const LONGEST_PATTERN: usize = 256;
// The least scratch, document 01's bench, in 16-bit numbers, as document 02 (C-18) has it: room for two tables of LONGEST_PATTERN + 1.
pub const SCRATCH: usize = 514;

// Whether z is one of the bytes. The loop runs on past it, so that many bytes are looked at at once.
pub fn holds(z: u8, bytes: &[u8]) -> bool
    ensures test { result ≡ holds z bytes.now }
    ensures meaning { (result ≡ false) ↔ Lacks z bytes.now }
{
    let mut found = false;
    for &byte in bytes {
        found |= byte == z;
    }
    found
}

// Whether bytes may be prepared, with those classes and a scratch of so many numbers. Refused, in this order: no byte (1), more than
// LONGEST_PATTERN bytes (2), a byte 0 among them (10), not CLASSES classes (14), a value other than 0 with the class of 0 (15), a scratch of
// fewer than SCRATCH numbers (3).
#[tactic(auto, unfolding(crate::specs::Outcomes::outcome_of, crate::specs::Outcomes::bytes_tested, crate::specs::Outcomes::classes_tested, crate::specs::Outcomes::scratch_tested))]
pub fn outcome_of(bytes: &[u8], classes: &[u8], numbers: usize) -> Result<(), Refusal>
    ensures answer { result ≡ outcome_of bytes.now classes.now numbers }
    ensures meaning { IsOk result ↔ (Preparable bytes.now × Usable classes.now × (scratch_size ≤ numbers)) }
{
    if bytes.len() == 0 {
        return Err(Refusal::NoPattern);
    }
    if LONGEST_PATTERN < bytes.len() {
        return Err(Refusal::LongPattern);
    }
    if holds(0, bytes) {
        return Err(Refusal::ZeroInPattern);
    }
    if classes.len() != CLASSES {
        return Err(Refusal::ClassesNot256);
    }
    if holds(classes[0], &classes[1..]) {
        return Err(Refusal::ZeroClassShared);
    }
    if numbers < SCRATCH {
        return Err(Refusal::ShortScratch);
    }
    Ok(())
}
