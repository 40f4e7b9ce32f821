// A pattern and its tables, which document 01 calls a card; and how it is built.
#![tactic(auto)]

mod by_rank;
mod counted;
mod holes;
mod kmin;
mod noholes;
mod sizes;
mod tables;
mod whole;

ghost use Rattle.std.specs.Prelude.{◌≡◌, length};
ghost use Rattle.pattern.specs.Built.{zero_pattern, unbuilt, built_from, scratch_with};

pub use classes::CLASSES;
pub use intake::{LONGEST_PATTERN, SCRATCH};
use ones::WORDS;
pub use sizes::RANKS;

// Document 01's card: the pattern, its classes and its tables. The entries past those defined are 0.
#[repr(C)]
#[derive(Clone, Copy)]
pub struct Pattern {
    // m, from 1 to 256
    pub len: usize,
    // d
    pub noholes: usize,
    // m bytes
    pub bytes: [u8; LONGEST_PATTERN],
    // of each byte value
    pub classes: [u8; CLASSES],
    // the place of each rank: m entries
    pub order: [u8; LONGEST_PATTERN],
    // of each rank, and of rank m: m + 1 entries each
    pub shift: [u16; RANKS],
    pub next: [u16; RANKS],
    // the nohole marks: place p at bit p mod 64 of word p div 64
    pub marks: [u64; WORDS],
}

// A pattern, and how many pairs of its letters were compared to build hmax. With the pattern first it is copied and checked fastest.
#[derive(Clone, Copy)]
pub struct Built {
    pub pattern: Pattern,
    pub compared: usize,
}

// The value that stands where there is no pattern.
#[tactic(auto, unfolding(crate::specs::Built::zero_pattern))]
pub fn zero_pattern() -> Pattern
    ensures answer { result ≡ zero_pattern }
{
    Pattern {
        len: 0,
        noholes: 0,
        bytes: [0; LONGEST_PATTERN],
        classes: [0; CLASSES],
        order: [0; LONGEST_PATTERN],
        shift: [0; RANKS],
        next: [0; RANKS],
        marks: [0; WORDS],
    }
}

#[tactic(auto, unfolding(crate::specs::Built::unbuilt))]
fn not_built() -> Built
    ensures { result ≡ unbuilt }
{
    Built {
        pattern: zero_pattern(),
        compared: 0,
    }
}

// Builds the pattern of 1 to LONGEST_PATTERN bytes through CLASSES classes in a scratch of at least SCRATCH numbers. The scratch then holds two
// of its tables, and is unchanged elsewhere. With other lengths no pattern is built, and the scratch is unchanged.
pub fn build(bytes: &[u8], classes: &[u8], scratch: &mut [u16]) -> Built
    ensures answer { result ≡ built_from bytes.now classes.now (length scratch.old) }
    ensures scratched { scratch.new ≡ scratch_with bytes.now classes.now scratch.old }
{
    if bytes.is_empty()
        || LONGEST_PATTERN < bytes.len()
        || classes.len() != CLASSES
        || scratch.len() < SCRATCH
    {
        return not_built();
    }
    whole::whole(bytes, classes, scratch)
}
