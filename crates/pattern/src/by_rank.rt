// The tables by rank.
use super::sizes::RANKS;
use intake::LONGEST_PATTERN;

// The place of each rank; and the shift and the next rank of each, and of rank m.
#[derive(Clone, Copy)]
pub struct ByRank {
    pub order: [u8; LONGEST_PATTERN],
    pub shift: [u16; RANKS],
    pub next: [u16; RANKS],
}
