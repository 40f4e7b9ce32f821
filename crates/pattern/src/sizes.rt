// Sizes, each in one place; the definitions have them in specs/Sizes.

use intake::LONGEST_PATTERN;

// The entries of a table by rank, with one for rank m.
pub const RANKS: usize = LONGEST_PATTERN + 1;
// The scratch, document 01's bench, holds two tables of RANKS entries, and no more: hmax(k) at entry k, and kmin(p) at KMINS + p.
pub const KMINS: usize = RANKS;
