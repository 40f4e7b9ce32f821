// Custom orders of comparison, document 02's request C-20: which there are, and how far a search in one shifts.
#![tactic(auto)]

mod distances;

ghost use Rattle.std.specs.Prelude.{◌≡◌, true, ◌↔◌};
ghost use Rattle.custom.specs.Order.{Arrangement, arranged};
ghost use Rattle.custom.specs.Table.{shifts_after};

use distances::Ranks;

// How many places a byte can name.
const NAMED_PLACES: usize = 256;

// Whether an order is an arrangement of m places: m entries, each a place below m, and no two the same.
pub fn is_arrangement(order: &[u8], m: usize) -> bool
    ensures answer { result ≡ arranged m order.now }
    ensures meaning { (result ≡ true) ↔ Arrangement m order.now }
{
    if order.len() != m {
        return false;
    }
    let mut seen = [false; NAMED_PLACES];
    for &place in order {
        let place = usize::from(place);
        if m <= place || seen[place] {
            return false;
        }
        seen[place] = true;
    }
    true
}

// Puts the shift of each rank, from 0 to m, at the start of a table, for letters and a custom order of their places. The entries after them are
// unchanged. Without a letter, with more letters than a byte can name places, with fewer than m + 1 entries, and beside an order that is not an
// arrangement of the places, the table is unchanged.
#[tactic(auto, using(crate::proofs::Filling::table_cases))]
pub fn fill_shifts(letters: &[u8], order: &[u8], shifts: &mut [u16])
    ensures filled { shifts.new ≡ shifts_after letters.now order.now shifts.old }
{
    let m = letters.len();
    if m < 1 {
        return;
    }
    if NAMED_PLACES < m {
        return;
    }
    if shifts.len() <= m {
        return;
    }
    if !is_arrangement(order, m) {
        return;
    }
    let mut passed = [0u16; NAMED_PLACES];
    Ranks { letters, order }.fill(&mut passed, shifts);
}
