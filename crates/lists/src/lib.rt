// Lists of positions that ascend: the test of the entries in use. What is a law of such lists stands in proofs/.
#![tactic(auto)]

ghost use Rattle.std.specs.Prelude.{◌≡◌, true, ◌↔◌, ◌≤◌, length, take};
ghost use Rattle.lists.specs.Lists.{in_order, Ascending};

// Whether a list has so many entries as are in use, and these are strictly ascending.
pub fn in_order(list: &[u32], used: usize) -> bool
    ensures answer { result ≡ in_order list.now used }
    ensures meaning { (result ≡ true) ↔ ((used ≤ length list.now) × Ascending (take used list.now)) }
{
    if list.len() < used {
        return false;
    }
    // No way out before the end: so a compiler takes several entries at a time.
    let mut rises = true;
    for i in 1..used {
        rises &= list[i - 1] < list[i];
    }
    rises
}
