// The other ranks: the holes descending, each with its shift and its next rank, and the rank m.
ghost use Rattle.std.specs.Prelude.{◌≡◌, ◌+◌, ◌≤◌, length};
ghost use Rattle.words.specs.Numbers.{tabulate};
ghost use Rattle.words.specs.Tables.{noholes};
ghost use Rattle.pattern.specs.Marks.{mark_word};
ghost use Rattle.pattern.specs.Internal.Ranked.{Ranked, RankedAll, Leaves};

use super::by_rank::ByRank;
use super::counted::Counted;
use super::tables::Tables;

// What a place leaves with if it is a hole: its shift, and its next rank.
#[derive(Clone, Copy)]
pub struct Leaving {
    pub shift: usize,
    pub next: usize,
}

// From what the place p + 1 leaves with to what the place p does: the shift is p + 1 where that is a period. No nohole lies below hmax(1), so up
// to there nothing is counted.
pub fn leaving_at(tables: &Tables, marks: &Counted, p: usize, above: Leaving) -> Leaving
    requires marks { marks.now.marks.now ≡ tabulate 4 (mark_word tables.now.letters.now) }
    requires above { (p + 1 ≤ length tables.now.letters.now) × Leaves tables.now.letters.now (p + 1) above.shift above.next }
    ensures { Leaves tables.now.letters.now p result.shift result.next }
{
    let m = tables.len();
    let shift = p + 1;
    if tables.hmax(shift) < m {
        return above;
    }
    let rest = m - shift;
    let next = if rest <= tables.hmax(1) {
        0
    } else {
        marks.below(rest)
    };
    Leaving { shift, next }
}

// Writes the holes, their shifts and their next ranks after the noholes, and those of rank m. As with the noholes, each place is written
// at the rank that is free.
pub fn list_holes(tables: &Tables, marks: &Counted, d: usize, ranks: &mut ByRank)
    requires marks { marks.now.marks.now ≡ tabulate 4 (mark_word tables.now.letters.now) }
    requires d_value { (d ≡ noholes tables.now.letters.now) × Ranked tables.now.letters.now ranks.old.order ranks.old.shift ranks.old.next d }
    ensures { RankedAll tables.now.letters.now ranks.new.order ranks.new.shift ranks.new.next }
{
    let m = tables.len();
    let mut i = d;
    let mut at = Leaving { shift: m, next: 0 };
    for p in (0..m).rev() {
        at = leaving_at(tables, marks, p, at);
        ranks.order[i] = p as u8;
        ranks.shift[i] = at.shift as u16;
        ranks.next[i] = at.next as u16;
        i += usize::from(m < tables.kmin(p));
    }
    ranks.shift[m] = at.shift as u16;
    ranks.next[m] = at.next as u16;
}
