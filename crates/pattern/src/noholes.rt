// The first ranks: the noholes ascending, each with its shift and its next rank; and their marks, 64 to a word.
ghost use Rattle.std.specs.Prelude.{◌≡◌, ◌+◌, ◌≤◌, length};
ghost use Rattle.words.specs.Numbers.{tabulate};
ghost use Rattle.pattern.specs.Marks.{mark_word};
ghost use Rattle.pattern.specs.Internal.Ranked.{ListsNoholes, ListsWord, Askable, Asks};

use super::by_rank::ByRank;
use super::counted::Counted;
use super::tables::Tables;
use intake::LONGEST_PATTERN;
use ones::{BITS, WORDS};

// How many noholes there are so far, and the ranks of theirs that are listed for later, `many` of them.
#[derive(Clone, Copy)]
pub struct Listed {
    pub noholes: usize,
    pub later: [u8; LONGEST_PATTERN],
    pub many: usize,
}

// Writes the noholes among the places of a word, which begins at the place from, and their shifts; marks them; and lists for later the ranks
// whose next is not 0. No nohole lies below hmax(1), so nothing is looked at before, and the next of a nohole p is 0 where p - kmin(p) is at
// most that. Which places are noholes cannot be foretold: each place is written at the rank that is free, and the next place writes over it
// unless the rank was taken.
pub fn list_word(tables: &Tables, from: usize, listed: &mut Listed, ranks: &mut ByRank) -> u64
    requires from_bound { (from ≤ 192)
        × ListsNoholes tables.now.letters.now ranks.old.order ranks.old.shift listed.old.later from listed.old.noholes listed.old.many }
    ensures word { ListsWord
        tables.now.letters.now ranks.new.order ranks.new.shift listed.new.later from (from + 64) result listed.new.noholes listed.new.many }
    ensures next { ranks.new.next ≡ ranks.old.next }
{
    let m = tables.len();
    let first = tables.hmax(1);
    let mut i = listed.noholes;
    let mut t = listed.many;
    let mut word: u64 = 0;
    for p in first.max(from)..m.min(from + BITS) {
        let k = tables.kmin(p);
        ranks.order[i] = p as u8;
        ranks.shift[i] = k as u16;
        listed.later[t] = i as u8;
        let nohole = k <= m;
        word += u64::from(nohole) << (p - from);
        i += usize::from(nohole);
        t += usize::from(first + k < p);
    }
    listed.noholes = i;
    listed.many = t;
    word
}

// The same for all words, whose marks it answers.
pub fn list_noholes(tables: &Tables, listed: &mut Listed, ranks: &mut ByRank) -> [u64; WORDS]
    requires none { ListsNoholes tables.now.letters.now ranks.old.order ranks.old.shift listed.old.later 0 listed.old.noholes listed.old.many }
    ensures marks { result ≡ tabulate 4 (mark_word tables.now.letters.now) }
    ensures all { ListsNoholes
        tables.now.letters.now ranks.new.order ranks.new.shift listed.new.later (length tables.now.letters.now) listed.new.noholes listed.new.many }
    ensures next { ranks.new.next ≡ ranks.old.next }
{
    let mut marks = [0; WORDS];
    for (i, word) in marks.iter_mut().enumerate() {
        *word = list_word(tables, i * BITS, listed, ranks);
    }
    marks
}

// Writes the next of each rank that is listed: below(p - s), p its place and s its shift.
pub fn next_noholes(marks: &Counted, later: &[u8], ranks: &mut ByRank)
    requires askable { Askable ranks.old.order ranks.old.shift later.now (length later.now) }
    ensures asks { Asks marks.now.marks.now ranks.old.order ranks.old.shift later.now (length later.now) ranks.old.next ranks.new.next }
    ensures others { (ranks.new.order ≡ ranks.old.order) × (ranks.new.shift ≡ ranks.old.shift) }
{
    for &rank in later {
        let i = usize::from(rank);
        let p = usize::from(ranks.order[i]);
        ranks.next[i] = marks.below(p - usize::from(ranks.shift[i])) as u16;
    }
}
