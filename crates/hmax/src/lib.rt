// hmax of a pattern by Colussi's Algorithm 7, and what it costs: how many pairs of letters are compared.
#![tactic(auto)]

mod steps;

ghost use Rattle.std.specs.Prelude.{◌≡◌, length};
ghost use Rattle.hmax.specs.FastMethod.{FewCompared};
ghost use Rattle.hmax.specs.Table.{table_after, compared_for};

// Entries are less than this.
const ENTRY_BOUND: usize = 65_536;

// Fills a table: hmax(k) goes to entry k, for k from 0, where it is m, to m, and the entries after them are unchanged. Answers how many pairs of
// letters were compared. Without a letter, with fewer than m + 1 entries, and where m is more than an entry can hold, the table is unchanged,
// and the answer is 0.
pub fn fill_hmax(bytes: &[u8], table: &mut [u16]) -> usize
    ensures filled { table.new ≡ table_after bytes.now table.old }
    ensures compared { result ≡ compared_for bytes.now (length table.old) }
    ensures few { FewCompared (length bytes.now) result }
{
    let m = bytes.len();
    if m < 1 {
        return 0;
    }
    if table.len() <= m {
        return 0;
    }
    if ENTRY_BOUND <= m {
        return 0;
    }
    steps::fill(bytes, table)
}
