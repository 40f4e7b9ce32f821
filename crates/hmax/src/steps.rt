// The steps of Algorithm 7. The pattern has no sentinel: its length ends the loop that would look at it.
ghost use Rattle.std.specs.Prelude.{◌≡◌, ◌+◌, ◌≤◌, ◌<◌, length};
ghost use Rattle.words.specs.Tables.{hmax};
ghost use Rattle.hmax.specs.Table.{HasHmax};
ghost use Rattle.hmax.specs.Internal.Steps.{Room, Derives, BeginsAt, Compares, FillsRest, Fills};

// hmax(k), from a place that is not past it. Preparation compares letters here alone.
#[tactic(auto, using(crate::proofs::Hmaxes::ends_where_differ, crate::proofs::Hmaxes::leads_on, crate::proofs::Hmaxes::hmax_upto))]
fn extend(bytes: &[u8], k: usize, from: usize) -> usize
    requires { (1 ≤ k) × (k ≤ from) × (k ≤ length bytes.now) × (from ≤ hmax bytes.now k) }
    ensures { result ≡ hmax bytes.now k }
{
    let mut i = from;
    while i < bytes.len() && bytes[i] == bytes[i - k] {
        i += 1;
    }
    i
}

// The entries after k that those before them give, where i is the entry of k; answers the first that they do not give. It is i + 1 at the
// latest.
#[tactic(auto, using(crate::proofs::Deriving::deriving_end))]
fn derive(bytes: &[u8], table: &mut [u16], k: usize, i: usize) -> usize
    requires room { Room bytes.now table.old }
    requires has_hmax { HasHmax bytes.now table.old (k + 1) }
    requires le_k { (1 ≤ k) × (k ≤ length bytes.now) × (i ≡ hmax bytes.now k) }
    ensures { Derives bytes.now table.old table.new k result }
{
    let mut q = k + 1;
    let mut v = usize::from(table[1]) + k;
    while v < i {
        table[q] = v as u16;
        q += 1;
        v = usize::from(table[q - k]) + k;
    }
    q
}

// Where a turn begins, and how many so far began where the turn before had ended.
#[derive(Clone, Copy)]
pub struct Turn {
    pub from: usize,
    pub again: usize,
}

// The turn of k, after one that ended at i: it begins there again, unless k lies past it.
fn begin(k: usize, i: usize, again: usize) -> Turn
    requires { again < k }
    ensures { BeginsAt k i again result.from result.again }
{
    if i < k {
        Turn { from: k, again }
    } else {
        Turn {
            from: i,
            again: again + 1,
        }
    }
}

// The first k whose entry is m, and how many pairs of letters were compared to find it.
#[derive(Clone, Copy)]
pub struct Found {
    pub k: usize,
    pub compared: usize,
}

// The turns that end with letters that differ, up to the first k whose entry is m; after it no letters are compared. No comparison is counted as
// it is made: letters that agree bring i up by 1; letters that differ do so too, or the next turn begins with them again.
fn fill_compared(bytes: &[u8], table: &mut [u16]) -> Found
    requires room { Room bytes.now table.old }
    requires has_hmax { HasHmax bytes.now table.old 1 }
    ensures { Compares bytes.now table.old table.new result.k result.compared }
{
    let mut k: usize = 1;
    let mut again: usize = 0;
    let mut i = extend(bytes, 1, 1);
    while i < bytes.len() {
        table[k] = i as u16;
        k = derive(bytes, table, k, i);
        let turn = begin(k, i, again);
        again = turn.again;
        i = extend(bytes, k, turn.from);
    }
    Found {
        k,
        compared: i - 1 + again,
    }
}

// The entries from k on, where that of k is m: each is m, or derived.
fn fill_rest(bytes: &[u8], table: &mut [u16], from: usize)
    requires room { Room bytes.now table.old }
    requires has_hmax { HasHmax bytes.now table.old from }
    requires le_from { (1 ≤ from) × (from ≤ length bytes.now) × (hmax bytes.now from ≡ length bytes.now) }
    ensures { FillsRest bytes.now table.old table.new }
{
    let m = bytes.len();
    let mut k = from;
    while k <= m {
        table[k] = m as u16;
        k = derive(bytes, table, k, m);
    }
}

// All of hmax; answers how many pairs of letters were compared.
pub fn fill(bytes: &[u8], table: &mut [u16]) -> usize
    requires { Room bytes.now table.old }
    ensures { Fills bytes.now table.old table.new result }
{
    table[0] = bytes.len() as u16;
    let found = fill_compared(bytes, table);
    fill_rest(bytes, table, found.k);
    found.compared
}
