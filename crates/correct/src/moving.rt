// Entries moved within a list, and numbers put into it.
ghost use Rattle.std.specs.Prelude.{◌≡◌, ◌+◌, ◌≤◌, length, drop};
ghost use Rattle.std.proofs.Math.Seq.{paste};
ghost use Rattle.lists.specs.Lists.{moved};
ghost use Rattle.correct.specs.Internal.{Small};

// Moves so many entries from one place of a list to another. Entries that stay are not written.
#[tactic(auto, using(crate::proofs::Pasting::paste_same))]
pub fn slide(list: &mut [u32], from: usize, count: usize, to: usize)
    requires { (from + count ≤ length list.old) × (to + count ≤ length list.old) }
    ensures { list.new ≡ paste list.old to (drop from list.old) count }
{
    if to != from {
        list.copy_within(from..from + count, to);
    }
}

// Puts numbers, each moved by `start`, from a place of a list on.
pub fn put(list: &mut [u32], at: usize, numbers: &[u32], start: usize)
    requires { (at + length numbers.now ≤ length list.old) × Small start numbers.now }
    ensures { list.new ≡ paste list.old at (moved start numbers.now) (length numbers.now) }
{
    for (i, &number) in numbers.iter().enumerate() {
        list[at + i] = (start + number as usize) as u32;
    }
}
