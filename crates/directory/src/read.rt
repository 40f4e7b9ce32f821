// Reads the numbers, the closing bytes and the entries of an archive.
ghost use Rattle.std.specs.Prelude.{◌≡◌, ◌+◌, ◌*◌, ◌^◌, ◌≤◌, ◌<◌, length};
ghost use Rattle.directory.specs.Archive.{entry_size, number_at, closes, touch};

// The bytes of the trailer.
pub const TRAILER: usize = 12;

// The bytes of a record's entry in the directory.
pub const ENTRY: usize = 8;

// The number of the four bytes from a place on, the lowest first.
#[tactic(auto, unfolding(crate::specs::Archive::number_at))]
pub fn number_at(archive: &[u8], at: usize) -> usize
    requires { at + 4 ≤ length archive.now }
    ensures { (result ≡ number_at archive.now at) × (result < 2 ^ 32) }
{
    let bytes = &archive[at..];
    u32::from_le_bytes([bytes[0], bytes[1], bytes[2], bytes[3]]) as usize
}

// Whether the last four bytes are those that close an archive.
#[tactic(auto, using(crate::proofs::Reading::closes_told))]
pub fn closes(archive: &[u8]) -> bool
    requires { 4 ≤ length archive.now }
    ensures { result ≡ closes archive.now }
{
    archive.ends_with(b"REEL")
}

// Whether each record of a directory starts where the one before it ends, and the last ends at the directory.
#[tactic(auto, using(crate::proofs::Touching::walking), unfolding(crate::specs::Archive::end_before, crate::specs::Archive::start_of))]
pub fn touch(archive: &[u8], start: usize, records: usize) -> bool
    requires { (start + entry_size * records ≤ length archive.now) × (length archive.now < 2 ^ 32) }
    ensures { result ≡ touch archive.now start records }
{
    let mut end: usize = 0;
    for r in 0..records {
        let at = start + ENTRY * r;
        if number_at(archive, at) != end {
            return false;
        }
        end += number_at(archive, at + 4);
    }
    end == start
}
