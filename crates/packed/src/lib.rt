// A packed batch of patterns: for each a length byte and its bytes. Document 02's request C-17.
#![tactic(auto)]

ghost use Rattle.std.specs.Prelude.{◌≡◌, ◌↔◌, IfSome};
ghost use Rattle.packed.specs.Packed.{counted, NotPacked, PackedFrom};

// How many patterns a packed batch has, or none where a length byte promises more bytes than remain.
pub fn count(packed: &[u8]) -> Option<usize>
    ensures answer { result ≡ counted packed.now }
    ensures meaning { IfSome result (PackedFrom packed.now) }
    ensures cut { (result ≡ None) ↔ NotPacked packed.now }
{
    let mut rest = packed;
    let mut number: usize = 0;
    while let Some((&len, tail)) = rest.split_first() {
        rest = tail.get(usize::from(len)..)?;
        number += 1;
    }
    Some(number)
}
