// The test behind refusal 4: a pattern's own bytes are prepared again through its own classes, and all other fields are compared.
#![tactic(auto)]

ghost use Rattle.std.specs.Prelude.{◌≡◌, true, ◌↔◌, length, take};
ghost use lib.Pointwise.{pointwise};
ghost use Rattle.classes.specs.Classes.{identity};
ghost use Rattle.intake.specs.Sizes.{scratch_size};
ghost use Rattle.preparation.specs.Prepared.{prepared};
ghost use Rattle.checked.specs.Check.{same_tables, is_prepared, IsPrepared, PlainIsPrepared};

use pattern::Pattern;
use preparation::{Built, Refusal, prepare_alone};

// What preparation answers to the first len bytes and the classes.
fn prepared_again(bytes: &[u8], classes: &[u8], len: usize) -> Result<Built, Refusal>
    ensures { result ≡ prepared (take len bytes.now) classes.now scratch_size }
{
    let taken = len.min(bytes.len());
    prepare_alone(&bytes[..taken], classes)
}

// Whether two lists of one length are the same. The loop runs on past a difference, so that many entries are compared at once.
fn alike<T: PartialEq>(a: &[T], b: &[T]) -> bool
    requires { length a.now ≡ length b.now }
    ensures { result ≡ pointwise T.eq a.now b.now }
{
    let mut same = true;
    for (i, x) in a.iter().enumerate() {
        same &= *x == b[i];
    }
    same
}

// Whether no field but the classes differs: a pattern prepared again has those that it was lent.
fn same_tables(a: &Pattern, b: &Pattern) -> bool
    ensures { result ≡ same_tables a.now b.now }
{
    (a.len == b.len)
        & (a.noholes == b.noholes)
        & alike(&a.bytes, &b.bytes)
        & alike(&a.order, &b.order)
        & alike(&a.shift, &b.shift)
        & alike(&a.next, &b.next)
        & alike(&a.marks, &b.marks)
}

// Whether a pattern, whatever it holds, is what preparation gives for its own length, bytes and classes.
pub fn is_prepared(pattern: Pattern) -> bool
    ensures test { result ≡ is_prepared pattern }
    ensures meaning { (result ≡ true) ↔ IsPrepared pattern }
    ensures plain { pattern.classes ≡ identity → ((result ≡ true) ↔ PlainIsPrepared pattern) }
{
    match prepared_again(&pattern.bytes, &pattern.classes, pattern.len) {
        Ok(own) => same_tables(&pattern, &own.pattern),
        Err(_) => false,
    }
}
