// A pattern read through its classes: the letters that every search compares.
ghost use Rattle.std.specs.Prelude.{◌≡◌, replicate};
ghost use Rattle.classes.specs.Classes.{letters_in};
ghost use Rattle.intake.specs.Sizes.{longest_pattern};
ghost use Rattle.pattern.specs.Letters.{own_bytes};

use classes::put_letters;
use pattern::{LONGEST_PATTERN, Pattern};

// The letters of a pattern, the class of each of its bytes, and zeros after them.
pub fn letters(pattern: &Pattern) -> [u8; LONGEST_PATTERN]
    ensures answer { result ≡ letters_in (own_bytes pattern.now) pattern.now.classes (replicate longest_pattern 0) }
{
    let bytes = &pattern.bytes[..pattern.len.min(LONGEST_PATTERN)];
    let mut letters = [0; LONGEST_PATTERN];
    put_letters(bytes, &pattern.classes, &mut letters);
    letters
}
