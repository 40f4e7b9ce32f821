// Classes of bytes, document 02's sector chart (C-19), which gives a byte value its class: two bytes count as equal when their classes are.
#![tactic(auto)]

ghost use Rattle.std.specs.Prelude.{◌≡◌, length};
ghost use Rattle.classes.specs.Classes.{identity, identity_in, letters_in};

// How many classes are lent: one for each byte value.
pub const CLASSES: usize = 256;

// Puts the letters of bytes, the class of each, at the start of a list, which needs room for all of them. The rest of it is unchanged. A list
// that is too short is unchanged, and so is one beside other than CLASSES classes.
#[tactic(auto, using(crate::proofs::Letters::no_room, crate::proofs::Letters::not_256))]
pub fn put_letters(bytes: &[u8], classes: &[u8], letters: &mut [u8])
    ensures put { letters.new ≡ letters_in bytes.now classes.now letters.old }
{
    if letters.len() < bytes.len() {
        return;
    }
    if classes.len() != CLASSES {
        return;
    }
    for (i, &byte) in bytes.iter().enumerate() {
        letters[i] = classes[usize::from(byte)];
    }
}

// Each entry becomes the value that it is the class of. Past the last value they begin again.
#[tactic(auto, using(crate::proofs::Identity::filled))]
pub fn fill_identity(classes: &mut [u8])
    ensures filled { classes.new ≡ identity_in (length classes.old) }
{
    for (v, class) in classes.iter_mut().enumerate() {
        *class = (v % CLASSES) as u8;
    }
}

// The classes that give each value itself: with them equal bytes are equal, and no others.
#[tactic(auto, unfolding(crate::specs::Classes::identity))]
pub fn identity_classes() -> [u8; CLASSES]
    ensures answer { result ≡ identity }
{
    let mut classes = [0u8; CLASSES];
    fill_identity(&mut classes);
    classes
}
