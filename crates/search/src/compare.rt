// A letter of a pattern compared with a text's, which is mapped as it is compared. Every comparison that a search counts is made here.
ghost use Rattle.std.specs.Prelude.{◌<◌, length};
ghost use Rattle.words.specs.Tables.{letter};
ghost use Rattle.classes.specs.Classes.{through};
ghost use Rattle.search.specs.Internal.Letters.{Agrees};

use classes::CLASSES;

// A text, and the classes that its bytes are read through.
#[derive(Clone, Copy)]
pub struct Text<'a> {
    pub classes: &'a [u8; CLASSES],
    pub bytes: &'a [u8],
}

impl<'a> Text<'a> {
    // Whether x is the letter at a place.
    pub fn agrees(self, x: u8, place: usize) -> bool
        requires { place < length self.bytes.now }
        ensures { Agrees x (letter (through self.entry.classes.now self.entry.bytes.now) place) result }
    {
        let byte = self.bytes[place];
        let classes = self.classes; // of a known length
        let class = classes[usize::from(byte)];
        x == class
    }
}
