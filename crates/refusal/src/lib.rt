// The refusals of document 01, "Turned away", and those that document 02 adds: a variant for each row of the table, by its number there, with the
// trade's word for it.
#![tactic(auto)]

ghost use Rattle.std.specs.Prelude.{◌≡◌};
ghost use Rattle.refusal.specs.Numbers.{number_of};

#[derive(Clone, Copy, Debug, PartialEq, Eq)]
pub enum Refusal {
    // no motif
    NoPattern = 1,
    // long motif
    LongPattern = 2,
    // short bench
    ShortScratch = 3,
    // false card
    FalsePattern = 4,
    // long record
    LongText = 5,
    // short order
    ShortInput = 6,
    // C-11: the reel has under 12 bytes or wrong closing bytes
    NoTrailer = 7,
    // C-11: over 4,096 records, or the directory isn't exactly the bytes from its start to the trailer
    FalseDirectory = 8,
    // C-11: the records don't touch from byte 0 to the directory start
    RecordsApart = 9,
    // C-13: the motif holds byte 0
    ZeroInPattern = 10,
    // C-14: the lent list is shorter than the record
    ShortLengths = 11,
    // C-19: the chart hasn't 256 bytes
    ClassesNot256 = 14,
    // C-19: another value shares the class of 0
    ZeroClassShared = 15,
    // C-20: the bytes of a house order aren't m different places
    FalseOrder = 16,
    // C-21: the journal is shorter than the cap
    ShortJournal = 17,
    // C-21: an entry's place isn't the one the rules compare next, or entries remain after done or full
    FalseJournal = 18,
    // C-22: the used entries aren't strictly ascending or are more than the list holds
    FalseList = 19,
    // C-22: the updated places exceed the list
    ShortList = 20,
}

impl Refusal {
    // Its number in the table.
    pub fn number(self) -> u8
        ensures { result ≡ number_of self }
    {
        self as u8
    }
}
