// The whole pattern: the tables are filled in the scratch, and the fields read off them.
ghost use Rattle.std.specs.Prelude.{◌≡◌, ◌≤◌, length};
ghost use Rattle.pattern.specs.Lists.{padded};
ghost use Rattle.classes.specs.Classes.{class_count, through};
ghost use Rattle.pattern.specs.Built.{pattern_with, built_with, built, tables_after};
ghost use Rattle.pattern.specs.Internal.Scratch.{Sizes};

use super::by_rank::ByRank;
use super::counted::Counted;
use super::holes::list_holes;
use super::kmin::fill_kmin;
use super::noholes::{Listed, list_noholes, next_noholes};
use super::sizes::RANKS;
use super::tables::Tables;
use super::{Built, Pattern};
use classes::put_letters;
use hmax::fill_hmax;
use intake::LONGEST_PATTERN;

fn copied(bytes: &[u8]) -> [u8; LONGEST_PATTERN]
    requires { length bytes.now ≤ 256 }
    ensures { result ≡ padded 256 bytes.now }
{
    let mut out = [0; LONGEST_PATTERN];
    out[..bytes.len()].copy_from_slice(bytes);
    out
}

// Of bytes and classes with the tables of their letters.
fn read_off(bytes: &[u8], classes: &[u8], tables: &Tables) -> Pattern
    requires bytes_len { (length bytes.now ≡ length tables.now.letters.now) × (length classes.now ≡ class_count) }
    ensures { result ≡ pattern_with bytes.now classes.now tables.now.letters.now }
{
    let mut ranks = ByRank {
        order: [0; LONGEST_PATTERN],
        shift: [0; RANKS],
        next: [0; RANKS],
    };
    let mut listed = Listed {
        noholes: 0,
        later: [0; LONGEST_PATTERN],
        many: 0,
    };
    let marks = list_noholes(tables, &mut listed, &mut ranks);
    let counted = Counted::new(&marks);
    next_noholes(&counted, &listed.later[..listed.many], &mut ranks);
    list_holes(tables, &counted, listed.noholes, &mut ranks);
    Pattern {
        len: bytes.len(),
        noholes: listed.noholes,
        bytes: copied(bytes),
        classes: copied(classes),
        order: ranks.order,
        shift: ranks.shift,
        next: ranks.next,
        marks,
    }
}

// All of it, with the comparisons made in building hmax.
fn of_letters(bytes: &[u8], classes: &[u8], letters: &[u8], scratch: &mut [u16]) -> Built
    requires bytes_len { (length bytes.now ≡ length letters.now) × (length classes.now ≡ class_count) }
    requires sizes { Sizes letters.now scratch.old }
    ensures value { result ≡ built_with bytes.now classes.now letters.now }
    ensures scratch_after { scratch.new ≡ tables_after letters.now scratch.old }
{
    let compared = fill_hmax(letters, scratch);
    fill_kmin(letters, scratch);
    let tables = Tables { letters, scratch };
    let pattern = read_off(bytes, classes, &tables);
    Built { pattern, compared }
}

// Bytes are mapped once, and only their letters compared.
pub fn whole(bytes: &[u8], classes: &[u8], scratch: &mut [u16]) -> Built
    requires sizes { Sizes bytes.now scratch.old }
    requires classes_len { length classes.now ≡ class_count }
    ensures value { result ≡ built bytes.now classes.now }
    ensures scratch_after { scratch.new ≡ tables_after (through classes.now bytes.now) scratch.old }
{
    let m = bytes.len();
    let mut letters = [0; LONGEST_PATTERN];
    put_letters(bytes, classes, &mut letters);
    of_letters(bytes, classes, &letters[..m], scratch)
}
