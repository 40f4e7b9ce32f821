// What is asked of a search to the end: the naive search's positions, and a count under the ceiling.
ghost use Rattle.std.specs.Prelude.{◌<◌, ◌≤◌, length};

use super::method::Method;
use search::{Ending, Report};

// The longest text, and a list with an entry to spare.
pub const TEXT: usize = 400;

pub const LIST: usize = TEXT + 1;
// What a list holds before a search: no position of a text here.
pub const UNWRITTEN: u32 = u32::MAX;

// The naive search: whether a list holds the occurrences from its start on, and is unchanged after them.
fn lists(positions: &[u32; LIST], written: usize, bytes: &[u8], text: &[u8]) -> bool
    requires { 0 < length bytes.now }
{
    let Some((listed, rest)) = positions.split_at_checked(written) else {
        return false;
    };
    let occurrences = text
        .windows(bytes.len())
        .enumerate()
        .filter(|(_, window)| *window == bytes)
        .map(|(position, _)| position);
    listed.iter().map(|entry| *entry as usize).eq(occurrences)
        && rest.iter().all(|entry| *entry == UNWRITTEN)
}

pub fn is_right(
    method: Method,
    report: Report,
    positions: &[u32; LIST],
    bytes: &[u8],
    text: &[u8],
) -> bool
    requires first { 0 < length bytes.now }
    requires fits { length text.now ≤ 400 }
{
    matches!(report.ending, Ending::Done)
        && report.count <= method.ceiling(bytes.len(), text.len())
        && lists(positions, report.written, bytes, text)
}
