// The program's work at its limits: each input is answered, and the answer's first four lines are printed. What they must be is read off
// documents 01 and 02.
#![tactic(auto)]

use job::{BUFFER, LIST, LONGEST_TEXT};
use std::io;

fn show(rt: &impl Print, what: &str, input: &[u8]) -> io::Result<()> {
    let mut out = [0u8; BUFFER];
    println!(rt; "-- {what}")?;
    match job::job(input, &mut out) {
        Ok(written) => {
            // Its first four lines, in one write.
            let mut ends = (0..written).filter(|at| out[*at] == b'\n');
            let end = ends.nth(3).map_or(written, |at| at + 1);
            rt.write_all(&out[..end])
        }
        Err(why) => println!(rt; "{why}"),
    }
}

// A length byte of 255, and 255 bytes.
fn show_patterns(rt: &impl Print) -> io::Result<()> {
    let input = [255u8; 256];
    show(rt, "no input", &input[..0])?;
    show(rt, "254 bytes of 255", &input[..255])?;
    show(rt, "255 bytes of 255", &input)?;
    show(rt, "a length of 0", b"\0abc")
}

// The pattern abc, with a byte 0 in place of one of them, and then with a byte missing besides; and a byte 0 in the text.
fn show_zeros(rt: &impl Print) -> io::Result<()> {
    show(rt, "byte 0 at the first place", b"\x03\0bcabc")?;
    show(rt, "in the middle", b"\x03a\0cabc")?;
    show(rt, "at the last place", b"\x03ab\0abc")?;
    show(rt, "and a byte missing", b"\x03a\0")?;
    show(rt, "byte 0 in the text", b"\x02abab\0abab")
}

// The pattern a, and a text of b; then a byte 0 for the pattern.
fn show_texts(rt: &impl Print) -> io::Result<()> {
    let mut input = [b'b'; LONGEST_TEXT + 3];
    input[0] = 1;
    input[1] = b'a';
    show(rt, "the longest text", &input[..LONGEST_TEXT + 2])?;
    show(rt, "a text of one byte more", &input)?;
    input[1] = 0;
    show(rt, "and a byte 0", &input)
}

// The pattern a, and a text of a.
fn show_lists(rt: &impl Print) -> io::Result<()> {
    let mut input = [b'a'; LIST + 3];
    input[0] = 1;
    show(
        rt,
        "as many positions as the list has entries",
        &input[..LIST + 2],
    )?;
    show(rt, "one position more", &input)
}

fn main(rt: HostRuntime) -> io::Result<()> {
    show_patterns(&rt)?;
    show_zeros(&rt)?;
    show_texts(&rt)?;
    show_lists(&rt)
}
