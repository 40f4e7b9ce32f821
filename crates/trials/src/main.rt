// Runs both searches on random patterns and texts, and checks each report and list against a naive search. Both must list the naive
// search's positions, and so the same. The expected output is that of an oracle of separate make, tests/trials_oracle.
#![tactic(auto)]

mod draw;
mod judge;
mod method;

ghost use Rattle.std.specs.Prelude.{◌<◌, ◌≤◌, length};

use judge::{LIST, TEXT, UNWRITTEN};
use method::Method;
use preparation::LONGEST_PATTERN;
use rules::NO_CAP;
use search::{Ending, Report};
use std::{fmt, io};

const CASES: u64 = 4000;

// Searches that are right.
#[derive(Clone, Copy, Default)]
struct Tally {
    searches: u64,
    places: u64,
    comparisons: u64,
    noholes: u64,
}

impl Tally {
    // One search more.
    fn count(&mut self, report: Report) {
        self.searches = self.searches.wrapping_add(1);
        self.places = self.places.wrapping_add(report.written as u64);
        self.comparisons = self.comparisons.wrapping_add(report.count);
        self.noholes = self.noholes.wrapping_add(report.noholes);
    }
}

impl fmt::Display for Tally {
    fn fmt<W: fmt::Write>(&self, f: &mut fmt::Formatter<W>) -> fmt::Result {
        write!(
            f,
            "searches {}, places {}, comparisons {}, at noholes {}",
            self.searches, self.places, self.comparisons, self.noholes
        )
    }
}

// The report of a search to the end, if it is right.
fn try_search(method: Method, bytes: &[u8], text: &[u8]) -> Option<Report>
    requires first { 0 < length bytes.now }
    requires fits { length text.now ≤ 400 }
{
    let mut positions = [UNWRITTEN; LIST];
    let report = method.search(bytes, text, NO_CAP, &mut positions).ok()?;
    judge::is_right(method, report, &positions, bytes, text).then_some(report)
}

fn try_case(method: Method, case: u64) -> Option<Report> {
    let stream = draw::number(case, 0);
    let mut bytes = [0u8; LONGEST_PATTERN];
    let m = draw::pattern(stream, &mut bytes);
    let mut text = [0u8; TEXT];
    let n = draw::text(stream, &bytes[..m], &mut text);
    try_search(method, &bytes[..m], &text[..n])
}

// Shows the tally of all cases, and hands back how many searches are not right.
fn run_cases(rt: &impl Print, method: Method) -> io::Result<u64> {
    let mut tally = Tally::default();
    for case in 0..CASES {
        if let Some(report) = try_case(method, case) {
            tally.count(report);
        }
    }
    println!(rt; "{method}: {tally}")?;
    Ok(CASES.wrapping_sub(tally.searches))
}

// The worked record of document 01 that is not starred.
fn show_record(rt: &impl Print) -> io::Result<()> {
    let text = b"aba";
    let mut positions = [UNWRITTEN; LIST];
    if let Ok(report) = Method::Colussi.search(text, text, 0, &mut positions)
        && let Ending::Spent(window) = report.ending
    {
        println!(rt;
            "aba in aba, cap 0: spent at {window}, count {}, places {}",
            report.count, report.written
        )?;
    }
    Ok(())
}

fn main(rt: HostRuntime) -> io::Result<()> {
    show_record(&rt)?;
    println!(rt; "cases {CASES}")?;
    let colussi = run_cases(&rt, Method::Colussi)?;
    let kmp = run_cases(&rt, Method::Kmp)?;
    println!(rt; "{} differ", colussi.wrapping_add(kmp))
}
