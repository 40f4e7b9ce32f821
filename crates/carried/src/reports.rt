// The answers of the searches of a text, and of one record of an archive.
ghost use Rattle.std.specs.Prelude.{◌≡◌};
ghost use Rattle.carried.specs.Carried.{unsearched, carried_report, carried, carried_record};

use super::SearchReport;
use endings::{ending_number, ending_window};
use refusal::Refusal;
use rules::Report;

// The ending of a search of one record, where there is no such record.
const NO_SUCH_RECORD: u32 = 3;

impl SearchReport {
    // The number of a refusal, or an ending, where nothing was searched. All else is 0.
    fn unsearched(refusal: u32, ending: u32) -> Self
        ensures { result ≡ unsearched refusal ending }
    {
        SearchReport {
            refusal,
            ending,
            window: 0,
            count: 0,
            noholes: 0,
            holes: 0,
            written: 0,
        }
    }
}

impl From<Report> for SearchReport {
    ghost from_gives = { λ report result. result ≡ carried_report report };

    fn from(report: Report) -> Self {
        SearchReport {
            refusal: 0,
            ending: ending_number(report.ending),
            window: ending_window(report.ending),
            count: report.count,
            noholes: report.noholes,
            holes: report.holes,
            written: report.written,
        }
    }
}

impl From<Result<Report, Refusal>> for SearchReport {
    ghost from_gives = { λ answer result. result ≡ carried answer };

    fn from(answer: Result<Report, Refusal>) -> Self {
        match answer {
            Ok(report) => SearchReport::from(report),
            Err(why) => SearchReport::unsearched(u32::from(why.number()), 0),
        }
    }
}

impl From<Result<Option<Report>, Refusal>> for SearchReport {
    ghost from_gives = { λ answer result. result ≡ carried_record answer };

    fn from(answer: Result<Option<Report>, Refusal>) -> Self {
        match answer {
            Ok(Some(report)) => SearchReport::from(report),
            Ok(None) => SearchReport::unsearched(0, NO_SUCH_RECORD),
            Err(why) => SearchReport::unsearched(u32::from(why.number()), 0),
        }
    }
}
