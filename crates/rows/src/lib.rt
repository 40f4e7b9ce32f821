// The row of a search: four numbers of a lent list. And calls made one after the other, each with what the one before left. Document 02's
// requests C-17 and C-24.
#![tactic(auto)]

ghost use Rattle.std.specs.Prelude.{◌≡◌};
ghost use Rattle.rows.specs.Row.{ran_row, refused_row, row_of, numbers, starting_with};

use endings::{ending_number, ending_window};
use refusal::Refusal;
use rules::Report;

// The numbers of a row.
pub const ROW: usize = 4;
// What a row adds to the number of a refusal.
pub const REFUSED: u64 = 10;

// 0 for done, 1 for spent, 2 for full, or 10 and the number of the refusal; the positions written; the count; the window, or 0.
#[derive(Clone, Copy)]
pub struct Row {
    pub ending: u64,
    pub written: usize,
    pub count: u64,
    pub window: usize,
}

impl From<Report> for Row {
    ghost from_gives = { λ report row. row ≡ ran_row report };

    fn from(report: Report) -> Self {
        Row {
            ending: u64::from(ending_number(report.ending)),
            written: report.written,
            count: report.count,
            window: ending_window(report.ending),
        }
    }
}

impl From<Refusal> for Row {
    ghost from_gives = { λ why row. row ≡ refused_row why };

    fn from(why: Refusal) -> Self {
        Row {
            ending: REFUSED + u64::from(why.number()),
            written: 0,
            count: 0,
            window: 0,
        }
    }
}

// The row of a search's answer. Of a refusal the last three numbers are 0.
impl From<Result<Report, Refusal>> for Row {
    ghost from_gives = { λ answer row. row ≡ row_of answer };

    fn from(answer: Result<Report, Refusal>) -> Self {
        match answer {
            Ok(report) => Row::from(report),
            Err(why) => Row::from(why),
        }
    }
}

// Puts a row at the start of a list; the entries after it are unchanged. A list with fewer than four entries is unchanged.
#[tactic(auto, unfolding(crate::specs::Row::starting_with))]
pub fn put(rows: &mut [u64], row: Row)
    ensures list { rows.new ≡ starting_with (numbers row) rows.old }
{
    if rows.len() < ROW {
        return;
    }
    rows[..ROW].copy_from_slice(&[row.ending, row.written as u64, row.count, row.window as u64]);
}
