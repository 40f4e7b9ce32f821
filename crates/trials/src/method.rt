// The two searches that are tried.
ghost use Rattle.std.specs.Prelude.{◌≤◌};

use refusal::Refusal;
use search::Report;
use std::fmt;

#[derive(Clone, Copy)]
pub enum Method {
    Colussi,
    Kmp,
}

impl Method {
    // The search for the bytes of a pattern, once it is prepared.
    pub fn search(
        self,
        bytes: &[u8],
        text: &[u8],
        cap: u64,
        positions: &mut [u32],
    ) -> Result<Report, Refusal> {
        let pattern = preparation::prepare_alone(bytes, &classes::identity_classes())?.pattern;
        match self {
            Method::Colussi => search::colussi(pattern, text, cap, positions),
            Method::Kmp => search::kmp(pattern, text, cap, positions),
        }
    }

    // How many comparisons a search to the end may make, for a pattern of m bytes and a text of n.
    pub fn ceiling(self, m: usize, n: usize) -> u64
        requires { n ≤ 400 }
    {
        if n < m {
            return 0;
        }
        match self {
            Method::Colussi => ((3 * n - m) / 2) as u64,
            Method::Kmp => (2 * n - m) as u64,
        }
    }
}

impl fmt::Display for Method {
    fn fmt<W: fmt::Write>(&self, f: &mut fmt::Formatter<W>) -> fmt::Result {
        f.write_str(match self {
            Method::Colussi => "Colussi",
            Method::Kmp => "KMP",
        })
    }
}
