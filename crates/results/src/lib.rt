// The result of a call that makes bytes of other bytes and writes them at the front of a lent buffer: what it answers, and what becomes of the
// buffer, is defined in specs/Results.antt for all such calls.

#![tactic(auto)]

ghost use Rattle.std.specs.Prelude.{◌≡◌};
ghost use Rattle.results.specs.Results.{accepted, refusal};
ghost use Rattle.results.specs.Values.{report_as};

// An answer's number, its place, and how many bytes were written: the words that C gets, so no Result.
#[derive(Clone, Copy, PartialEq, Eq)]
pub struct Report {
    pub number: u8,
    pub place: usize,
    pub bytes: usize,
}

// So many bytes were written.
pub fn accepted(bytes: usize) -> Report
    ensures { report_as result ≡ accepted bytes }
{
    Report {
        number: 0,
        place: 0,
        bytes,
    }
}

// Nothing was written.
pub fn refusal(number: u8, place: usize) -> Report
    ensures { report_as result ≡ refusal number place }
{
    Report {
        number,
        place,
        bytes: 0,
    }
}
