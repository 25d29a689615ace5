// What asking why answers, and the same in numbers.

ghost use Rattle.std.specs.Prelude.{◌≡◌};
ghost use Rattle.layout_answers.specs.Values.{why_refusal_as, why_answer_as};
ghost use Rattle.layout_answers.specs.Reports.{why_report_as};

use crate::Refusal;
use reasons::{Reasons, unshifted};

#[derive(Clone, Copy, PartialEq, Eq)]
pub enum WhyRefusal {
    // No fraction, and no item whose scripts are set beside it, starts at the place.
    Unpicked,
    // What measuring refuses.
    Refused(Refusal),
}

pub type WhyAnswer = Result<Reasons, WhyRefusal>;

impl From<Refusal> for WhyRefusal {
    ghost use Rattle.layout_answers.specs.declared.why.WhyRefusal.TheVariants.{Refused};

    ghost from_gives = { λ refusal r. r ≡ Refused refusal };

    fn from(refusal: Refusal) -> WhyRefusal {
        WhyRefusal::Refused(refusal)
    }
}

impl WhyRefusal {
    pub fn number(self) -> u8
        ensures { result ≡ (why_refusal_as self).number }
    {
        match self {
            WhyRefusal::Unpicked => 9,
            WhyRefusal::Refused(refusal) => refusal.number(),
        }
    }

    // 0 where a refusal has none.
    pub fn place(self) -> usize
        ensures { result ≡ (why_refusal_as self).place }
    {
        match self {
            WhyRefusal::Unpicked => 0,
            WhyRefusal::Refused(refusal) => refusal.place(),
        }
    }
}

// An answer in numbers, for those who hand it on: a shift that is not there is 0, and so are both on a refusal. They are the words that C
// gets, so no Result.
#[derive(Clone, Copy)]
pub struct WhyReport {
    pub number: u8,
    pub place: usize,
    pub reasons: Reasons,
}

impl From<WhyAnswer> for WhyReport {
    ghost from_gives = { λ answer report. why_report_as report ≡ why_answer_as answer };

    fn from(answer: WhyAnswer) -> WhyReport {
        match answer {
            Ok(reasons) => WhyReport {
                number: 0,
                place: 0,
                reasons,
            },
            Err(refusal) => WhyReport {
                number: refusal.number(),
                place: refusal.place(),
                reasons: Reasons {
                    up: unshifted(),
                    down: unshifted(),
                },
            },
        }
    }
}
