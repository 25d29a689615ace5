// An answer taken apart, for those who show it or hand it on.

ghost use Rattle.std.specs.Prelude.{◌≡◌};
ghost use Rattle.layout_answers.specs.Values.{answered_as};
ghost use Rattle.layout_answers.specs.Reports.{set_report_as};

use crate::Answer;
use boxes::Size;
use scaled::Sp;

// The words that C gets, so no Result.
#[derive(Clone, Copy)]
pub struct SetReport {
    pub number: u8,
    pub place: usize,
    pub size: Size,
    pub count: usize,
}

// An acceptance has the number 0 and the place 0, a refusal sizes and count 0.
impl From<Answer> for SetReport {
    ghost from_gives = { λ answer report. set_report_as report ≡ answered_as answer };

    fn from(answer: Answer) -> SetReport {
        match answer {
            Ok(accepted) => SetReport {
                number: 0,
                place: 0,
                size: accepted.size,
                count: accepted.count,
            },
            Err(refusal) => SetReport {
                number: refusal.number(),
                place: refusal.place(),
                size: Size {
                    width: Sp(0),
                    height: Sp(0),
                    depth: Sp(0),
                },
                count: 0,
            },
        }
    }
}
