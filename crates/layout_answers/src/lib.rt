// What the entries answer, as a value, and the same in numbers for those who show it or hand it on. What an answer stands for is in
// specs/Values.antt.

#![tactic(auto)]

ghost use Rattle.std.specs.Prelude.{◌≡◌};
ghost use Rattle.layout_answers.specs.Values.{refusal_as};

pub mod report;
pub mod why;

use boxes::Size;
use formula::{Fault, FaultAt};
use walk_fields::fields::Missing;

// The size of a formula that is accepted, and how many nodes it has.
#[derive(Clone, Copy)]
pub struct Accepted {
    pub size: Size,
    pub count: usize,
}

// One variant for each answer number of a refusal. A refusal that has a place has it here.
#[derive(Clone, Copy, PartialEq, Eq)]
pub enum Refusal {
    NoStyle,
    BadTable,
    BadClient,
    FewWords,
    Unreadable(usize),
    TooDeep(usize),
    Missing(usize),
    TooLarge,
    NoRoom,
}

pub type Answer = Result<Accepted, Refusal>;

impl Refusal {
    pub fn number(self) -> u8
        ensures { result ≡ (refusal_as self).number }
    {
        match self {
            Refusal::NoStyle => 1,
            Refusal::BadTable => 2,
            Refusal::Unreadable(_) => 3,
            Refusal::TooDeep(_) => 4,
            Refusal::Missing(_) => 5,
            Refusal::TooLarge => 6,
            Refusal::NoRoom => 7,
            Refusal::BadClient => 8,
            Refusal::FewWords => 19,
        }
    }

    // 0 where a refusal has none.
    pub fn place(self) -> usize
        ensures { result ≡ (refusal_as self).place }
    {
        match self {
            Refusal::Unreadable(place) | Refusal::TooDeep(place) | Refusal::Missing(place) => place,
            _ => 0,
        }
    }
}

// The answer to a fault of the reading.
impl From<FaultAt> for Refusal {
    ghost use Rattle.answers.specs.Answers.{fault_number, refusal};

    ghost from_gives = { λ at r. refusal_as r ≡ refusal (fault_number at.fault) at.place };

    fn from(at: FaultAt) -> Refusal {
        match at.fault {
            Fault::Unreadable => Refusal::Unreadable(at.place),
            Fault::TooDeep => Refusal::TooDeep(at.place),
        }
    }
}

// The answer to a symbol that the font lacks.
impl From<Missing> for Refusal {
    ghost use Rattle.layout_answers.specs.declared.Refusal.TheVariants as refusals;

    ghost from_gives = { λ at r. r ≡ refusals.Missing at.place };

    fn from(at: Missing) -> Refusal {
        Refusal::Missing(at.place)
    }
}
