// The formula's bytes: the numbers of their format, and the types of what stands in them. What they mean, and where they break a rule, is defined
// in specs/Format.antt, specs/Tree.antt, specs/Marks.antt, specs/Heads.antt and specs/Reading.antt; specs/Places.antt and the laws beside it are
// for a walk over a formula that reads.

#![tactic(auto)]

use scaled::Sp;

// The most bytes that a formula may have.
pub const FORMULA_LIMIT: usize = 131_072;

// The greatest depth of a list; the formula itself is at depth 1.
pub const DEPTH_LIMIT: usize = 32;

// The letters with which an atom and a fraction open.
pub const ATOM_FIRST: u8 = b'A';

pub const ATOM_SECOND: u8 = b'T';

pub const FRACTION_FIRST: u8 = b'F';

pub const FRACTION_SECOND: u8 = b'R';

// A kern's mark and its four bytes.
pub const KERN_BYTES: usize = 6;

// A style's mark and its number.
pub const RESTYLE_BYTES: usize = 3;

// A choice's mark, and how many lists follow it.
pub const CHOICE_OPENING_BYTES: usize = 2;

pub const CHOICE_LISTS: usize = 4;

// Numbers of classes, of limits and of bars as bytes of the format, for those who write a formula.
pub const ORD: u8 = 0;

pub const OP: u8 = 1;

pub const DISPLAY_ONLY: u8 = 0;

pub const ALWAYS: u8 = 1;

pub const DEFAULT_BAR: u8 = 0;

// The greatest numbers: of a class, of a kern either way, of a style, of a family.
pub const GREATEST_CLASS: u8 = 7;

pub const GREATEST_KERN: i64 = 8_388_607;

pub const GREATEST_STYLE: u8 = 7;

pub const GREATEST_FAMILY: u8 = 15;

// The kind bytes of fields.
pub const EMPTY_KIND: u8 = 0;

pub const SYMBOL_KIND: u8 = 1;

pub const LIST_KIND: u8 = 2;

pub const LONG_LIST_KIND: u8 = 3;

// The greatest length of two bytes. A list has four only for a greater one.
pub const GREATEST_SHORT: usize = 65_535;

// How many bytes a list has before its items: its kind and two bytes of length.
pub const SHORT_OPENING_BYTES: usize = 3;

// A number that no class has, or no limits or no bar.
#[derive(Clone, Copy, PartialEq, Eq)]
pub struct UnknownNumber(pub u8);

// The class of an atom, by which it is spaced.
#[derive(Clone, Copy, PartialEq, Eq)]
pub enum Class {
    Ord,
    Op,
    Bin,
    Rel,
    Open,
    Close,
    Punct,
    Inner,
}

impl From<Class> for u8 {
    ghost use Rattle.std.specs.Prelude.{◌≡◌};
    ghost use Rattle.formula.specs.Heads.{class_number};

    ghost from_gives = { λ class n. n ≡ class_number class };

    fn from(class: Class) -> u8 {
        class as u8
    }
}

impl TryFrom<u8> for Class {
    ghost use Rattle.std.specs.Prelude.{◌≡◌};
    ghost use Rattle.formula.specs.Heads.{classes};
    ghost use Rattle.formula.specs.Values.{numbered};

    type Error = UnknownNumber;

    ghost try_from_gives = { λ n r. r ≡ numbered classes n };

    fn try_from(n: u8) -> Result<Class, UnknownNumber> {
        match n {
            0 => Ok(Class::Ord),
            1 => Ok(Class::Op),
            2 => Ok(Class::Bin),
            3 => Ok(Class::Rel),
            4 => Ok(Class::Open),
            5 => Ok(Class::Close),
            6 => Ok(Class::Punct),
            7 => Ok(Class::Inner),
            _ => Err(UnknownNumber(n)),
        }
    }
}

// Where the scripts of a large operator stand as limits.
#[derive(Clone, Copy, PartialEq, Eq)]
pub enum Limits {
    DisplayOnly,
    Always,
    Never,
}

impl TryFrom<u8> for Limits {
    ghost use Rattle.std.specs.Prelude.{◌≡◌};
    ghost use Rattle.formula.specs.Heads.{limit_kinds};
    ghost use Rattle.formula.specs.Values.{numbered};

    type Error = UnknownNumber;

    ghost try_from_gives = { λ n r. r ≡ numbered limit_kinds n };

    fn try_from(n: u8) -> Result<Limits, UnknownNumber> {
        match n {
            0 => Ok(Limits::DisplayOnly),
            1 => Ok(Limits::Always),
            2 => Ok(Limits::Never),
            _ => Err(UnknownNumber(n)),
        }
    }
}

// The bar of a fraction: of the default thickness, or none.
#[derive(Clone, Copy, PartialEq, Eq)]
pub enum Bar {
    Default,
    Without,
}

impl TryFrom<u8> for Bar {
    ghost use Rattle.std.specs.Prelude.{◌≡◌};
    ghost use Rattle.formula.specs.Heads.{bars};
    ghost use Rattle.formula.specs.Values.{numbered};

    type Error = UnknownNumber;

    ghost try_from_gives = { λ n r. r ≡ numbered bars n };

    fn try_from(n: u8) -> Result<Bar, UnknownNumber> {
        match n {
            0 => Ok(Bar::Default),
            1 => Ok(Bar::Without),
            _ => Err(UnknownNumber(n)),
        }
    }
}

// The family and the code of a symbol of a delimiter; zero and zero where there is none.
#[derive(Clone, Copy, PartialEq, Eq)]
pub struct Pair {
    pub family: u8,
    pub code: u8,
}

// A variable delimiter: where its small symbol does not suffice, its large one is tried.
#[derive(Clone, Copy, PartialEq, Eq)]
pub struct Delimiter {
    pub small: Pair,
    pub large: Pair,
}

// What the scripts of an item are set to. A root has its sign, a fence its left delimiter and its right one.
#[derive(Clone, Copy, PartialEq, Eq)]
pub enum Base {
    Atom(Class, Limits),
    Over,
    Under,
    Root(Delimiter),
    Fence(Delimiter, Delimiter),
}

// What an item with fields is: a base with scripts, or a fraction.
#[derive(Clone, Copy, PartialEq, Eq)]
pub enum Kind {
    Scripted(Base),
    Fraction(Bar),
}

// The two letters with which an item opens. Two that open nothing are a variant, as in the definition `opens`.
#[derive(Clone, Copy, PartialEq, Eq)]
pub enum Mark {
    AT,
    OV,
    UN,
    FR,
    KN,
    ST,
    C4,
    RD,
    FE,
    Unknown,
}

// What an item says before its fields. A choice has four fields, each a list. That there is no item is a variant, as in the
// definition `opening_of`, and one match has all cases.
#[derive(Clone, Copy, PartialEq, Eq)]
pub enum Opening {
    NoItem,
    Fields(Kind),
    Kern(Sp),
    Restyle(u8),
    Choice,
}

// What a field says at its kind byte. A list has the number of bytes before its items and that of its items, or its
// length is cut off, passes the end, or is too short for its kind. That there is no field is a variant, as in the definition
// `field_head`.
#[derive(Clone, Copy, PartialEq, Eq)]
pub enum FieldHead {
    NoField,
    Empty,
    Symbol(u8, u8),
    Sublist(usize, usize),
    CutSublist,
}

// What keeps a formula from being read: an item that can't be read, or a list too deep.
#[derive(Clone, Copy, PartialEq, Eq)]
pub enum Fault {
    Unreadable,
    TooDeep,
}

// A fault and its place.
#[derive(Clone, Copy, PartialEq, Eq)]
pub struct FaultAt {
    pub fault: Fault,
    pub place: usize,
}
