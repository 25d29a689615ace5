// Reads the bytes of a formula from standard input, with the names of names.tab in the working folder, and writes its typed text to standard
// output; or, to standard error, why it does not.

#![tactic(auto)]

use eqn_calls::report_of;
use files::{LONGEST_NAMES, NAME_SPACE, read_full, read_needed};
use formula::FORMULA_LIMIT;
use results::Report;
use std::io::Result;
use texts::{print, write_refusal, write_too_long};

// One byte more than the longest formula, so that a longer one is seen.
const FORMULA_SPACE: usize = FORMULA_LIMIT + 1;

// The longest text that the program writes, as long as the longest that `eqn` takes.
const TEXT_SPACE: usize = 131_072;

// The answer to a formula whose text has more bytes than that.
const NO_ROOM: u8 = 13;

fn main(rt: HostRuntime) -> Result<()> {
    let mut formula = [0u8; FORMULA_SPACE];
    let got = read_full(&mut rt.stdin(), &mut formula);
    let mut names = [0u8; NAME_SPACE];
    let named = read_needed(&rt, b"names.tab", &mut names);
    if named > LONGEST_NAMES {
        return write_too_long(&rt.stderr(), LONGEST_NAMES);
    }
    show(&rt, &rt.stderr(), &names[..named], &formula[..got])
}

fn show<'a>(
    out: &impl Print,
    errors: &impl Print,
    names: &'a [u8],
    formula: &'a [u8],
) -> Result<()> {
    let mut text = [0u8; TEXT_SPACE];
    let report = report_of(eqn_calls::write(names, formula, &mut text));
    if report.number == 0 {
        return print(out, &text, report.bytes);
    }
    refuse(errors, report)
}

fn refuse(errors: &impl Print, report: Report) -> Result<()> {
    if report.number == NO_ROOM {
        return write_too_long(errors, TEXT_SPACE);
    }
    write_refusal(errors, report.number, report.place)
}
