// Reads typed text from standard input, with the names of names.tab in the working folder, and writes the bytes of the formula that it means to
// standard output; or, to standard error, why it does not.

#![tactic(auto)]

use eqn_calls::report_of;
use files::{LONGEST_NAMES, NAME_SPACE, read_full, read_needed};
use formula::FORMULA_LIMIT;
use results::Report;
use std::io::Result;
use texts::{print, write_refusal, write_too_long};

// The longest text that the program takes.
const LONGEST: usize = 131_072;

// One byte more, so that a longer one is seen.
const TEXT_SPACE: usize = LONGEST + 1;

// As many bytes as a formula can have.
const FORMULA_SPACE: usize = FORMULA_LIMIT;

fn main(rt: HostRuntime) -> Result<()> {
    let mut text = [0u8; TEXT_SPACE];
    let got = read_full(&mut rt.stdin(), &mut text);
    let mut names = [0u8; NAME_SPACE];
    let named = read_needed(&rt, b"names.tab", &mut names);
    if named > LONGEST_NAMES {
        return write_too_long(&rt.stderr(), LONGEST_NAMES);
    }
    show(&rt, &rt.stderr(), &names[..named], &text[..got])
}

fn show<'a>(out: &impl Print, errors: &impl Print, names: &'a [u8], text: &'a [u8]) -> Result<()> {
    let mut formula = [0u8; FORMULA_SPACE];
    if text.len() > LONGEST {
        return refuse_long(errors, names, text, &mut formula);
    }
    let report = report_of(eqn_calls::read(names, text, &mut formula));
    show_report(out, errors, report, &formula)
}

// A text over the program's limit. What is tested before the text is what refuses the empty one.
fn refuse_long<'a>(
    errors: &impl Print,
    names: &'a [u8],
    text: &'a [u8],
    formula: &mut [u8],
) -> Result<()> {
    let tested = report_of(eqn_calls::read(names, &text[..0], formula));
    if tested.number == 0 {
        return write_too_long(errors, LONGEST);
    }
    write_refusal(errors, tested.number, tested.place)
}

fn show_report(
    out: &impl Print,
    errors: &impl Print,
    report: Report,
    formula: &[u8],
) -> Result<()> {
    if report.number == 0 {
        return print(out, formula, report.bytes);
    }
    write_refusal(errors, report.number, report.place)
}
