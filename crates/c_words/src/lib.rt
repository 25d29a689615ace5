// What the calls for C (include/torfianka.h) share: the words of an answer, and what is done where there are too few of them. What a caller
// is given is defined in specs/Words.antt.

#![tactic(auto)]

ghost use Rattle.std.specs.Prelude.{◌≡◌, ◌^◌, ◌≤◌, ◌<◌, pos, length};
ghost use Rattle.formula.specs.Format.{formula_limit};
ghost use Rattle.results.specs.Values.{report_as};
ghost use Rattle.c_words.specs.Words.{report_space, report_words};

use results::Report;

// The number where the answer has no room. Nothing is done then.
pub const NO_ANSWER: u8 = 255;

// How many words the answer of a call takes that measures, sets or asks why.
pub const ANSWER_SPACE: usize = 5;

// How many words the answer of a call takes that writes bytes into a buffer.
pub const REPORT_SPACE: usize = 2;

// Writes the place of an answer and how many bytes were written, and gives its number.
pub fn put_report(report: Report, words: &mut [i64]) -> u8
    requires { (report_space ≤ length words.old) × (report.place < 2 ^ 63) × (report.bytes < 2 ^ 63) }
    ensures { (result ≡ report.number) × (words.new ≡ report_words (report_as report) words.old) }
{
    words[0] = report.place as i64;
    words[1] = report.bytes as i64;
    report.number
}

// A place or a count of a formula as a word.
pub fn count_word(n: usize) -> i64
    requires { n ≤ formula_limit }
    ensures { result ≡ pos n }
{
    n as i64
}
