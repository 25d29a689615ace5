// The calls for C that read and write typed text (include/torfianka.h), which crate c_eqn_c exports. What they give is defined in
// specs/Words.antt of crate c_words. Two calls that look alike, since C links each by its name.

#![tactic(auto)]

ghost use Rattle.std.specs.Prelude.{◌≡◌, length};
ghost use Rattle.results.specs.Results.{answer_by, buffer_by};
ghost use Rattle.eqn_meaning.specs.Answers.{read_result, write_result, no_room};
ghost use Rattle.c_words.specs.Words.{no_answer, report_space, report_words, if_space};

use c_words::{NO_ANSWER, REPORT_SPACE, put_report};
use eqn_calls::report_of;

// Reads typed text into the bytes of a formula.
pub fn torfianka_eqn_read<'a>(
    names: &'a [u8],
    text: &'a [u8],
    formula: &mut [u8],
    answer: &mut [i64],
) -> u8
    ensures value { result ≡ if_space report_space answer.old (answer_by no_room (length formula.old) (read_result names.now text.now)).number no_answer }
    ensures answer_after { answer.new ≡ if_space report_space answer.old (report_words (answer_by no_room (length formula.old) (read_result names.now text.now)) answer.old) answer.old }
    ensures formula_after { formula.new ≡ if_space report_space answer.old (buffer_by formula.old (read_result names.now text.now)) formula.old }
{
    if answer.len() < REPORT_SPACE {
        return NO_ANSWER;
    }
    put_report(report_of(eqn_calls::read(names, text, formula)), answer)
}

// Writes the bytes of a formula as typed text.
pub fn torfianka_eqn_write<'a>(
    names: &'a [u8],
    formula: &'a [u8],
    text: &mut [u8],
    answer: &mut [i64],
) -> u8
    ensures value { result ≡ if_space report_space answer.old (answer_by no_room (length text.old) (write_result names.now formula.now)).number no_answer }
    ensures answer_after { answer.new ≡ if_space report_space answer.old (report_words (answer_by no_room (length text.old) (write_result names.now formula.now)) answer.old) answer.old }
    ensures text_after { text.new ≡ if_space report_space answer.old (buffer_by text.old (write_result names.now formula.now)) text.old }
{
    if answer.len() < REPORT_SPACE {
        return NO_ANSWER;
    }
    put_report(report_of(eqn_calls::write(names, formula, text)), answer)
}
