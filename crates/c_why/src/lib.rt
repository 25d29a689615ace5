// The call for C that asks why (include/torfianka.h), which crate c_why_c exports; what it gives is defined in specs/ReasonWords.antt.

#![tactic(auto)]

ghost use Rattle.std.specs.Prelude.{◌≡◌, ◌≤◌, length};
ghost use Rattle.formula.specs.Format.{formula_limit};
ghost use Rattle.answers.specs.Lent.{lent_of, index_after, client_index_after};
ghost use Rattle.answers.specs.Why.{why_of};
ghost use Rattle.layout_answers.specs.Values.{why_answer_as};
ghost use Rattle.c_words.specs.Words.{no_answer, answer_space, if_space};
ghost use Rattle.c_why.specs.ReasonWords.{reason_word, reason_words};

use c_words::{ANSWER_SPACE, NO_ANSWER, count_word};
use layout_answers::why::{WhyAnswer, WhyReport};
use layout_why::why;
use reasons::Reason;

// What decided the shifts of the item that starts at a place.
#[tactic(auto, using(c_words::specs::WordsLaws::enough, c_words::specs::WordsLaws::short))]
pub fn torfianka_why<'a>(
    style: u8,
    table: &'a [u8],
    client: &'a [u8],
    formula: &[u8],
    place: usize,
    index: &mut [u64],
    client_index: &mut [u64],
    answer: &mut [i64],
) -> u8
    ensures value { result ≡ if_space answer_space answer.old (why_of style table.now client.now (lent_of index.old client_index.old) formula.now place).number no_answer }
    ensures answer_after { answer.new ≡ if_space answer_space answer.old (reason_words (why_of style table.now client.now (lent_of index.old client_index.old) formula.now place) answer.old) answer.old }
    ensures index_after { index.new ≡ if_space answer_space answer.old (index_after style table.now client.now index.old client_index.old) index.old }
    ensures client_index_after { client_index.new ≡ if_space answer_space answer.old (client_index_after style table.now client.now index.old client_index.old) client_index.old }
{
    if answer.len() < ANSWER_SPACE {
        return NO_ANSWER;
    }
    report_reasons(
        why(style, table, client, formula, place, index, client_index),
        answer,
    )
}

// Writes the place, and each shift behind what decided it, and gives the number.
fn report_reasons(answer: WhyAnswer, words: &mut [i64]) -> u8
    requires { (answer_space ≤ length words.old) × ((why_answer_as answer).place ≤ formula_limit) }
    ensures { (result ≡ (why_answer_as answer).number) × (words.new ≡ reason_words (why_answer_as answer) words.old) }
{
    let report = WhyReport::from(answer);
    let up = report.reasons.up;
    let down = report.reasons.down;
    words[0] = count_word(report.place);
    words[1] = reason_word(up.by);
    words[2] = up.shift.0;
    words[3] = reason_word(down.by);
    words[4] = down.shift.0;
    report.number
}

// A reason as the word that C has for it.
fn reason_word(by: Reason) -> i64
    ensures { result ≡ reason_word by }
{
    by as i64
}
