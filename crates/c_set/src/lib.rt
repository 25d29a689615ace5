// The calls for C that measure and set, and through C for Rust (include/torfianka.h), which crate c_set_c exports. What they give is defined in
// specs/AnswerWords.antt and in specs/Words.antt of crate c_words.

#![tactic(auto)]

ghost use Rattle.std.specs.Prelude.{◌≡◌, ◌≤◌, length};
ghost use Rattle.answers.specs.Lent.{lent_of, index_after, client_index_after};
ghost use Rattle.answers.specs.Answers.{measured, setting, buffer_after};
ghost use Rattle.answers.specs.Small.{Small};
ghost use Rattle.layout_answers.specs.Values.{answered_as};
ghost use Rattle.c_words.specs.Words.{no_answer, answer_space, if_space};
ghost use Rattle.c_set.specs.AnswerWords.{answer_words};

use c_words::{ANSWER_SPACE, NO_ANSWER, count_word};
use layout_answers::Answer;
use layout_answers::report::SetReport;

// Measures a formula.
#[tactic(auto, using(c_words::specs::WordsLaws::enough, c_words::specs::WordsLaws::short))]
pub fn torfianka_measure<'a>(
    style: u8,
    table: &'a [u8],
    client: &'a [u8],
    formula: &[u8],
    index: &mut [u64],
    client_index: &mut [u64],
    answer: &mut [i64],
) -> u8
    ensures value { result ≡ if_space answer_space answer.old (measured style table.now client.now (lent_of index.old client_index.old) formula.now).number no_answer }
    ensures answer_after { answer.new ≡ if_space answer_space answer.old (answer_words (measured style table.now client.now (lent_of index.old client_index.old) formula.now) answer.old) answer.old }
    ensures index_after { index.new ≡ if_space answer_space answer.old (index_after style table.now client.now index.old client_index.old) index.old }
    ensures client_index_after { client_index.new ≡ if_space answer_space answer.old (client_index_after style table.now client.now index.old client_index.old) client_index.old }
{
    if answer.len() < ANSWER_SPACE {
        return NO_ANSWER;
    }
    report(
        layout::measure(style, table, client, formula, index, client_index),
        answer,
    )
}

// Sets a formula into the front of the node buffer.
#[tactic(auto, using(c_words::specs::WordsLaws::enough, c_words::specs::WordsLaws::short))]
pub fn torfianka_set<'a>(
    style: u8,
    table: &'a [u8],
    client: &'a [u8],
    formula: &[u8],
    nodes: &mut [u8],
    index: &mut [u64],
    client_index: &mut [u64],
    answer: &mut [i64],
) -> u8
    ensures value { result ≡ if_space answer_space answer.old (setting style table.now client.now (lent_of index.old client_index.old) formula.now (length nodes.old)).number no_answer }
    ensures answer_after { answer.new ≡ if_space answer_space answer.old (answer_words (setting style table.now client.now (lent_of index.old client_index.old) formula.now (length nodes.old)) answer.old) answer.old }
    ensures nodes_after { nodes.new ≡ if_space answer_space answer.old (buffer_after style table.now client.now (lent_of index.old client_index.old) formula.now nodes.old) nodes.old }
    ensures index_after { index.new ≡ if_space answer_space answer.old (index_after style table.now client.now index.old client_index.old) index.old }
    ensures client_index_after { client_index.new ≡ if_space answer_space answer.old (client_index_after style table.now client.now index.old client_index.old) client_index.old }
{
    if answer.len() < ANSWER_SPACE {
        return NO_ANSWER;
    }
    report(
        layout::set(style, table, client, formula, nodes, index, client_index),
        answer,
    )
}

// Writes an answer's place, sizes and count, and gives its number.
fn report(answer: Answer, words: &mut [i64]) -> u8
    requires { (answer_space ≤ length words.old) × Small (answered_as answer) }
    ensures { (result ≡ (answered_as answer).number) × (words.new ≡ answer_words (answered_as answer) words.old) }
{
    let report = SetReport::from(answer);
    words[0] = count_word(report.place);
    words[1] = report.size.width.0;
    words[2] = report.size.height.0;
    words[3] = report.size.depth.0;
    words[4] = count_word(report.count);
    report.number
}
