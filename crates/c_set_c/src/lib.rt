// What C links to measure and to set: the calls of crate c_set under the names of include/torfianka.h, with the same clauses.

#![tactic(auto)]

ghost use Rattle.std.specs.Prelude.{◌≡◌, length};
ghost use Rattle.answers.specs.Lent.{lent_of, index_after, client_index_after};
ghost use Rattle.answers.specs.Answers.{measured, setting, buffer_after};
ghost use Rattle.c_words.specs.Words.{no_answer, answer_space, if_space};
ghost use Rattle.c_set.specs.AnswerWords.{answer_words};

// Measures a formula.
#[unsafe(no_mangle)]
pub extern "C" fn torfianka_measure<'a>(
    style: u8,
    table: &'a [u8],
    client: &'a [u8],
    formula: &[u8],
    index: &mut [u64],
    client_index: &mut [u64],
    answer: &mut [i64],
) -> u8
    ensures value { result ≡ if_space answer_space answer.old (measured style table.now client.now (lent_of index.old client_index.old) formula.now).number no_answer }
    ensures answer_after { answer.new ≡ if_space answer_space answer.old (answer_words (measured style table.now client.now (lent_of index.old client_index.old) formula.now) answer.old) answer.old }
    ensures index_after { index.new ≡ if_space answer_space answer.old (index_after style table.now client.now index.old client_index.old) index.old }
    ensures client_index_after { client_index.new ≡ if_space answer_space answer.old (client_index_after style table.now client.now index.old client_index.old) client_index.old }
{
    c_set::torfianka_measure(style, table, client, formula, index, client_index, answer)
}

// Sets a formula into the front of the node buffer.
#[unsafe(no_mangle)]
pub extern "C" fn torfianka_set<'a>(
    style: u8,
    table: &'a [u8],
    client: &'a [u8],
    formula: &[u8],
    nodes: &mut [u8],
    index: &mut [u64],
    client_index: &mut [u64],
    answer: &mut [i64],
) -> u8
    ensures value { result ≡ if_space answer_space answer.old (setting style table.now client.now (lent_of index.old client_index.old) formula.now (length nodes.old)).number no_answer }
    ensures answer_after { answer.new ≡ if_space answer_space answer.old (answer_words (setting style table.now client.now (lent_of index.old client_index.old) formula.now (length nodes.old)) answer.old) answer.old }
    ensures nodes_after { nodes.new ≡ if_space answer_space answer.old (buffer_after style table.now client.now (lent_of index.old client_index.old) formula.now nodes.old) nodes.old }
    ensures index_after { index.new ≡ if_space answer_space answer.old (index_after style table.now client.now index.old client_index.old) index.old }
    ensures client_index_after { client_index.new ≡ if_space answer_space answer.old (client_index_after style table.now client.now index.old client_index.old) client_index.old }
{
    c_set::torfianka_set(
        style,
        table,
        client,
        formula,
        nodes,
        index,
        client_index,
        answer,
    )
}
