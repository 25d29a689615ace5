// What C links to ask why: the call of crate c_why under the name of include/torfianka.h, with the same clauses. It is a static library of its
// own, compiled apart from setting: in one object the functions that both use are called instead of being made part of their one caller,
// and setting is slower for it.

#![tactic(auto)]

ghost use Rattle.std.specs.Prelude.{◌≡◌};
ghost use Rattle.answers.specs.Lent.{lent_of, index_after, client_index_after};
ghost use Rattle.answers.specs.Why.{why_of};
ghost use Rattle.c_words.specs.Words.{no_answer, answer_space, if_space};
ghost use Rattle.c_why.specs.ReasonWords.{reason_words};

// What decided the shifts of the item that starts at a place.
#[unsafe(no_mangle)]
pub extern "C" fn torfianka_why<'a>(
    style: u8,
    table: &'a [u8],
    client: &'a [u8],
    formula: &[u8],
    place: usize,
    index: &mut [u64],
    client_index: &mut [u64],
    answer: &mut [i64],
) -> u8
    ensures value { result ≡ if_space answer_space answer.old (why_of style table.now client.now (lent_of index.old client_index.old) formula.now place).number no_answer }
    ensures answer_after { answer.new ≡ if_space answer_space answer.old (reason_words (why_of style table.now client.now (lent_of index.old client_index.old) formula.now place) answer.old) answer.old }
    ensures index_after { index.new ≡ if_space answer_space answer.old (index_after style table.now client.now index.old client_index.old) index.old }
    ensures client_index_after { client_index.new ≡ if_space answer_space answer.old (client_index_after style table.now client.now index.old client_index.old) client_index.old }
{
    c_why::torfianka_why(
        style,
        table,
        client,
        formula,
        place,
        index,
        client_index,
        answer,
    )
}
