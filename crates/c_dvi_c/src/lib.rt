// What C links for DVI: the calls of crate c_dvi under the names of include/torfianka.h, with the same clauses. They are a static library of
// their own, as each group of calls is.

#![tactic(auto)]

ghost use Rattle.std.specs.Prelude.{◌≡◌, length};
ghost use Rattle.dvi.specs.declared.forms.Form.TheVariants.{Stored, Body};
ghost use Rattle.dvi.specs.Answers.{answering, buffer_after};
ghost use Rattle.c_words.specs.Words.{no_answer, report_space, report_words, if_space};

// Writes nodes as a page's body.
#[unsafe(no_mangle)]
pub extern "C" fn torfianka_dvi_write(nodes: &[u8], body: &mut [u8], answer: &mut [i64]) -> u8
    ensures value { result ≡ if_space report_space answer.old (answering Stored nodes.now (length body.old)).number no_answer }
    ensures answer_after { answer.new ≡ if_space report_space answer.old (report_words (answering Stored nodes.now (length body.old)) answer.old) answer.old }
    ensures body_after { body.new ≡ if_space report_space answer.old (buffer_after Stored nodes.now body.old) body.old }
{
    c_dvi::torfianka_dvi_write(nodes, body, answer)
}

// Reads the nodes back from a page's body.
#[unsafe(no_mangle)]
pub extern "C" fn torfianka_dvi_read(body: &[u8], nodes: &mut [u8], answer: &mut [i64]) -> u8
    ensures value { result ≡ if_space report_space answer.old (answering Body body.now (length nodes.old)).number no_answer }
    ensures answer_after { answer.new ≡ if_space report_space answer.old (report_words (answering Body body.now (length nodes.old)) answer.old) answer.old }
    ensures nodes_after { nodes.new ≡ if_space report_space answer.old (buffer_after Body body.now nodes.old) nodes.old }
{
    c_dvi::torfianka_dvi_read(body, nodes, answer)
}
