// The calls for C that write nodes as the body of a page of DVI and read them back (include/torfianka.h), which crate c_dvi_c exports. What they
// give is defined in specs/Words.antt of crate c_words. Two calls that look alike, since C links each by its name.

#![tactic(auto)]

ghost use Rattle.std.specs.Prelude.{◌≡◌, length};
ghost use Rattle.dvi.specs.declared.forms.Form.TheVariants.{Stored, Body};
ghost use Rattle.dvi.specs.Answers.{answering, buffer_after};
ghost use Rattle.c_words.specs.Words.{no_answer, report_space, report_words, if_space};

use c_words::{NO_ANSWER, REPORT_SPACE, put_report};
use dvi_calls::report_of;

// Writes nodes as a page's body.
pub fn torfianka_dvi_write(nodes: &[u8], body: &mut [u8], answer: &mut [i64]) -> u8
    ensures value { result ≡ if_space report_space answer.old (answering Stored nodes.now (length body.old)).number no_answer }
    ensures answer_after { answer.new ≡ if_space report_space answer.old (report_words (answering Stored nodes.now (length body.old)) answer.old) answer.old }
    ensures body_after { body.new ≡ if_space report_space answer.old (buffer_after Stored nodes.now body.old) body.old }
{
    if answer.len() < REPORT_SPACE {
        return NO_ANSWER;
    }
    put_report(report_of(dvi_calls::write(nodes, body)), answer)
}

// Reads the nodes back from a page's body.
pub fn torfianka_dvi_read(body: &[u8], nodes: &mut [u8], answer: &mut [i64]) -> u8
    ensures value { result ≡ if_space report_space answer.old (answering Body body.now (length nodes.old)).number no_answer }
    ensures answer_after { answer.new ≡ if_space report_space answer.old (report_words (answering Body body.now (length nodes.old)) answer.old) answer.old }
    ensures nodes_after { nodes.new ≡ if_space report_space answer.old (buffer_after Body body.now nodes.old) nodes.old }
{
    if answer.len() < REPORT_SPACE {
        return NO_ANSWER;
    }
    put_report(report_of(dvi_calls::read(body, nodes)), answer)
}
