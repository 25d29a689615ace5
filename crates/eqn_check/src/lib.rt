// The test of a text against the grammar (request 10, refusal 11).

#![tactic(auto)]

ghost use Rattle.std.specs.Prelude.{◌≡◌};
ghost use Rattle.eqn_tokens.specs.Tokens.{tokens_in};
ghost use Rattle.eqn_grammar.specs.Parsing.{parse};
ghost use Rattle.eqn_check.specs.Values.{tested_as};
ghost use Rattle.eqn_check.specs.Windows.{earlier_of};

use crate::windows::{LEVELS, pass};

mod stages;
mod windows;

// The place where a text stops being one of the grammar.
#[derive(Clone, Copy, PartialEq, Eq)]
pub struct StuckAt {
    pub place: usize,
}

// Tests a text: a pass for each LEVELS levels of braces that it comes to, and the first of the places that they find.
pub fn test(text: &[u8]) -> Result<(), StuckAt>
    ensures { result ≡ tested_as text.now (parse (tokens_in text.now)) }
{
    let first = pass(text, 0);
    let mut least = first.fault;
    for base in (LEVELS..first.deepest + 1).step_by(LEVELS) {
        least = earlier(least, pass(text, base).fault);
    }
    least
}

fn earlier(a: Result<(), StuckAt>, b: Result<(), StuckAt>) -> Result<(), StuckAt>
    ensures { result ≡ earlier_of a b }
{
    match (a, b) {
        (Ok(()), _) => b,
        (Err(i), Err(j)) if j.place < i.place => b,
        _ => a,
    }
}
