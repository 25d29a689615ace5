// A pass over a text that keeps the rows of some levels of braces: those from `base` on, LEVELS of them. What it does not keep passes.

ghost use Rattle.std.specs.Prelude.{◌≡◌};
ghost use Rattle.eqn_check.specs.Windows.{slot_of, fresh_of, Passed};

use crate::StuckAt;
use crate::stages::{Stage, Step, behind_primary, token_step};
use eqn_tokens::tokens::token_at;

// A text takes one pass more for each so many levels that it is deeper than the first of them.
pub const LEVELS: usize = 4096;

// One more, for all levels that are not kept: it holds `Unseen`.
const SLOTS: usize = LEVELS + 1;

// The first place that a pass finds fault with, and the deepest level that it came to.
#[derive(Clone, Copy)]
pub struct PassResult {
    pub fault: Result<(), StuckAt>,
    pub deepest: usize,
}

// A level's place among those that are kept, or behind them, where all others share one.
fn slot(base: usize, level: usize) -> usize
    ensures { result ≡ slot_of base level }
{
    if level < base {
        return LEVELS;
    }
    if level - base < LEVELS {
        return level - base;
    }
    LEVELS
}

// A row that begins.
fn fresh(base: usize, level: usize) -> Stage
    ensures { result ≡ fresh_of base level }
{
    if slot(base, level) < LEVELS {
        return Stage::Start;
    }
    Stage::Unseen
}

// Goes through a text up to the first fault in the levels from a base on, or with the braces.
pub fn pass(text: &[u8], base: usize) -> PassResult
    ensures { Passed text.now base result }
{
    let mut stages = [Stage::Unseen; SLOTS];
    let mut stage = fresh(base, 0);
    let mut depth: usize = 0;
    let mut deepest: usize = 0;
    let mut at: usize = 0;
    // No count: a token ends where the look for the next one starts.
    loop {
        let token = token_at(text, at);
        match token_step(token.kind, stage, depth) {
            Step::Stuck => {
                let fault = Err(StuckAt { place: token.start });
                return PassResult { fault, deepest };
            }
            Step::Whole => {
                let fault = Ok(());
                return PassResult { fault, deepest };
            }
            Step::On(next) => stage = next,
            Step::In => {
                let i = slot(base, depth);
                stages[i] = behind_primary(stage);
                depth += 1;
                deepest = deepest.max(depth);
                stage = fresh(base, depth);
            }
            Step::Out => {
                depth -= 1;
                let i = slot(base, depth);
                stage = stages[i];
            }
        }
        at = token.end;
    }
}
