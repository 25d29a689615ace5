// What a row that is being read has to remember: which keywords may come next, and whether an operand has to.

ghost use Rattle.std.specs.Prelude.{◌≡◌};
ghost use Rattle.eqn_check.specs.Stages.{behind_primary, behind_keyword, joined_by, is_wanting, closing_step, end_step, step_of};

use eqn_tokens::tokens::{Keyword, TokenKind};

// What the last operand is: a word or group itself, its subscript or its superscript.
#[derive(Clone, Copy)]
pub enum Role {
    Nucleus,
    Subscript,
    Superscript,
}

// The last of an expression and its limits.
#[derive(Clone, Copy)]
pub enum Limit {
    Unlimited,
    Lower,
    Upper,
}

// A row of which nothing is kept; one that begins; one behind an operand; one behind a keyword, whose operand will have this role.
#[derive(Clone, Copy)]
pub enum Stage {
    Unseen,
    Start,
    Have(Role, Limit),
    Want(Role, Limit),
}

// What a token does: it cannot stand here; it is the end of a text; the row goes on; a row begins in it; it ends.
#[derive(Clone, Copy)]
pub enum Step {
    Stuck,
    Whole,
    On(Stage),
    In,
    Out,
}

// What a token does in a row that stands in so many braces.
pub fn token_step(kind: TokenKind, stage: Stage, depth: usize) -> Step
    ensures { result ≡ step_of kind stage depth }
{
    match kind {
        TokenKind::Word => Step::On(behind_primary(stage)),
        TokenKind::Keyword(keyword) => behind_keyword(keyword, stage),
        TokenKind::Open => Step::In,
        TokenKind::Close => close(stage, depth),
        TokenKind::Other => Step::Stuck,
        TokenKind::End => end(stage, depth),
    }
}

// A row behind a word or a group.
pub fn behind_primary(stage: Stage) -> Stage
    ensures { result ≡ behind_primary stage }
{
    match stage {
        Stage::Unseen => Stage::Unseen,
        Stage::Start | Stage::Have(_, _) => Stage::Have(Role::Nucleus, Limit::Unlimited),
        Stage::Want(role, limit) => Stage::Have(role, limit),
    }
}

// What a keyword does.
fn behind_keyword(keyword: Keyword, stage: Stage) -> Step
    ensures { result ≡ behind_keyword keyword stage }
{
    match stage {
        Stage::Unseen => Step::On(Stage::Unseen),
        Stage::Have(role, limit) => joined(keyword, role, limit),
        Stage::Start | Stage::Want(_, _) => Step::Stuck,
    }
}

// What a keyword does behind an operand: `sub` comes before `sup`, `from` before `to`, each at most once.
fn joined(keyword: Keyword, role: Role, limit: Limit) -> Step
    ensures { result ≡ joined_by keyword role limit }
{
    match keyword {
        Keyword::Sub => match role {
            Role::Nucleus => Step::On(Stage::Want(Role::Subscript, limit)),
            Role::Subscript | Role::Superscript => Step::Stuck,
        },
        Keyword::Sup => match role {
            Role::Nucleus | Role::Subscript => Step::On(Stage::Want(Role::Superscript, limit)),
            Role::Superscript => Step::Stuck,
        },
        Keyword::Over => Step::On(Stage::Want(Role::Nucleus, limit)),
        Keyword::From => match limit {
            Limit::Unlimited => Step::On(Stage::Want(Role::Nucleus, Limit::Lower)),
            Limit::Lower | Limit::Upper => Step::Stuck,
        },
        Keyword::To => match limit {
            Limit::Unlimited | Limit::Lower => Step::On(Stage::Want(Role::Nucleus, Limit::Upper)),
            Limit::Upper => Step::Stuck,
        },
    }
}

// What a closing brace does.
fn close(stage: Stage, depth: usize) -> Step
    ensures { result ≡ closing_step stage depth }
{
    if depth == 0 || is_wanting(stage) {
        return Step::Stuck;
    }
    Step::Out
}

// What the end does.
fn end(stage: Stage, depth: usize) -> Step
    ensures { result ≡ end_step stage depth }
{
    if depth != 0 || is_wanting(stage) {
        return Step::Stuck;
    }
    Step::Whole
}

fn is_wanting(stage: Stage) -> bool
    ensures { result ≡ is_wanting stage }
{
    matches!(stage, Stage::Want(_, _))
}
