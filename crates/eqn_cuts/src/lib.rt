// Where typed text is cut (request 10): at a keyword that stands in no braces, behind its first expression, before its last token.

#![tactic(auto)]

ghost use Rattle.std.specs.Prelude.{◌≡◌, ◌-◌, ◌^◌, ◌≤◌, ◌<◌, length};
ghost use Rattle.eqn_grammar.specs.Splits.{level_after, is_this_keyword, begins_operand, ends_operand};
ghost use Rattle.eqn_cuts.specs.Values.{kind_token, SplitAt, ExpressionEnds, LastStarts};

use eqn_tokens::tokens::{Keyword, TokenKind, token_at};

// The places where a keyword starts and ends; both are the end of the text where there is none, so that what stands before it and behind it
// are slices in either case.
#[derive(Clone, Copy, PartialEq, Eq)]
pub struct Split {
    pub start: usize,
    pub end: usize,
}

// The last of a keyword that stands in no braces.
pub fn last_outside(s: &[u8], keyword: Keyword) -> Split
    ensures { SplitAt s.now keyword result }
{
    let mut at: usize = 0;
    let mut level: usize = 0;
    let mut start = s.len();
    let mut end = s.len();
    // No count: a token ends where the look for the next one starts.
    while at < s.len() {
        let token = token_at(s, at);
        if (level == 0) & is_this_keyword(token.kind, keyword) {
            start = token.start;
            end = token.end;
        }
        level = level_after(level, token.kind);
        at = token.end;
    }
    Split { start, end }
}

// The place behind the first expression from a place on.
pub fn expression_end(s: &[u8], from: usize) -> usize
    requires { from ≤ length s.now }
    ensures { ExpressionEnds s.now from result }
{
    let mut at = from;
    let mut level: usize = 0;
    let mut ended = false;
    // No count: a token ends where the look for the next one starts.
    while at < s.len() {
        let token = token_at(s, at);
        if ended & begins_operand(token.kind) {
            return at;
        }
        level = level_after(level, token.kind);
        ended = (level == 0) & ends_operand(token.kind);
        at = token.end;
    }
    at
}

// The place of the last token; 0 where there is none.
pub fn last_token(s: &[u8]) -> usize
    ensures { LastStarts s.now result }
{
    let mut at: usize = 0;
    let mut last: usize = 0;
    // No count: a token ends where the look for the next one starts.
    while at < s.len() {
        let token = token_at(s, at);
        if token.kind == TokenKind::End {
            return last;
        }
        last = token.start;
        at = token.end;
    }
    last
}

// How many braces are open behind a token.
fn level_after(level: usize, kind: TokenKind) -> usize
    requires { level < 2 ^ 64 - 1 }
    ensures { result ≡ level_after level (kind_token kind) }
{
    match kind {
        TokenKind::Open => level + 1,
        TokenKind::Close => level.saturating_sub(1),
        _ => level,
    }
}

fn is_this_keyword(kind: TokenKind, keyword: Keyword) -> bool
    ensures { result ≡ is_this_keyword keyword (kind_token kind) }
{
    kind == TokenKind::Keyword(keyword)
}

fn begins_operand(kind: TokenKind) -> bool
    ensures { result ≡ begins_operand (kind_token kind) }
{
    matches!(kind, TokenKind::Word | TokenKind::Open)
}

fn ends_operand(kind: TokenKind) -> bool
    ensures { result ≡ ends_operand (kind_token kind) }
{
    matches!(kind, TokenKind::Word | TokenKind::Close)
}
