// The tokens of typed text.

ghost use Rattle.std.specs.Prelude.{◌≡◌, ℕ, true, false, ◌+◌, ◌≤◌, ◌<◌, length, drop, slice_index};
ghost use Rattle.eqn_tokens.specs.Tokens.{run_length, keyword_of};
ghost use Rattle.eqn_tokens.specs.Values.{TokenAt, kind_as, MarkAs, SeparatorsBefore};

use crate::bytes::{CLOSING_BRACE, OPENING_BRACE, is_separator, is_word_byte};

// The keywords.
#[derive(Clone, Copy, PartialEq, Eq)]
pub enum Keyword {
    Sub,
    Sup,
    Over,
    From,
    To,
}

// What a token is: a word, a keyword, a brace, a byte that can stand in no text; or there is none left.
#[derive(Clone, Copy, PartialEq, Eq)]
pub enum TokenKind {
    Word,
    Keyword(Keyword),
    Open,
    Close,
    Other,
    End,
}

// A token and its bytes' places; where there is none left, both are the end of the text.
#[derive(Clone, Copy)]
pub struct Token {
    pub kind: TokenKind,
    pub start: usize,
    pub end: usize,
}

// The first token from a place on.
pub fn token_at(s: &[u8], at: usize) -> Token
    requires { at ≤ length s.now }
    ensures { TokenAt s.now at result }
{
    let start = behind_separators(s, at);
    if start == s.len() {
        return Token {
            kind: TokenKind::End,
            start,
            end: start,
        };
    }
    let b = s[start];
    if is_word_byte(b) {
        let end = word_end(s, start);
        return Token {
            kind: word_kind(&s[start..end]),
            start,
            end,
        };
    }
    Token {
        kind: mark(b),
        start,
        end: start + 1,
    }
}

// The place behind the separators that stand at a place.
fn behind_separators(s: &[u8], at: usize) -> usize
    requires { at ≤ length s.now }
    ensures { SeparatorsBefore s.now at result }
{
    behind(s, at, is_separator)
}

// The place behind the word that stands at a place.
fn word_end(s: &[u8], at: usize) -> usize
    requires { at ≤ length s.now }
    ensures { result ≡ at + run_length (drop at s.now) }
{
    behind(s, at, is_word_byte)
}

// The place behind the bytes of a kind that stand at a place.
fn behind<F: Fn(u8) -> bool>(s: &[u8], at: usize, is_of_kind: F) -> usize
    requires within { at ≤ length s.now }
    requires callable { F.IsAlwaysCallable is_of_kind }
    ensures range { (at ≤ result) × (result ≤ length s.now) }
    ensures all { (i : ℕ) → at ≤ i → i < result → F.post is_of_kind (slice_index s.now i) true }
    ensures last { result < length s.now → F.post is_of_kind (slice_index s.now result) false }
{
    for i in at..s.len() {
        if !is_of_kind(s[i]) {
            return i;
        }
    }
    s.len()
}

// What a word is.
#[tactic(auto, using(crate::proofs::WordKinds::sub_reads, crate::proofs::WordKinds::sup_reads, crate::proofs::WordKinds::over_reads, crate::proofs::WordKinds::from_reads, crate::proofs::WordKinds::to_reads, crate::proofs::WordKinds::word_reads))]
pub fn word_kind(w: &[u8]) -> TokenKind
    ensures { kind_as result w.now ≡ keyword_of w.now }
{
    match w {
        b"sub" => TokenKind::Keyword(Keyword::Sub),
        b"sup" => TokenKind::Keyword(Keyword::Sup),
        b"over" => TokenKind::Keyword(Keyword::Over),
        b"from" => TokenKind::Keyword(Keyword::From),
        b"to" => TokenKind::Keyword(Keyword::To),
        _ => TokenKind::Word,
    }
}

// What a byte is that is of no word and no separator.
fn mark(b: u8) -> TokenKind
    ensures { MarkAs b result }
{
    match b {
        OPENING_BRACE => TokenKind::Open,
        CLOSING_BRACE => TokenKind::Close,
        _ => TokenKind::Other,
    }
}
