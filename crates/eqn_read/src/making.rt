// The parts of a text, from a row down to a word, and the bytes that each means. Each function is lent the slice of its part.

ghost use Rattle.std.specs.Prelude.{◌≡◌, [], ◌∷◌, ◌+◌, ◌≤◌};
ghost use Rattle.std.proofs.lemmas.List.Edits.{sets};
ghost use Rattle.eqn_tokens.specs.Tokens.{tokens_in};
ghost use Rattle.formula.specs.Format.{formula_limit};
ghost use Rattle.eqn_stores.specs.Values.{Ends};
ghost use Rattle.eqn_read.specs.Values.{is_bare, found_family, found_code, Onward, RowMade, ItemMade, OverMade, AtomMade, OperandMade, ScriptMade, FieldsMade, PrimaryMade, ClassFound};

use eqn_cuts::{expression_end, last_outside, last_token};
use eqn_names::{NameIndex, Symbol};
use eqn_stores::{close_list, put_bytes, up_to};
use eqn_tokens::tokens::{Keyword, TokenKind, token_at};
use formula::{
    ALWAYS, ATOM_FIRST, ATOM_SECOND, DEFAULT_BAR, DISPLAY_ONLY, EMPTY_KIND, FRACTION_FIRST,
    FRACTION_SECOND, OP, ORD, SHORT_OPENING_BYTES, SYMBOL_KIND,
};

// The expressions of a row, one behind the other; `levels` is how many levels of lists may still be entered below it.
#[cycle(making)]
pub fn put_row(
    index: &NameIndex<'_>,
    s: &[u8],
    levels: usize,
    out: &mut [u8],
    at: usize,
) -> Option<usize>
    requires { at ≤ formula_limit + 3 }
    ensures onward { Onward at result }
    ensures row_made { RowMade index.now s.now levels at out.old out.new result }
{
    let mut from: usize = 0;
    let mut end = at;
    // No count: an expression ends where the next one starts.
    while from < s.len() {
        if token_at(s, from).kind == TokenKind::End {
            return up_to(end);
        }
        let behind = expression_end(s, from);
        end = put_item(index, &s[from..behind], levels, out, end)?;
        from = behind;
    }
    up_to(end)
}

// An expression as an item: with limits behind `from` and `to`, or without.
#[cycle(making)]
fn put_item(
    index: &NameIndex<'_>,
    s: &[u8],
    levels: usize,
    out: &mut [u8],
    at: usize,
) -> Option<usize>
    requires { at ≤ formula_limit + 3 }
    ensures onward { Onward at result }
    ensures item_made { ItemMade index.now s.now levels at out.old out.new result }
{
    let to = last_outside(s, Keyword::To);
    let from = last_outside(&s[..to.start], Keyword::From);
    if from.start == s.len() {
        return put_over(index, s, levels, out, at);
    }
    let next = put_bytes(out, at, &[ATOM_FIRST, ATOM_SECOND, OP, ALWAYS])?;
    put_fields(
        index,
        &s[..from.start],
        &s[to.end..],
        &s[from.end..to.start],
        levels,
        out,
        next,
    )
}

// An expression without limits as an item: a fraction, or an atom.
#[cycle(making)]
fn put_over(
    index: &NameIndex<'_>,
    s: &[u8],
    levels: usize,
    out: &mut [u8],
    at: usize,
) -> Option<usize>
    requires { at ≤ formula_limit + 3 }
    ensures onward { Onward at result }
    ensures over_made { OverMade index.now s.now levels at out.old out.new result }
{
    let over = last_outside(s, Keyword::Over);
    if over.start == s.len() {
        return put_atom(index, s, levels, out, at);
    }
    let next = put_bytes(out, at, &[FRACTION_FIRST, FRACTION_SECOND, DEFAULT_BAR])?;
    let end = put_operand(index, &s[..over.start], levels, out, next)?;
    put_operand(index, &s[over.end..], levels, out, end)
}

// A word or a group with its scripts as an item.
#[cycle(making)]
fn put_atom(
    index: &NameIndex<'_>,
    s: &[u8],
    levels: usize,
    out: &mut [u8],
    at: usize,
) -> Option<usize>
    requires { at ≤ formula_limit + 3 }
    ensures onward { Onward at result }
    ensures atom_made { AtomMade index.now s.now levels at out.old out.new result }
{
    let sup = last_outside(s, Keyword::Sup);
    let sub = last_outside(&s[..sup.start], Keyword::Sub);
    let class = class_of(index, &s[..sub.start]);
    let next = put_bytes(out, at, &[ATOM_FIRST, ATOM_SECOND, class, DISPLAY_ONLY])?;
    put_fields(
        index,
        &s[..sub.start],
        &s[sup.end..],
        &s[sub.end..sup.start],
        levels,
        out,
        next,
    )
}

// The class of an atom: its word's, or Ord for a group.
fn class_of(index: &NameIndex<'_>, s: &[u8]) -> u8
    ensures { ClassFound index.now s.now result }
{
    let token = token_at(s, 0);
    if token.kind != TokenKind::Word {
        return ORD;
    }
    match index.find(&s[token.start..token.end]) {
        Some(symbol) => symbol.class,
        None => ORD,
    }
}

// Nucleus, superscript and subscript as fields; a slice without bytes is an empty one.
#[cycle(making)]
fn put_fields(
    index: &NameIndex<'_>,
    nucleus: &[u8],
    superscript: &[u8],
    subscript: &[u8],
    levels: usize,
    out: &mut [u8],
    at: usize,
) -> Option<usize>
    requires { at ≤ formula_limit }
    ensures onward { Onward at result }
    ensures fields_made { FieldsMade index.now nucleus.now superscript.now subscript.now levels at out.old out.new result }
{
    let second = put_operand(index, nucleus, levels, out, at)?;
    let third = put_script(index, superscript, levels, out, second)?;
    put_script(index, subscript, levels, out, third)
}

// A script or a limit as a field, an empty one where the slice has no bytes.
#[cycle(making)]
fn put_script(
    index: &NameIndex<'_>,
    s: &[u8],
    levels: usize,
    out: &mut [u8],
    at: usize,
) -> Option<usize>
    requires { at ≤ formula_limit }
    ensures onward { Onward at result }
    ensures script_made { ScriptMade index.now s.now levels at out.old out.new result }
{
    if s.is_empty() {
        return put_bytes(out, at, &[EMPTY_KIND]);
    }
    put_operand(index, s, levels, out, at)
}

// An expression without limits as an operand: a word or a group by itself, or a list of the item.
#[cycle(making)]
fn put_operand(
    index: &NameIndex<'_>,
    s: &[u8],
    levels: usize,
    out: &mut [u8],
    at: usize,
) -> Option<usize>
    requires { at ≤ formula_limit }
    ensures onward { Onward at result }
    ensures operand_made { OperandMade index.now s.now levels at out.old out.new result }
{
    if is_bare(s) {
        return put_primary(index, s, levels, out, at);
    }
    if levels == 0 {
        return None;
    }
    let end = put_over(index, s, levels - 1, out, at + SHORT_OPENING_BYTES)?;
    close_list(out, at, end)
}

// Whether an expression without limits has no keyword outside braces.
fn is_bare(s: &[u8]) -> bool
    ensures { result ≡ is_bare (tokens_in s.now) }
{
    let over = last_outside(s, Keyword::Over);
    let sup = last_outside(s, Keyword::Sup);
    let sub = last_outside(s, Keyword::Sub);
    (over.start == s.len()) & (sup.start == s.len()) & (sub.start == s.len())
}

// A word or a group as a field.
#[cycle(making)]
fn put_primary(
    index: &NameIndex<'_>,
    s: &[u8],
    levels: usize,
    out: &mut [u8],
    at: usize,
) -> Option<usize>
    requires { at ≤ formula_limit }
    ensures onward { Onward at result }
    ensures primary_made { PrimaryMade index.now s.now levels at out.old out.new result }
{
    let token = token_at(s, 0);
    if token.kind == TokenKind::Word {
        let found = index.find(&s[token.start..token.end]);
        return put_found(found, out, at);
    }
    if levels == 0 {
        return None;
    }
    let inside = token.end;
    let last = inside + last_token(&s[inside..]);
    let end = put_row(
        index,
        &s[inside..last],
        levels - 1,
        out,
        at + SHORT_OPENING_BYTES,
    )?;
    close_list(out, at, end)
}

// The symbol of a word as a field.
fn put_found(found: Option<Symbol>, out: &mut [u8], at: usize) -> Option<usize>
    requires { at ≤ formula_limit + 3 }
    ensures ends { Ends (at + 3) result }
    ensures out_after { out.new ≡ sets out.old at (1 ∷ found_family found ∷ found_code found ∷ []) }
{
    match found {
        Some(symbol) => put_bytes(out, at, &[SYMBOL_KIND, symbol.family, symbol.code]),
        None => put_bytes(out, at, &[SYMBOL_KIND, 0, 0]),
    }
}
