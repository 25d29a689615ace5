// The parts of a formula, from a list down to a symbol, and the text of each. Each function is lent the slice of its part.

ghost use Rattle.std.specs.Prelude.{◌≡◌, ◌&&◌, ◌+◌, ◌*◌, ◌≤◌, length};
ghost use Rattle.eqn_tokens.specs.Tokens.{keyword_of};
ghost use Rattle.eqn_names.specs.Names.{asked_as};
ghost use Rattle.formula.specs.Heads.{is_empty};
ghost use Rattle.formula.specs.Places.{Readable, head_at, field_end};
ghost use Rattle.eqn_write.specs.Values.{text_limit, takes_group, HasNames, PutWithin, ListPut};
ghost use Rattle.eqn_write.specs.Writes.{FieldAsked, ScriptAsked, TwoAsked, ThreeAsked, ItemAsked, GroupAsked};
ghost use Rattle.eqn_write.specs.Writes.{NamePut, GroupPut, FieldPut, BehindPut, ScriptPut, FractionPut, ScriptedPut, ItemPut};

use crate::forms::{ItemForm, form_of};
use crate::tokens::put_token;
use eqn_names::first_for;
use formula::{FieldHead, Kind, ORD, Opening};
use formula_fields::{field_end, field_head, fields_end, is_empty};
use formula_kinds::opening_bytes;
use formula_openings::opening;

// The items of a list, one behind the other.
#[cycle(writing)]
pub fn put_list(names: &[u8], s: &[u8], out: &mut [u8], at: usize) -> Option<usize>
    requires { HasNames names.now × Readable s.now × (at + 16 * length s.now ≤ text_limit) }
    ensures put_within { PutWithin at (length s.now) result }
    ensures list_put { ListPut names.now s.now at out.old out.new result }
{
    // No `for`: an item's size is known once it has been read.
    let mut from: usize = 0;
    let mut end = at;
    while from < s.len() {
        let Opening::Fields(kind) = opening(&s[from..]) else {
            return None;
        };
        end = put_item(names, &s[from..], kind, out, end)?;
        from += fields_end(&s[from..], kind);
    }
    Some(end)
}

// An item, whose first byte is the first of s.
#[cycle(writing)]
fn put_item(names: &[u8], s: &[u8], kind: Kind, out: &mut [u8], at: usize) -> Option<usize>
    requires { ItemAsked names.now s.now kind at }
    ensures { ItemPut names.now s.now kind at out.old out.new result }
{
    let first = opening_bytes(kind);
    match form_of(kind) {
        ItemForm::PlainAtom(class) => {
            put_scripted(
                names,
                s,
                first,
                Some(u8::from(class)),
                b"sub",
                b"sup",
                out,
                at,
            )
        }
        ItemForm::Operator => {
            if has_no_scripts(s, first) {
                return None;
            }
            put_scripted(names, s, first, None, b"from", b"to", out, at)
        }
        ItemForm::Barred => put_fraction(names, s, first, out, at),
        ItemForm::Unmade => None,
    }
}

// Whether the two fields behind the first are empty.
fn has_no_scripts(s: &[u8], first: usize) -> bool
    requires { first ≤ length s.now }
    ensures { result ≡ (is_empty (head_at s.now (field_end s.now first)) && is_empty (head_at s.now (field_end s.now (field_end s.now first)))) }
{
    let second = field_end(s, first);
    let third = field_end(s, second);
    is_empty(&s[second..]) & is_empty(&s[third..])
}

// A nucleus, and its scripts or limits, the lower before the upper, each behind its keyword.
#[cycle(writing)]
fn put_scripted(
    names: &[u8],
    s: &[u8],
    first: usize,
    class: Option<u8>,
    lower: &[u8],
    upper: &[u8],
    out: &mut [u8],
    at: usize,
) -> Option<usize>
    requires { ThreeAsked names.now s.now first lower.now upper.now at }
    ensures { ScriptedPut names.now s.now first (keyword_of lower.now) (keyword_of upper.now) (asked_as class) at out.old out.new result }
{
    let second = field_end(s, first);
    let third = field_end(s, second);
    let behind = put_operand(names, &s[first..], class, out, at)?;
    let next = put_script(names, &s[third..], lower, out, behind)?;
    put_script(names, &s[second..], upper, out, next)
}

// Numerator and denominator.
#[cycle(writing)]
fn put_fraction(names: &[u8], s: &[u8], first: usize, out: &mut [u8], at: usize) -> Option<usize>
    requires { TwoAsked names.now s.now first at }
    ensures { FractionPut names.now s.now first at out.old out.new result }
{
    let second = field_end(s, first);
    let next = put_operand(names, &s[first..], None, out, at)?;
    put_behind(names, &s[second..], b"over", out, next)
}

// A field behind a keyword; an empty one gives nothing.
#[cycle(writing)]
fn put_script(names: &[u8], s: &[u8], keyword: &[u8], out: &mut [u8], at: usize) -> Option<usize>
    requires { ScriptAsked names.now s.now keyword.now at }
    ensures { ScriptPut names.now s.now (keyword_of keyword.now) at out.old out.new result }
{
    if is_empty(s) {
        return Some(at);
    }
    put_behind(names, s, keyword, out, at)
}

// A keyword, and a field.
#[cycle(writing)]
fn put_behind(names: &[u8], s: &[u8], keyword: &[u8], out: &mut [u8], at: usize) -> Option<usize>
    requires { ScriptAsked names.now s.now keyword.now at }
    ensures { BehindPut names.now s.now (keyword_of keyword.now) at out.old out.new result }
{
    let next = put_token(out, at, keyword);
    put_operand(names, s, None, out, next)
}

// A field that is not empty: a symbol's name, or a list in braces. For a class only a name of that class will do, and braces are an Ord.
#[cycle(writing)]
fn put_operand(
    names: &[u8],
    s: &[u8],
    class: Option<u8>,
    out: &mut [u8],
    at: usize,
) -> Option<usize>
    requires { FieldAsked names.now s.now at }
    ensures { FieldPut names.now s.now (asked_as class) at out.old out.new result }
{
    match field_head(s) {
        FieldHead::Symbol(family, code) => put_name(names, family, code, class, out, at),
        FieldHead::Sublist(opening, n) => {
            if !takes_group(class) {
                return None;
            }
            let end = opening + n;
            put_group(names, &s[opening..end], out, at)
        }
        _ => None,
    }
}

// Whether a list in braces will do for a class, or for any.
fn takes_group(class: Option<u8>) -> bool
    ensures { result ≡ takes_group class }
{
    class.is_none_or(|k| k == ORD)
}

// The first name of a symbol.
fn put_name(
    names: &[u8],
    family: u8,
    code: u8,
    class: Option<u8>,
    out: &mut [u8],
    at: usize,
) -> Option<usize>
    requires { HasNames names.now × (at + 33 ≤ text_limit) }
    ensures { NamePut names.now family code (asked_as class) at out.old out.new result }
{
    let range = first_for(names, family, code, class)?;
    Some(put_token(out, at, &names[range.start..range.end]))
}

// A list in braces.
#[cycle(writing)]
fn put_group(names: &[u8], s: &[u8], out: &mut [u8], at: usize) -> Option<usize>
    requires { GroupAsked names.now s.now at }
    ensures { GroupPut names.now s.now at out.old out.new result }
{
    let inside = put_token(out, at, b"{");
    let behind = put_list(names, s, out, inside)?;
    Some(put_token(out, behind, b"}"))
}
