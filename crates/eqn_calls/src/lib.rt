// Typed formulas in the eqn manner, read and written (request 10). What the two calls answer is defined in crate `eqn_meaning`.
// Every refusal is found before anything is written.

#![tactic(auto)]

ghost use Rattle.std.specs.Prelude.{◌≡◌, List, ◌≤◌, length};
ghost use Rattle.formula.specs.Format.{formula_limit};
ghost use Rattle.formula.specs.Places.{Readable, tree_of};
ghost use Rattle.eqn_names.specs.Names.{Name, Records, table_of, names as ofNames};
ghost use Rattle.eqn_names.specs.Firsts.{places, Listed};
ghost use Rattle.eqn_meaning.specs.Meaning.{row_items};
ghost use Rattle.eqn_meaning.specs.Writing.{row_of};
ghost use Rattle.results.specs.Results.{answer_by, buffer_by};
ghost use Rattle.results.specs.Values.{report_as};
ghost use Rattle.eqn_meaning.specs.Answers.{read_result, write_result, no_room};
ghost use Rattle.eqn_write.specs.Values.{HasNames};
ghost use Rattle.eqn_calls.specs.Values.{answered_as, Derives, TestsDone, FormulaSized, TextSized};

use eqn_check::StuckAt;
use eqn_names::{BadRecord, NameIndex, PLACES};
use eqn_read::making::put_row;
use eqn_write::writing::put_list;
use formula::{DEPTH_LIMIT, FaultAt};
use formula_reading::read_formula;
use results::Report;

// How many levels of lists may be entered below the formula itself.
const LEVELS: usize = DEPTH_LIMIT - 1;

// Why nothing was written; a refusal that has a place has it.
#[derive(Clone, Copy, PartialEq, Eq)]
pub enum Refusal {
    UnknownWord(usize),
    OutsideGrammar(usize),
    TooLarge,
    NoRoom,
    BadNames(usize),
    WithoutText,
}

impl From<BadRecord> for Refusal {
    ghost use Rattle.std.specs.Prelude.{◌≡◌};
    ghost use Rattle.eqn_calls.specs.declared.Refusal.TheVariants.{BadNames};

    ghost from_gives = { λ bad refusal. refusal ≡ BadNames bad.place };

    fn from(bad: BadRecord) -> Refusal {
        Refusal::BadNames(bad.place)
    }
}

impl From<StuckAt> for Refusal {
    ghost use Rattle.std.specs.Prelude.{◌≡◌};
    ghost use Rattle.eqn_calls.specs.declared.Refusal.TheVariants.{OutsideGrammar};

    ghost from_gives = { λ stuck refusal. refusal ≡ OutsideGrammar stuck.place };

    fn from(stuck: StuckAt) -> Refusal {
        Refusal::OutsideGrammar(stuck.place)
    }
}

// Bytes that are no formula have no text.
impl From<FaultAt> for Refusal {
    ghost use Rattle.std.specs.Prelude.{◌≡◌};
    ghost use Rattle.eqn_calls.specs.declared.Refusal.TheVariants.{WithoutText};

    ghost from_gives = { λ fault refusal. refusal ≡ WithoutText };

    fn from(_fault: FaultAt) -> Refusal {
        Refusal::WithoutText
    }
}

// Reads typed text into the bytes of a formula.
pub fn read(names: &[u8], text: &[u8], formula: &mut [u8]) -> Result<usize, Refusal>
    ensures result_value { answered_as result ≡ answer_by no_room (length formula.old) (read_result names.now text.now) }
    ensures formula_after { formula.new ≡ buffer_by formula.old (read_result names.now text.now) }
{
    let mut firsts = [0usize; PLACES];
    test(names, text, &mut firsts)?;
    let index = NameIndex {
        names,
        firsts: &firsts,
    };
    let bytes = formula_size(&index, text).ok_or(Refusal::TooLarge)?;
    if formula.len() < bytes {
        return Err(Refusal::NoRoom);
    }
    put_row(&index, text, LEVELS, formula, 0);
    Ok(bytes)
}

// Tests names and text: 20, then 10, then 11; and keeps where the names are looked for.
fn test(names: &[u8], text: &[u8], firsts: &mut [usize; PLACES]) -> Result<(), Refusal>
    requires { length firsts.old ≡ places }
    ensures tests_done { TestsDone names.now text.now result }
    ensures listed { (ns : List Name) → table_of names.now ≡ ofNames ns → Listed names.now firsts.new ns }
{
    eqn_names::index(names, firsts)?;
    let index = NameIndex { names, firsts };
    if let Some(place) = index.first_unknown(text) {
        return Err(Refusal::UnknownWord(place));
    }
    eqn_check::test(text)?;
    Ok(())
}

// How many bytes the formula of a text has: a byte without room is passed over, and counted.
fn formula_size(index: &NameIndex<'_>, text: &[u8]) -> Option<usize>
    ensures { (d : Derives index.now.names.now text.now) → Listed index.now.names.now index.now.firsts.now d.ns → FormulaSized (row_items d.ns d.row) result }
{
    let mut room = [0u8; 1];
    put_row(index, text, LEVELS, &mut room, 0)
}

// Writes the bytes of a formula as typed text.
pub fn write(names: &[u8], formula: &[u8], text: &mut [u8]) -> Result<usize, Refusal>
    ensures result_value { answered_as result ≡ answer_by no_room (length text.old) (write_result names.now formula.now) }
    ensures text_after { text.new ≡ buffer_by text.old (write_result names.now formula.now) }
{
    eqn_names::check(names)?;
    read_formula(formula)?;
    let bytes = text_size(names, formula).ok_or(Refusal::WithoutText)?;
    if text.len() < bytes {
        return Err(Refusal::NoRoom);
    }
    put_list(names, formula, text, 0);
    Ok(bytes)
}

// How many bytes the text of a formula has.
fn text_size(names: &[u8], formula: &[u8]) -> Option<usize>
    requires { HasNames names.now × Readable formula.now × (length formula.now ≤ formula_limit) }
    ensures { (ns : List Name) → Records names.now ns → TextSized (row_of ns (tree_of formula.now)) result }
{
    let mut room = [0u8; 1];
    put_list(names, formula, &mut room, 0)
}

// An answer in numbers.
pub fn report_of(answer: Result<usize, Refusal>) -> Report
    ensures { report_as result ≡ answered_as answer }
{
    match answer {
        Ok(bytes) => results::accepted(bytes),
        Err(Refusal::UnknownWord(place)) => results::refusal(10, place),
        Err(Refusal::OutsideGrammar(place)) => results::refusal(11, place),
        Err(Refusal::TooLarge) => results::refusal(12, 0),
        Err(Refusal::NoRoom) => results::refusal(13, 0),
        Err(Refusal::BadNames(place)) => results::refusal(20, place),
        Err(Refusal::WithoutText) => results::refusal(21, 0),
    }
}
