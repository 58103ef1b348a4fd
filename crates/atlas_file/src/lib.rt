// The atlas file (document 01, 'The atlas file'): the reader's step from record to record, and reading through.
//
// A function whose name ends in _unchecked is not offered to callers, as in trig.

#![tactic(auto)]

mod reading;

ghost use Rattle.std.specs.Prelude.{◌≡◌, true, [], ◌+◌, ◌<◌, length, get_or, drop, Ok};
ghost use Rattle.refusal.specs.Numbers.{accepted};
ghost use Rattle.refusal.specs.Rules.{in_order, all_hold};
ghost use Rattle.sheet.specs.Sheets.{passes_checks, reply_of};
ghost use Rattle.records.specs.Records.{layout_of, IsRecord};
ghost use Rattle.records.specs.declared.Record.TheVariants as records;
ghost use Rattle.place.specs.Places.{place_reply};
ghost use Rattle.atlas_file.specs.Steps.{most_places, at_record, due_rules, sheet_step, place_step, end_step, content_step, record_step, step_of, step_reply_of, step_reply};

use place::Place;
pub use reading::{Atlas, FileRefusal, read_through, start};
use records::Record;
use refusal::Refusal;
use sheet::{CheckedSheet, Sheet};

// A file has up to this many places.
pub const MOST_PLACES: usize = 1000;

// Where a reader stands.
#[derive(Clone, Copy)]
pub struct State {
    // The position of the next record's kind byte.
    pub at: usize,
    // Whether the sheet is read, and the sheet. No Option: after a refusal the state is given as it was, the numbers of a sheet that is not read
    // with it, by the contract of test_interface's melgoweth_test_step.
    pub sheet_read: bool,
    pub sheet: Sheet,
    // How many places are read, and the id of the last.
    pub count: usize,
    pub last_id: u32,
    // How many places the caller's table can hold.
    pub room: usize,
}

// What a step finds.
#[derive(Clone, Copy)]
pub enum Found {
    Sheet(Sheet),
    Place(Place),
    End { count: usize },
}

// A step that is not refused: what it finds, and where the reader stands then, past the sheet or the place; at the end, where it stood.
#[derive(Clone, Copy)]
pub struct Advance {
    pub found: Found,
    pub next: State,
}

impl State {
    // An answer about the record at which it stands: a refusal has the offset of the record's kind byte.
    fn here<T>(self, answer: Result<T, Refusal>) -> Result<T, FileRefusal>
        ensures { result ≡ at_record self answer }
    {
        match answer {
            Ok(found) => Ok(found),
            Err(refusal) => Err(FileRefusal {
                refusal,
                offset: self.at,
            }),
        }
    }
}

// Reads the record at a state, which may be any: 1, 2, 10, 1; a sheet 4, 5; a place 6, 7, 8, 14; the end 9, 3.
pub fn step(bytes: &[u8], state: State) -> Result<Advance, FileRefusal>
    ensures { step_reply_of state result ≡ step_reply bytes.now state }
{
    step_unchecked(bytes, state, false)
}

// The same; where `checked` is set, the state's sheet passes its checks and is not checked again. No plainer with the check as a closure, which
// may be called only once the sheet is read, so that each function below would carry two clauses about it, nor with a struct of the state and the
// flag, which each would take apart.
fn step_unchecked(bytes: &[u8], state: State, checked: bool) -> Result<Advance, FileRefusal>
    requires { checked ≡ true → passes_checks state.sheet ≡ true }
    ensures { result ≡ step_of bytes.now state }
{
    if bytes.len() <= state.at {
        return state.here(Err(Refusal::Cut));
    }
    let record = state.here(Record::try_from(bytes[state.at]))?;
    record_step(bytes, state, checked, record)
}

// The record whose kind is known.
fn record_step(
    bytes: &[u8],
    state: State,
    checked: bool,
    which: Record,
) -> Result<Advance, FileRefusal>
    requires sheet_value { checked ≡ true → passes_checks state.sheet ≡ true }
    requires at_in_bounds { state.at < length bytes.now }
    requires at_value { layout_of (get_or bytes.now state.at 0) ≡ Ok which }
    ensures { result ≡ record_step which (drop state.at bytes.now) state }
{
    state.here(due(state, which))?;
    let body = which.body();
    if bytes.len() - state.at <= body {
        return state.here(Err(Refusal::Cut));
    }
    let end = state.at + 1 + body;
    let more = end < bytes.len();
    content_step(&bytes[state.at..end], end, more, state, checked, which)
}

// Whether a record is due at a state (2), and a place has room (10).
#[tactic(auto, unfolding(crate::specs::Steps::due_rules))]
fn due(state: State, which: Record) -> Result<(), Refusal>
    ensures { reply_of result ≡ in_order 0 (due_rules which state) (accepted []) }
{
    match which {
        Record::Sheet if state.sheet_read => Err(Refusal::Kind),
        Record::Sheet => Ok(()),
        _ if !state.sheet_read => Err(Refusal::Kind),
        Record::Place if (MOST_PLACES <= state.count) | (state.room <= state.count) => {
            Err(Refusal::NoRoom)
        }
        Record::Place | Record::End => Ok(()),
    }
}

// A record that is whole and due, by its bytes; it ends at `end`, and `more` says whether bytes follow it. (No plainer with a type for a record's
// bytes and its end: three of the four functions that take both would take it apart for a line.)
#[tactic(auto, unfolding(crate::specs::Steps::content_step))]
fn content_step(
    bytes: &[u8],
    end: usize,
    more: bool,
    state: State,
    checked: bool,
    which: Record,
) -> Result<Advance, FileRefusal>
    requires sheet_value { checked ≡ true → passes_checks state.sheet ≡ true }
    requires fact { IsRecord which bytes.now }
    requires end_value { end ≡ state.at + length bytes.now }
    requires state_value { all_hold (due_rules which state) ≡ true }
    ensures { result ≡ content_step which bytes.now more state }
{
    match which {
        Record::Sheet => sheet_step(bytes, end, state),
        Record::Place => place_step(bytes, end, state, checked),
        Record::End => end_step(bytes, end, more, state),
    }
}

// A sheet: 4, 5.
fn sheet_step(bytes: &[u8], end: usize, state: State) -> Result<Advance, FileRefusal>
    requires fact { IsRecord records.Sheet bytes.now }
    requires end_value { end ≡ state.at + length bytes.now }
    ensures { result ≡ sheet_step bytes.now state }
{
    let sheet = records::decode_sheet_unchecked(bytes);
    state.here(sheet::check(sheet))?;
    Ok(Advance {
        found: Found::Sheet(sheet),
        next: State {
            at: end,
            sheet_read: true,
            sheet,
            ..state
        },
    })
}

// A place: 6, 7, 8, 14.
fn place_step(bytes: &[u8], end: usize, state: State, checked: bool) -> Result<Advance, FileRefusal>
    requires sheet_value { checked ≡ true → passes_checks state.sheet ≡ true }
    requires fact { IsRecord records.Place bytes.now }
    requires end_value { end ≡ state.at + length bytes.now }
    requires count_lt_most_places { state.count < most_places }
    ensures { result ≡ place_step bytes.now state }
{
    let place = records::decode_place_unchecked(bytes);
    state.here(verdict_for(state, checked, place))?;
    Ok(Advance {
        found: Found::Place(place),
        next: State {
            at: end,
            count: state.count + 1,
            last_id: place.id,
            ..state
        },
    })
}

// The check of the next place at a state.
fn verdict_for(state: State, checked: bool, place: Place) -> Result<(), Refusal>
    requires { checked ≡ true → passes_checks state.sheet ≡ true }
    ensures { reply_of result ≡ place_reply state.sheet state.count state.last_id place }
{
    if checked {
        let checked = CheckedSheet { sheet: state.sheet };
        place::check_place_on(checked, state.count, state.last_id, place)
    } else {
        place::check_place(state.sheet, state.count, state.last_id, place)
    }
}

// The end: 9, then 3.
#[tactic(auto, unfolding(crate::specs::Steps::end_step))]
fn end_step(bytes: &[u8], end: usize, more: bool, state: State) -> Result<Advance, FileRefusal>
    requires fact { IsRecord records.End bytes.now }
    requires end_value { end ≡ state.at + length bytes.now }
    ensures { result ≡ end_step bytes.now more state }
{
    let count = records::decode_end_unchecked(bytes) as usize;
    if count != state.count {
        return state.here(Err(Refusal::EndCount));
    }
    if more {
        return Err(FileRefusal {
            refusal: Refusal::TrailingBytes,
            offset: end,
        });
    }
    Ok(Advance {
        found: Found::End { count },
        next: state,
    })
}
