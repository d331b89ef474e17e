//! Reads a whole document: tests it and the buffers, then hands each event to the builder.
#![tactic(auto, using(crate::proofs::Laws::driving, crate::proofs::Laws::stepping, crate::proofs::Laws::answering))]

ghost use Rattle.std.specs.Prelude.{◌≡◌};
ghost use Rattle.builder.specs.internal.Layout.{Suffice};
ghost use Rattle.xmlschema.specs.Whole.{reading};
ghost use Rattle.xmlschema.specs.Read.{shown, ReadInto};
ghost use Rattle.xmlschema.specs.internal.Driving.{with_state, Takes, Stepped};

use builder::limits::{Limits, MAX_DOCUMENT, MIN_RECORDS, MIN_TEXT};
use builder::state::State;
use builder::work::{Tag, Work};
use model::Model;
use refusals::Refusal;
use saxlite::event::{Event, Told};
use saxlite::reader::Reader;
use texts::ascii_end;

/// What one event makes of the builder's state, by value. Refused with 30 or 32 to 35.
fn step_value(s: State, w: &mut Work<'_, '_>, told: Told) -> Result<State, Refusal>
    requires { Takes w.old s told }
    ensures { Stepped w.old s told w.new result }
{
    let Told {
        event,
        element,
        place,
        noted,
    } = told;
    match event {
        Event::Text(text) => Ok(w.on_text(s, text.from, text.len)),
        Event::Open {
            name,
            attributes,
            next,
        } => w.on_open(
            s,
            Tag {
                place,
                name,
                element,
                attributes,
                next,
                noted,
            },
        ),
        Event::Close { name } => w.on_close(s, place, name, element),
    }
}

/// The builder takes one event and updates its own state.
fn step(s: &mut State, w: &mut Work<'_, '_>, told: Told) -> Result<(), Refusal>
    requires { Takes w.old s.old told }
    ensures { Stepped w.old s.old told w.new (with_state s.new result) }
{
    *s = step_value(*s, w, told)?;
    Ok(())
}

/// Reads a document that is tested already, as the buffers are. Refused with 11 to 20, 30 to 35.
#[inline(never)]
fn read_tested(l: Limits, doc: &[u8], rec: &mut [u32], text: &mut [u8]) -> Result<Model, Refusal>
    requires { Suffice doc.now rec.old text.old }
    ensures { shown result rec.new text.new ≡ reading l doc.now }
{
    let mut work = Work::new(l, doc, rec, text);
    let mut state = State::new();
    let mut reader = Reader::new(doc);
    while let Some(told) = reader.next()? {
        step(&mut state, &mut work, told)?;
    }
    if 0 < state.depth() {
        return Err(Refusal::OpenElements { place: doc.len() });
    }
    Ok(state.model())
}

/// Reads a document of any bytes. Refused, in this order, with 1, 2, 10, then 11 to 20, 30 and 32
/// to 35 as it is read, then 31. If it is accepted, the two buffers hold the model, which the
/// accessors of `model` show; if one of them is too short, nothing is written to either.
pub fn read_schema(doc: &[u8], rec: &mut [u32], text: &mut [u8]) -> Result<Model, Refusal>
    ensures { ReadInto doc.now rec.old text.old result rec.new text.new }
{
    if MAX_DOCUMENT < doc.len() {
        return Err(Refusal::TooLong);
    }
    if rec.len() < MIN_RECORDS {
        return Err(Refusal::NoWorkSpace);
    }
    if text.len() < MIN_TEXT {
        return Err(Refusal::NoWorkSpace);
    }
    let at = ascii_end(doc);
    if at < doc.len() {
        return Err(Refusal::NotAscii { at });
    }
    read_tested(Limits::highest(), doc, rec, text)
}
