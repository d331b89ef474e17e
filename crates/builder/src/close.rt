//! Closing an element, and collecting text.
#![tactic(auto, using(crate::proofs::Laws::closing))]

ghost use Rattle.std.specs.Prelude.{◌≡◌, ◌+◌, ◌-◌, ◌≤◌};
ghost use Rattle.elements.specs.Elements.{element_of};
ghost use Rattle.model.specs.Schema.{a_value};
ghost use Rattle.model.specs.Search.{last_under};
ghost use Rattle.builder.specs.Limits.{min_text};
ghost use Rattle.builder.specs.Builder.{close_value, close_by, closed, collect};
ghost use Rattle.builder.specs.internal.Layout.{builder_in, Intact, RoomFor, Turns, Makes, IsCollected, with_last_value, doc_piece, text_at};

use crate::state::{Current, State, Usage};
use crate::work::Work;
use elements::Element;
use entities::decode_room;
use model::view::View;
use model::{Entry, VALUE, put_entry};
use refusals::Refusal;
use texts::{Range, trim_range};

impl<'d, 'a> Work<'d, 'a> {
    /// The position of an enum's last value; `None` if it has none.
    fn last_value(&self, s: State, owner: u32) -> Option<u32>
        requires { Intact self.now s }
        ensures { result ≡ last_under a_value owner (builder_in self.now s).schema.items }
    {
        View::new(s.model(), self.records, self.text).last_under(VALUE, owner)
    }

    /// Makes a range of the text buffer the value of an enum's last value, if it has one.
    fn put_value(&mut self, s: State, owner: u32, value: Range)
        requires { Intact self.old s × (value.from + value.len ≤ min_text) }
        ensures { self.new ≡ with_last_value self.old s owner value }
    {
        if let Some(i) = self.last_value(s, owner) {
            let e = Entry {
                second: value.from as u32,
                slen: value.len as u32,
                ..self.entry(i)
            };
            put_entry(self.records, i, e);
        }
    }

    /// The range of the collected text, trimmed.
    fn collected(&self, s: State) -> Range
        requires { Intact self.now s }
        ensures { IsCollected self.now s result }
    {
        let start = s.usage.collected_from;
        trim_range(self.text, start, s.usage.collected_to - start)
    }

    /// Closes a validValue: the collected text, trimmed, is given to the last value of the current
    /// enum, then emptied, and text is collected no more. The text buffer is not written to.
    fn close_value(&mut self, s: State) -> State
        requires { Intact self.old s }
        ensures is { Turns close_value self.old s 0 self.new result }
        ensures text { self.new.text.now ≡ self.old.text.now }
    {
        let cleared = State {
            usage: Usage {
                collected_from: s.usage.collected_to,
                ..s.usage
            },
            current: Current {
                collecting: false,
                ..s.current
            },
            ..s
        };
        let Some(enumeration) = s.current.enumeration else {
            return cleared;
        };
        let value = self.collected(s);
        self.put_value(s, enumeration, value);
        cleared
    }

    /// Closes the element `e`, whose name is popped already. The text buffer is not written to.
    fn close_by(&mut self, s: State, e: Element) -> State
        requires { Intact self.old s }
        ensures is { Turns (close_by e) self.old s 0 self.new result }
        ensures text { self.new.text.now ≡ self.old.text.now }
    {
        let current = match e {
            Element::ValidValue => {
                return self.close_value(s);
            }
            Element::Composite => Current {
                composite: None,
                ..s.current
            },
            Element::Enum => Current {
                enumeration: None,
                ..s.current
            },
            Element::Message => Current {
                message: None,
                ..s.current
            },
            Element::Group => Current {
                group: None,
                ..s.current
            },
            _ => s.current,
        };
        State { current, ..s }
    }

    /// Takes a close tag of this name and its element, whose `<` is at `place`: pops the innermost
    /// open name. Refused (30) if that is another one. The text buffer is not written to.
    pub fn on_close(
        &mut self,
        s: State,
        place: usize,
        name: Range,
        element: Element,
    ) -> Result<State, Refusal>
        requires { Intact self.old s × (element ≡ element_of (doc_piece self.old name.from name.len)) }
        ensures is { Makes (closed place (doc_piece self.old name.from name.len)) self.old s 0 self.new result }
        ensures text { self.new.text.now ≡ self.old.text.now }
    {
        if !self.is_open(s, name.from, name.len) {
            return Err(Refusal::WrongClose { place });
        }
        Ok(self.close_by(s.popped(), element))
    }

    /// Takes the text of `len` bytes at `from`: while text is collected, appends it, decoded. The
    /// record buffer is not written to.
    pub fn on_text(&mut self, s: State, from: usize, len: usize) -> State
        requires { RoomFor self.old s len }
        ensures is { Turns (collect (text_at self.old from len)) self.old s len self.new result }
        ensures records { self.new.records.now ≡ self.old.records.now }
    {
        if s.current.collecting {
            let n = decode_room(self.doc, from, len, self.text, s.usage.collected_to);
            return State {
                usage: Usage {
                    collected_to: s.usage.collected_to + n,
                    ..s.usage
                },
                ..s
            };
        }
        s
    }
}
