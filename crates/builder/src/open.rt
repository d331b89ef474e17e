//! Opening an element: one function for each, and `on_open`, which chooses.
//!
//! Each promises one equation with the definition of the same name in specs/Builder.antt. An
//! invalid number is refused with 32, an item above the limit with 35.
#![tactic(auto, using(crate::proofs::Laws::opening))]

ghost use Rattle.std.specs.Prelude.{◌≡◌};
ghost use Rattle.elements.specs.Keys.{schema_keys, type_keys, enum_keys, field_keys, keys_of};
ghost use Rattle.builder.specs.Builder.{open_schema, open_type, open_ref, open_composite, open_enum};
ghost use Rattle.builder.specs.Builder.{open_value, open_message, open_group, open_field};
ghost use Rattle.builder.specs.Builder.{open_by, opened};
ghost use Rattle.builder.specs.internal.Layout.{room, RoomFor, KnownTag};
ghost use Rattle.builder.specs.internal.Taking.{name_of, inside, of_name, OpensBy, CanOpen};

use crate::state::{Current, State, Usage};
use crate::take::{Draft, take_value};
use crate::work::{Tag, Work};
use elements::Element;
use model::Head;
use refusals::Refusal;

impl<'d, 'a> Work<'d, 'a> {
    /// messageSchema: sets package, id and version.
    fn open_schema(&mut self, s: State, tag: &Tag) -> Result<State, Refusal>
        requires { CanOpen schema_keys self.old s tag.now }
        ensures { OpensBy (λ l. open_schema) self.old s tag.now self.new result }
    {
        let found = tag.found();
        let id = self.number(s, tag, found.number)?;
        let version = self.number(s, tag, found.second)?;
        let package = take_value(self.doc, found.name, self.text, s.usage.taken_from);
        Ok(State {
            usage: Usage {
                taken_from: package.from,
                ..s.usage
            },
            head: Head {
                name: package.from as u32,
                len: package.len as u32,
                id,
                version,
            },
            ..s
        })
    }

    /// type: adds a type, or inside a composite a member of the current one, if there is one.
    fn open_type(&mut self, s: State, tag: &Tag) -> Result<State, Refusal>
        requires { CanOpen type_keys self.old s tag.now }
        ensures { OpensBy (inside open_type) self.old s tag.now self.new result }
    {
        let found = tag.found();
        let number = self.number(s, tag, found.number)?;
        let d = Draft {
            kind: model::TYPE,
            owner: 0,
            number,
            given: found.number,
            name: found.name,
            second: found.second,
            encoding: found.encoding,
        };
        if !self.in_composite(s) {
            return self.add(s, tag, d);
        }
        let Some(owner) = s.current.composite else {
            return Ok(s);
        };
        let kind = model::MEMBER;
        self.add(s, tag, Draft { kind, owner, ..d })
    }

    /// ref: adds a ref of the current composite, if there is one.
    fn open_ref(&mut self, s: State, tag: &Tag) -> Result<State, Refusal>
        requires { CanOpen field_keys self.old s tag.now }
        ensures { OpensBy open_ref self.old s tag.now self.new result }
    {
        let Some(owner) = s.current.composite else {
            return Ok(s);
        };
        let found = tag.found();
        let d = Draft::new(model::REF, owner, 0, found.name, found.second);
        self.add(s, tag, d)
    }

    /// composite: adds it and makes it current.
    fn open_composite(&mut self, s: State, tag: &Tag) -> Result<State, Refusal>
        requires { CanOpen field_keys self.old s tag.now }
        ensures { OpensBy open_composite self.old s tag.now self.new result }
    {
        let found = tag.found();
        let d = Draft::new(model::COMPOSITE, 0, 0, found.name, None);
        let current = Current {
            composite: Some(s.usage.items),
            ..s.current
        };
        self.add(State { current, ..s }, tag, d)
    }

    /// enum: adds it and makes it current.
    fn open_enum(&mut self, s: State, tag: &Tag) -> Result<State, Refusal>
        requires { CanOpen enum_keys self.old s tag.now }
        ensures { OpensBy open_enum self.old s tag.now self.new result }
    {
        let found = tag.found();
        let d = Draft::new(model::ENUM, 0, 0, found.name, found.second);
        let current = Current {
            enumeration: Some(s.usage.items),
            ..s.current
        };
        self.add(State { current, ..s }, tag, d)
    }

    /// validValue: empties the collected text; in a current enum adds a value and collects text.
    fn open_value(&mut self, s: State, tag: &Tag) -> Result<State, Refusal>
        requires { CanOpen field_keys self.old s tag.now }
        ensures { OpensBy open_value self.old s tag.now self.new result }
    {
        let usage = Usage {
            collected_from: s.usage.collected_to,
            ..s.usage
        };
        let Some(owner) = s.current.enumeration else {
            return Ok(State { usage, ..s });
        };
        let found = tag.found();
        let d = Draft::new(model::VALUE, owner, 0, found.name, None);
        let current = Current {
            collecting: true,
            ..s.current
        };
        self.add(
            State {
                usage,
                current,
                ..s
            },
            tag,
            d,
        )
    }

    /// message: adds it and makes it current.
    fn open_message(&mut self, s: State, tag: &Tag) -> Result<State, Refusal>
        requires { CanOpen field_keys self.old s tag.now }
        ensures { OpensBy open_message self.old s tag.now self.new result }
    {
        let found = tag.found();
        let id = self.number(s, tag, found.number)?;
        let d = Draft::new(model::MESSAGE, 0, id, found.name, None);
        let current = Current {
            message: Some(s.usage.items),
            ..s.current
        };
        self.add(State { current, ..s }, tag, d)
    }

    /// group: adds it to the current message and makes it current; without one only reads its id.
    fn open_group(&mut self, s: State, tag: &Tag) -> Result<State, Refusal>
        requires { CanOpen field_keys self.old s tag.now }
        ensures { OpensBy open_group self.old s tag.now self.new result }
    {
        let found = tag.found();
        let id = self.number(s, tag, found.number)?;
        let Some(owner) = s.current.message else {
            return Ok(s);
        };
        let d = Draft::new(model::GROUP, owner, id, found.name, None);
        let current = Current {
            group: Some(s.usage.items),
            ..s.current
        };
        self.add(State { current, ..s }, tag, d)
    }

    /// field: adds it to the current group of the current message, or else to the message, if there
    /// is one. Refused (33) if the current group was opened under another message.
    fn open_field(&mut self, s: State, tag: &Tag) -> Result<State, Refusal>
        requires { CanOpen field_keys self.old s tag.now }
        ensures { OpensBy open_field self.old s tag.now self.new result }
    {
        let found = tag.found();
        let id = self.number(s, tag, found.number)?;
        let Some(message) = s.current.message else {
            return Ok(s);
        };
        let Some(group) = s.current.group else {
            let d = Draft::new(model::FIELD, message, id, found.name, found.second);
            return self.add(s, tag, d);
        };
        let ours = self.owner_of(s, group) == message;
        if !ours {
            return Err(Refusal::MisplacedField { place: tag.place });
        }
        let d = Draft::new(model::FIELD, group, id, found.name, found.second);
        self.add(s, tag, d)
    }

    /// Opens the tag's element, whose name is pushed already.
    fn open_by(&mut self, s: State, tag: &Tag) -> Result<State, Refusal>
        requires { CanOpen (keys_of tag.now.element) self.old s tag.now }
        ensures { OpensBy (inside (open_by tag.now.element)) self.old s tag.now self.new result }
    {
        match tag.element {
            Element::MessageSchema => self.open_schema(s, tag),
            Element::Type => self.open_type(s, tag),
            Element::Ref => self.open_ref(s, tag),
            Element::Composite => self.open_composite(s, tag),
            Element::Enum => self.open_enum(s, tag),
            Element::ValidValue => self.open_value(s, tag),
            Element::Message => self.open_message(s, tag),
            Element::Group => self.open_group(s, tag),
            Element::Field => self.open_field(s, tag),
            Element::Other => Ok(s),
        }
    }

    /// Takes an open tag: pushes its name, then opens its element. Refused (34) at the depth limit.
    pub fn on_open(&mut self, s: State, tag: Tag) -> Result<State, Refusal>
        requires { RoomFor self.old s (room tag) × KnownTag self.old.doc.now tag }
        ensures { OpensBy (of_name opened (name_of self.old tag)) self.old s tag self.new result }
    {
        if self.limits.depth <= s.usage.depth {
            return Err(Refusal::TooDeep { place: tag.place });
        }
        let inner = self.push(s, tag.name.from, tag.name.len);
        self.open_by(inner, &tag)
    }
}
