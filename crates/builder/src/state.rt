//! The builder's state by value. specs/internal/Layout.antt says what lies in the buffers.
ghost use Rattle.std.specs.Prelude.{◌≡◌, ◌≤◌};
ghost use Rattle.builder.specs.internal.Layout.{initial, popped, model_in};

use crate::limits::MIN_TEXT;
use model::{Count, Head, Model};

/// How much of the buffers is in use. The record buffer holds `items` items and `depth` open names.
/// The text buffer is free from `collected_to`, where the collected text ends that begins at
/// `collected_from`, up to `taken_from`, where the texts taken of attributes begin.
#[derive(Clone, Copy)]
pub struct Usage {
    pub items: u32,
    pub depth: usize,
    pub collected_from: usize,
    pub collected_to: usize,
    pub taken_from: usize,
}

/// Whether text is collected, and what is current of each kind, by its position among the items.
#[derive(Clone, Copy)]
pub struct Current {
    pub collecting: bool,
    pub composite: Option<u32>,
    pub enumeration: Option<u32>,
    pub message: Option<u32>,
    pub group: Option<u32>,
}

/// The builder's state: how much is in use, what is current, and the schema's own attributes.
#[derive(Clone, Copy)]
pub struct State {
    pub usage: Usage,
    pub current: Current,
    pub head: Head,
}

impl State {
    /// The state before the first event.
    pub fn new() -> State
        ensures { result ≡ initial }
    {
        State {
            usage: Usage {
                items: 0,
                depth: 0,
                collected_from: 0,
                collected_to: 0,
                taken_from: MIN_TEXT,
            },
            current: Current {
                collecting: false,
                composite: None,
                enumeration: None,
                message: None,
                group: None,
            },
            head: Head {
                name: 0,
                len: 0,
                id: 0,
                version: 0,
            },
        }
    }

    /// How many elements are open.
    pub fn depth(self) -> usize
        ensures { result ≡ self.usage.depth }
    {
        self.usage.depth
    }

    /// The schema so far, as it lies in the two buffers.
    pub fn model(self) -> Model
        requires { self.usage.items ≤ 1024 }
        ensures { result ≡ model_in self }
    {
        Model {
            head: self.head,
            count: Count::of(self.usage.items),
        }
    }

    /// The state with the innermost name popped, if there is one.
    pub(crate) fn popped(self) -> State
        ensures { result ≡ popped self }
    {
        State {
            usage: Usage {
                depth: self.usage.depth.saturating_sub(1),
                ..self.usage
            },
            ..self
        }
    }
}
