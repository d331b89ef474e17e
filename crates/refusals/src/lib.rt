//! Refusals: one enum case for each number of docs/REFUSALS.md.
//!
//! An entry answers `Result<usize, Refusal>`: the length of the finished text, or why there is
//! none. `number`, `offset` and `place` give a case's figures, and `report` those of an answer, to
//! callers that want plain numbers, as C does. When a case applies is decided by the crates that
//! answer it.
#![tactic(auto)]

ghost use Rattle.std.specs.Prelude.{◌≡◌};
ghost use Rattle.refusals.specs.Figures.{number_of, offset_of, place_of};
ghost use Rattle.refusals.specs.Reported.{Reports};

/// Why there is no text.
///
/// `place` is the `<` of the tag at fault, and `offset` is where the missing thing was due, unless
/// the case says otherwise; `at` is both. A case without one of them has 0 for it.
#[derive(Clone, Copy, Debug, PartialEq, Eq)]
pub enum Refusal {
    /// 1: the document, or a name, is longer than 32,768 bytes.
    TooLong,
    /// 2: a work buffer is too short.
    NoWorkSpace,
    /// 3: the output is shorter than the finished text.
    NoRoom,
    /// 10: a byte of 128 or more; `at` is the first.
    NotAscii { at: usize },
    /// 11: a comment without end; `at` is its `<`.
    OpenComment { at: usize },
    /// 12: a processing instruction without end; `at` is its `<`.
    OpenInstruction { at: usize },
    /// 13: a declaration without end; `at` is its `<`.
    OpenDeclaration { at: usize },
    /// 14: no `>` after a close tag's name and spaces.
    NoCloseTagEnd { offset: usize, place: usize },
    /// 15: no tag name after `<`.
    NoTagName { offset: usize, place: usize },
    /// 16: the document ends where an attribute, `/>` or `>` is due.
    OpenTag { offset: usize, place: usize },
    /// 17: no attribute name.
    NoAttributeName { offset: usize, place: usize },
    /// 18: no `=` after an attribute name.
    NoEquals { offset: usize, place: usize },
    /// 19: no quote after `=`.
    NoQuote { offset: usize, place: usize },
    /// 20: an attribute value without its closing quote; `offset` is its first byte.
    OpenValue { offset: usize, place: usize },
    /// 30: a close tag's name differs from the innermost open one.
    WrongClose { place: usize },
    /// 31: elements are open at the end; `place` is the document's length.
    OpenElements { place: usize },
    /// 32: an invalid unsigned number.
    BadNumber { place: usize },
    /// 33: a field under a group of another message.
    MisplacedField { place: usize },
    /// 34: too many open elements.
    TooDeep { place: usize },
    /// 35: too many items.
    TooManyItems { place: usize },
    /// 40: an array in a composite; `place` is its position among all composites, from 0.
    ArrayInComposite { place: usize },
    /// 41: an array in a message or its groups; `place` is the message's position, from 0.
    ArrayInMessage { place: usize },
}

impl Refusal {
    /// The number in docs/REFUSALS.md.
    pub fn number(self) -> u32
        ensures { result ≡ number_of self }
    {
        match self {
            Refusal::TooLong => 1,
            Refusal::NoWorkSpace => 2,
            Refusal::NoRoom => 3,
            Refusal::NotAscii { .. } => 10,
            Refusal::OpenComment { .. } => 11,
            Refusal::OpenInstruction { .. } => 12,
            Refusal::OpenDeclaration { .. } => 13,
            Refusal::NoCloseTagEnd { .. } => 14,
            Refusal::NoTagName { .. } => 15,
            Refusal::OpenTag { .. } => 16,
            Refusal::NoAttributeName { .. } => 17,
            Refusal::NoEquals { .. } => 18,
            Refusal::NoQuote { .. } => 19,
            Refusal::OpenValue { .. } => 20,
            Refusal::WrongClose { .. } => 30,
            Refusal::OpenElements { .. } => 31,
            Refusal::BadNumber { .. } => 32,
            Refusal::MisplacedField { .. } => 33,
            Refusal::TooDeep { .. } => 34,
            Refusal::TooManyItems { .. } => 35,
            Refusal::ArrayInComposite { .. } => 40,
            Refusal::ArrayInMessage { .. } => 41,
        }
    }

    /// Where the fault shows; 0 in a case that has no offset.
    pub fn offset(self) -> usize
        ensures { result ≡ offset_of self }
    {
        match self {
            Refusal::NotAscii { at }
            | Refusal::OpenComment { at }
            | Refusal::OpenInstruction { at }
            | Refusal::OpenDeclaration { at } => at,
            Refusal::NoCloseTagEnd { offset, .. }
            | Refusal::NoTagName { offset, .. }
            | Refusal::OpenTag { offset, .. }
            | Refusal::NoAttributeName { offset, .. }
            | Refusal::NoEquals { offset, .. }
            | Refusal::NoQuote { offset, .. }
            | Refusal::OpenValue { offset, .. } => offset,
            _ => 0,
        }
    }

    /// What the refusal points at, as its case says; 0 for 1, 2 and 3.
    pub fn place(self) -> usize
        ensures { result ≡ place_of self }
    {
        match self {
            Refusal::TooLong | Refusal::NoWorkSpace | Refusal::NoRoom => 0,
            Refusal::NotAscii { at }
            | Refusal::OpenComment { at }
            | Refusal::OpenInstruction { at }
            | Refusal::OpenDeclaration { at } => at,
            Refusal::NoCloseTagEnd { place, .. }
            | Refusal::NoTagName { place, .. }
            | Refusal::OpenTag { place, .. }
            | Refusal::NoAttributeName { place, .. }
            | Refusal::NoEquals { place, .. }
            | Refusal::NoQuote { place, .. }
            | Refusal::OpenValue { place, .. }
            | Refusal::WrongClose { place }
            | Refusal::OpenElements { place }
            | Refusal::BadNumber { place }
            | Refusal::MisplacedField { place }
            | Refusal::TooDeep { place }
            | Refusal::TooManyItems { place }
            | Refusal::ArrayInComposite { place }
            | Refusal::ArrayInMessage { place } => place,
        }
    }
}

/// Sets offset, place and n of an answer, and returns its number, 0 for accepted.
pub fn report(
    answer: Result<usize, Refusal>,
    offset: &mut usize,
    place: &mut usize,
    n: &mut usize,
) -> u32
    ensures { Reports answer result offset.new place.new n.new }
{
    match answer {
        Ok(k) => {
            *offset = 0;
            *place = 0;
            *n = k;
            0
        }
        Err(r) => {
            *offset = r.offset();
            *place = r.place();
            *n = 0;
            r.number()
        }
    }
}
