//! Whole tags: where they end, and the attributes that are looked up in them.
#![tactic(auto, using(crate::proofs::Laws::laws))]

ghost use Rattle.std.specs.Prelude.{◌≡◌, false, [], ◌+◌, ◌<◌, ◌^◌, ◌≤◌, length};
ghost use Rattle.texts.specs.Choice.{pick};
ghost use Rattle.texts.specs.Text.{piece};
ghost use Rattle.tags.specs.Names.{is_xmlns};
ghost use Rattle.tags.specs.Attributes.{tag_at, attribute_at};
ghost use Rattle.elements.specs.Keys.{keys_of};
ghost use Rattle.tags.specs.internal.Noting.{NotedBy};

use crate::known::codes_of;
use crate::namespaces::past_namespaces;
use crate::noting::{Notes, is_namespace, noted_by, noted_one};
use crate::part::{Ending, Quick, TagPart, quick_part, tag_part};
use elements::Element;
use refusals::Refusal;
use texts::Range;

/// A tag read to its end: how it ends, and what was noted of it.
#[derive(Clone, Copy)]
pub struct NotedTag {
    pub ending: Result<Ending, Refusal>,
    pub noted: Notes,
}

/// Reads the tag whose attributes begin at `at`: how it ends, and the last raw value under each
/// name that the element looks up. One namespace declaration is likely followed by others, which
/// are skipped in a loop of their own.
pub fn tag_noting(doc: &[u8], at: usize, place: usize, element: Element) -> NotedTag
    ensures ending { result.ending ≡ (tag_at doc.now at place).ending }
    ensures noted { NotedBy (keys_of element) doc.now at result.noted }
{
    let codes = codes_of(element);
    let mut i = at;
    let mut noted = Notes::none();
    // `loop`: the part that ends the tag returns.
    loop {
        let Quick { code, part } = quick_part(doc, i, place);
        match part {
            Ok(TagPart::Attribute(a)) => {
                if is_namespace(doc, a.name, code) {
                    i = past_namespaces(doc, a.next);
                } else {
                    noted = noted_by(doc, a, code, codes, element, noted);
                    i = a.next;
                }
            }
            Ok(TagPart::TagEnd(ending)) => {
                return NotedTag {
                    ending: Ok(ending),
                    noted,
                };
            }
            Err(refusal) => {
                return NotedTag {
                    ending: Err(refusal),
                    noted,
                };
            }
        }
    }
}

/// The raw value of the last attribute called `name`, in the tag whose attributes begin at `at`;
/// `None` if there is none. Of a tag that is refused, the attributes before the fault count.
pub fn attribute(doc: &[u8], at: usize, name: &[u8]) -> Option<Range>
    ensures { result ≡ attribute_at doc.now at name.now }
{
    let mut i = at;
    let mut noted = Notes::none();
    // `loop`: the part that ends the tag returns.
    loop {
        // Only refusals hold the place, and none leaves this function.
        match tag_part(doc, i, 0) {
            Ok(TagPart::Attribute(a)) => {
                noted = noted_one(doc, a, name, noted);
                i = a.next;
            }
            Ok(TagPart::TagEnd(_)) => return noted.number(),
            Err(_) => return noted.number(),
        }
    }
}
