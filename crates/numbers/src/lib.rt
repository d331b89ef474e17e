//! The numbers of attributes: ids, versions and lengths.
//!
//! An empty text is 0. Any other is one or more digits, perhaps behind one `+`, of a value up to
//! 4,294,967,295; else it is no number (specs/Numbers.antt).
#![tactic(auto, using(crate::proofs::Laws::laws))]

ghost use Rattle.std.specs.Prelude.{◌≡◌, ℕ, Some};
ghost use Rattle.texts.specs.Text.{piece};
ghost use Rattle.numbers.specs.Numbers.{digits_of, number_of};

use texts::part;

/// The value of one or more digits; `None` where there are none, where a byte is no digit, or above
/// 4,294,967,295.
fn digits(s: &[u8]) -> Option<u32>
    ensures { result ≡ digits_of s.now }
{
    if s.is_empty() {
        return None;
    }
    let mut n: u64 = 0;
    for b in s {
        let b'0'..=b'9' = *b else {
            return None;
        };
        let m = 10 * n + u64::from(*b - b'0');
        // Further digits make no value smaller: the loop can stop, and never overflows.
        if 4294967295 < m {
            return None;
        }
        n = m;
    }
    Some(n as u32)
}

/// The number that a text says, or `None` where it is no number.
pub fn number_of(s: &[u8]) -> Option<u32>
    ensures { result ≡ number_of (Some s.now) }
{
    match s.first() {
        None => Some(0),
        Some(b'+') => digits(part(s, 1, s.len())),
        Some(_) => digits(s),
    }
}

/// The number of a text of one byte, the one at `at`, where it is a digit. `None` says nothing: the
/// caller reads the text by `number_of`.
pub fn digit_at(s: &[u8], at: usize) -> Option<u32>
    ensures { (n : ℕ) → result ≡ Some n → result ≡ number_of (Some (piece s.now at 1)) }
{
    let b'0'..=b'9' = *s.get(at)? else {
        return None;
    };
    Some(u32::from(s[at] - b'0'))
}
