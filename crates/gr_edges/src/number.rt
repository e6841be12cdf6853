ghost use Rattle.std.specs.Prelude.{◌≡◌, ◌<◌, ◌≤◌, [], ◌∷◌, false, length, take, IfSome, IsNone};
ghost use Rattle.std.specs.List.{position_or_len};
ghost use Rattle.gr_text.specs.Fields.{fields_of, is_blank};
ghost use Rattle.gr_edges.specs.Fields.{field_found};

use crate::field::{FieldFound, found, read_field};
use gr_text::next_field;

/// What the first field of a text is, the field, and the text after it.
///
/// A number behind at most one blank is read in one pass over its digits.
pub fn next_found(text: &[u8]) -> Option<(FieldFound, &[u8], &[u8])>
    ensures none { IsNone result → fields_of text.now ≡ [] }
    ensures some { IfSome result (λ next. fields_of text.now ≡ next.1.now ∷ fields_of next.2.now) }
    ensures found { IfSome result (λ next. next.0 ≡ field_found next.1.now) }
    ensures less { IfSome result (λ next. length next.2.now < length text.now) }
    ensures field { IfSome result (λ next. 0 < length next.1.now) }
{
    match next_number(text) {
        Some(next) => Some(next),
        None => next_other(text),
    }
}

// The first field of a text, in general.
fn next_other(text: &[u8]) -> Option<(FieldFound, &[u8], &[u8])>
    ensures none { IsNone result → fields_of text.now ≡ [] }
    ensures some { IfSome result (λ next. fields_of text.now ≡ next.1.now ∷ fields_of next.2.now) }
    ensures found { IfSome result (λ next. next.0 ≡ field_found next.1.now) }
    ensures less { IfSome result (λ next. length next.2.now < length text.now) }
    ensures field { IfSome result (λ next. 0 < length next.1.now) }
{
    match next_field(text) {
        Some((field, more)) => Some((read_field(field), field, more)),
        None => None,
    }
}

// The first field of a text, if it is a number of 32 bits behind at most one blank.
fn next_number(text: &[u8]) -> Option<(FieldFound, &[u8], &[u8])>
    ensures some { IfSome result (λ next. fields_of text.now ≡ next.1.now ∷ fields_of next.2.now) }
    ensures found { IfSome result (λ next. next.0 ≡ field_found next.1.now) }
    ensures less { IfSome result (λ next. length next.2.now < length text.now) }
    ensures field { IfSome result (λ next. 0 < length next.1.now) }
{
    let rest = past_blank(text);
    match first_number(rest) {
        Some((value, len)) => Some((found(value, false, false), &rest[..len], &rest[len..])),
        None => None,
    }
}

// A text without the blank that it begins with, if any.
fn past_blank(text: &[u8]) -> &[u8]
    ensures fields { fields_of result.now ≡ fields_of text.now }
    ensures less { length result.now ≤ length text.now }
{
    match text {
        [b' ' | b'\t', rest @ ..] => rest,
        _ => text,
    }
}

// The number of 32 bits before the first blank of a text, and how many digits it has.
fn first_number(text: &[u8]) -> Option<(u32, usize)>
    ensures len { IfSome result (λ n. n.1 ≡ position_or_len is_blank text.now) }
    ensures some { IfSome result (λ n. 0 < n.1) }
    ensures within { IfSome result (λ n. n.1 ≤ length text.now) }
    ensures number { IfSome result (λ n.
        record { number = n.0; is_large = false; is_bad = false } ≡ field_found (take n.1 text.now)) }
{
    let mut value: u32 = 0;
    for (i, b) in text.iter().enumerate() {
        if *b < b'0' || *b > b'9' {
            if i > 0 && is_space(*b) {
                return Some((value, i));
            }
            return None;
        }
        let next = u64::from(value) * 10 + u64::from(*b - b'0');
        if next > u64::from(u32::MAX) {
            return None;
        }
        value = next as u32;
    }
    if text.is_empty() {
        return None;
    }
    Some((value, text.len()))
}

fn is_space(b: u8) -> bool
    ensures { result ≡ is_blank b }
{
    (b == b' ') | (b == b'\t')
}
