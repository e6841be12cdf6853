ghost use Rattle.std.specs.Prelude.{◌≡◌, ◌<◌, ◌≤◌, [], ◌∷◌, length, IfSome, IsNone};
ghost use Rattle.std.specs.List.{prefix_len, position_or_len};
ghost use Rattle.gr_text.specs.Fields.{fields_of, is_blank};

/// The first field of a text, and what follows it, for readers that take one field after another.
///
/// In time linear in the blanks before the field and in the field.
pub fn next_field(text: &[u8]) -> Option<(&[u8], &[u8])>
    ensures none { IsNone result → fields_of text.now ≡ [] }
    ensures some { IfSome result (λ found. fields_of text.now ≡ found.0.now ∷ fields_of found.1.now) }
    ensures less { IfSome result (λ found. length found.1.now < length text.now) }
    ensures field { IfSome result (λ found. 0 < length found.0.now) }
{
    let start = blank_count(text);
    let rest = &text[start..];
    if rest.is_empty() {
        return None;
    }
    let len = field_len(rest);
    Some((&rest[..len], &rest[len..]))
}

fn is_space(b: u8) -> bool
    ensures { result ≡ is_blank b }
{
    (b == b' ') | (b == b'\t')
}

// How many blanks a text begins with.
fn blank_count(text: &[u8]) -> usize
    ensures count { result ≡ prefix_len is_blank text.now }
    ensures within { result ≤ length text.now }
{
    for (i, b) in text.iter().enumerate() {
        if !is_space(*b) {
            return i;
        }
    }
    text.len()
}

// How many bytes stand before the first blank.
fn field_len(text: &[u8]) -> usize
    ensures count { result ≡ position_or_len is_blank text.now }
    ensures within { result ≤ length text.now }
{
    for (i, b) in text.iter().enumerate() {
        if is_space(*b) {
            return i;
        }
    }
    text.len()
}
