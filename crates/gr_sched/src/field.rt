ghost use Rattle.std.specs.Prelude.{◌≡◌, ◌<◌, length};
ghost use Rattle.gr_text.specs.Fields.{fields_of};
ghost use Rattle.gr_sched.specs.Fields.{number_of, only_number};

use gr_base::{Numeral, number};
use gr_text::next_field;

/// The number of a field, if it is one.
pub fn read_number(field: &[u8]) -> Option<u32>
    requires { 0 < length field.now }
    ensures { result ≡ number_of field.now }
{
    match number(field, 0) {
        Numeral::Is(value, end) => if end == field.len() {
            Some(value)
        } else {
            None
        },
        Numeral::TooLarge(_) => None,
        Numeral::NoDigits => None,
    }
}

/// The number that stands alone in a text.
pub fn read_only_number(text: &[u8]) -> Option<u32>
    ensures { result ≡ only_number (fields_of text.now) }
{
    match next_field(text) {
        None => None,
        Some((field, more)) => match next_field(more) {
            None => read_number(field),
            Some(_) => None,
        },
    }
}
