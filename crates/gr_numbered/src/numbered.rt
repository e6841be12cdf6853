ghost use Rattle.std.specs.Prelude.{◌≡◌};

use gr_base::NumberedEdge;
use gr_program::{Datum, ValueOf, VertexCopy};

/// Something with a number of its own, of which a later one takes the place of an earlier one.
pub trait Numbered: Copy {
    ghost use Rattle.std.specs.Prelude.{◌≡◌, ℕ};

    ghost number_of: { Self → ℕ };

    /// The number.
    fn number(&self) -> u32
        ensures { result ≡ number_of self.now };
}

impl<V: Datum> Numbered for VertexCopy<V> {
    ghost number_of = { λ c. c.vertex };

    fn number(&self) -> u32 {
        self.vertex
    }
}

impl<V: Datum> Numbered for ValueOf<V> {
    ghost number_of = { λ x. x.vertex };

    fn number(&self) -> u32 {
        self.vertex
    }
}

impl Numbered for NumberedEdge {
    ghost number_of = { λ a. a.number };

    fn number(&self) -> u32 {
        self.number
    }
}
