use gr_base::OutOfMemory;
use std::alloc::Global;

/// A value that is told by a list of `WIDTH` numbers of 64 bits, and that has a text.
///
/// Equal lists are equal values, and `==` says exactly this.
pub trait Datum: Copy + Eq {
    ghost use Rattle.std.specs.Prelude.{◌≡◌, ◌≢◌, ◌↔◌, ◌<◌, ◌++◌};
    ghost use Rattle.std.specs.Prelude.{ℕ, List, length, slice_get, IfSome, IfNone, OnOk, OnErr, IsTrue};

    ghost WIDTH: { ℕ };

    ghost numbers_of: { Self → List ℕ };

    ghost text_of: { Self → List ℕ };

    /// How many numbers tell a value.
    const WIDTH: usize;

    /// Number `i` of those that tell the value.
    fn number_at(&self, i: usize) -> u64
        requires { i < WIDTH }
        ensures { slice_get (numbers_of self.now) i ≡ Some result };

    /// The value that these numbers tell. `None` exactly where they tell none.
    fn from_numbers(numbers: &[u64]) -> Option<Self>
        ensures found { IfSome result (λ x. numbers_of x ≡ numbers.now) }
        ensures absent { IfNone result ((x : Self) → numbers_of x ≢ numbers.now) };

    /// Appends the text of the value, as a result shows it.
    fn push_text(&self, alloc: Global, into: &mut Vec<u8>) -> Result<(), OutOfMemory>
        ensures ok { OnOk result (into.new.items ≡ into.old.items ++ text_of self.now) }
        ensures err { OnErr result (into.new.items ≡ into.old.items) };

    ghost same: { (x y : Self) → numbers_of x ≡ numbers_of y → x ≡ y };

    ghost width: { (x : Self) → length (numbers_of x) ≡ WIDTH };

    ghost tests: { (x y : Self) → IsTrue (Self.eq x y) ↔ (x ≡ y) };
}
