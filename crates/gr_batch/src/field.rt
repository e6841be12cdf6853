//! What stands at the front of a list of numbers.

ghost use Rattle.std.specs.Prelude.{◌≡◌, ◌≢◌, ℕ, ◌<◌, ◌^◌, [], ◌∷◌, List, Bool, cond, ⊤, IfSome, IfNone};
ghost use Rattle.gr_batch.specs.CopyNumbers.{value_told};
ghost use Rattle.gr_batch.specs.Reading.{IsFront, HasNoFront};

use gr_program::Datum;

pub(crate) fn number_at(numbers: &[u64]) -> Option<(u64, &[u64])>
    ensures found { IfSome result (λ x. numbers.now ≡ x.0 ∷ x.1.now) }
    ensures absent { IfNone result (numbers.now ≡ []) }
{
    match numbers {
        [] => None,
        [number, rest @ ..] => Some((*number, rest)),
    }
}

fn number_below(numbers: &[u64], limit: u64) -> Option<(u64, &[u64])>
    ensures found { IfSome result (λ x. (x.0 < limit) × (numbers.now ≡ x.0 ∷ x.1.now)) }
    ensures absent { IfNone result ((n : ℕ) (rest : List ℕ) → n < limit → numbers.now ≢ n ∷ rest) }
{
    match numbers {
        [] => None,
        [number, rest @ ..] => {
            if *number < limit {
                Some((*number, rest))
            } else {
                None
            }
        }
    }
}

// A vertex, a degree or a round.
pub(crate) fn short_at(numbers: &[u64]) -> Option<(u32, &[u64])>
    ensures found { IfSome result (λ x. (x.0 < 2 ^ 32) × (numbers.now ≡ x.0 ∷ x.1.now)) }
    ensures absent { IfNone result ((n : ℕ) (rest : List ℕ) → n < 2 ^ 32 → numbers.now ≢ n ∷ rest) }
{
    let (number, rest) = number_below(numbers, 1 << 32)?;
    Some((number as u32, rest))
}

pub(crate) fn place_at(numbers: &[u64]) -> Option<(u8, &[u64])>
    ensures found { IfSome result (λ x. (x.0 < 64) × (numbers.now ≡ x.0 ∷ x.1.now)) }
    ensures absent { IfNone result ((n : ℕ) (rest : List ℕ) → n < 64 → numbers.now ≢ n ∷ rest) }
{
    let (number, rest) = number_below(numbers, 64)?;
    Some((number as u8, rest))
}

// A mark, 1 or 0.
pub(crate) fn mark_at(numbers: &[u64]) -> Option<(bool, &[u64])>
    ensures found { IfSome result (λ x. numbers.now ≡ cond x.0 1 0 ∷ x.1.now) }
    ensures absent { IfNone result ((b : Bool) (rest : List ℕ) → numbers.now ≢ cond b 1 0 ∷ rest) }
{
    let (number, rest) = number_below(numbers, 2)?;
    Some((number == 1, rest))
}

// A value or a sum.
pub(crate) fn datum_at<D: Datum>(numbers: &[u64]) -> Option<(D, &[u64])>
    ensures found { IfSome result (λ x. IsFront D.numbers_of (λ _. ⊤) numbers.now x.0 x.1.now) }
    ensures absent { IfNone result (HasNoFront D.numbers_of (λ _. ⊤) numbers.now) }
{
    if numbers.len() < D::WIDTH {
        return None;
    }
    let (front, rest) = numbers.split_at(D::WIDTH);
    let datum = D::from_numbers(front)?;
    Some((datum, rest))
}

// A value or that there is none.
pub(crate) fn value_at<V: Datum>(numbers: &[u64]) -> Option<(Option<V>, &[u64])>
    ensures found { IfSome result (λ x. IsFront (value_told V.numbers_of) (λ _. ⊤) numbers.now x.0 x.1.now) }
    ensures absent { IfNone result (HasNoFront (value_told V.numbers_of) (λ _. ⊤) numbers.now) }
{
    let (there, rest) = mark_at(numbers)?;
    if !there {
        return Some((None, rest));
    }
    let (value, rest) = datum_at(rest)?;
    Some((Some(value), rest))
}
