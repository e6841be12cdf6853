ghost use Rattle.std.specs.Prelude.{◌≡◌, ◌∷◌, ◌++◌, length, flat_map, OnOk};
ghost use Rattle.gr_batch.specs.CopyNumbers.{value_told};

use crate::field::{datum_at, mark_at, number_at, place_at, short_at, value_at};
use crate::holders::{places_of, word_of};
use crate::{NewValue, Part};
use gr_base::OutOfMemory;
use gr_program::{Datum, VertexCopy};

// What a body lists, told by numbers.
pub(crate) trait Item: Copy {
    ghost use Rattle.std.specs.Prelude.{◌≡◌, ℕ, ◌++◌, List, OnOk, IfSome, IfNone};
    ghost use Rattle.gr_batch.specs.Reading.{IsFront, HasNoFront};

    ghost told: { Self → List ℕ };

    ghost key: { Self → ℕ };

    ghost Fits: { Self → Type 0 };

    fn vertex(&self) -> u32
        ensures { result ≡ key self.now };

    // Appends the numbers that tell the item.
    fn push(&self, numbers: &mut Vec<u64>) -> Result<(), OutOfMemory>
        ensures { OnOk result (numbers.new.items ≡ numbers.old.items ++ told self.now) };

    // The item that the numbers begin with, and the numbers after it.
    fn read(numbers: &[u64]) -> Option<(Self, &[u64])>
        ensures found { IfSome result (λ x. IsFront told Fits numbers.now x.0 x.1.now) }
        ensures absent { IfNone result (HasNoFront told Fits numbers.now) };
}

impl Item for u32 {
    ghost use Rattle.std.specs.Prelude.{[], ◌∷◌};
    ghost use Rattle.gr_batch.specs.Spelling.{IsShort};

    ghost told = { λ v. v ∷ [] };

    ghost key = { λ v. v };

    ghost Fits = { IsShort };

    fn vertex(&self) -> u32 {
        *self
    }

    fn push(&self, numbers: &mut Vec<u64>) -> Result<(), OutOfMemory> {
        numbers.push(*self as u64)?;
        Ok(())
    }

    fn read(numbers: &[u64]) -> Option<(u32, &[u64])> {
        short_at(numbers)
    }
}

impl<A: Datum> Item for Part<A> {
    ghost use Rattle.std.specs.Prelude.{◌∷◌};
    ghost use Rattle.gr_batch.specs.Spelling.{IsShort};

    ghost told = { λ x. x.vertex ∷ A.numbers_of x.acc };

    ghost key = { λ x. x.vertex };

    ghost Fits = { λ x. IsShort x.vertex };

    fn vertex(&self) -> u32 {
        self.vertex
    }

    fn push(&self, numbers: &mut Vec<u64>) -> Result<(), OutOfMemory> {
        numbers.push(self.vertex as u64)?;
        push_datum(numbers, &self.acc)
    }

    fn read(numbers: &[u64]) -> Option<(Part<A>, &[u64])> {
        let (vertex, rest) = short_at(numbers)?;
        let (acc, rest) = datum_at(rest)?;
        Some((Part { vertex, acc }, rest))
    }
}

impl<V: Datum> Item for NewValue<V> {
    ghost use Rattle.std.specs.Prelude.{[], ◌∷◌, ◌++◌, cond};
    ghost use Rattle.gr_batch.specs.Spelling.{IsShort};

    ghost told = { λ x. x.vertex ∷ (V.numbers_of x.value ++ cond x.wake 1 0 ∷ []) };

    ghost key = { λ x. x.vertex };

    ghost Fits = { λ x. IsShort x.vertex };

    fn vertex(&self) -> u32 {
        self.vertex
    }

    fn push(&self, numbers: &mut Vec<u64>) -> Result<(), OutOfMemory> {
        numbers.push(self.vertex as u64)?;
        push_datum(numbers, &self.value)?;
        numbers.push(self.wake as u64)?;
        Ok(())
    }

    fn read(numbers: &[u64]) -> Option<(NewValue<V>, &[u64])> {
        let (vertex, rest) = short_at(numbers)?;
        let (value, rest) = datum_at(rest)?;
        let (wake, rest) = mark_at(rest)?;
        Some((
            NewValue {
                vertex,
                value,
                wake,
            },
            rest,
        ))
    }
}

impl<V: Datum> Item for VertexCopy<V> {
    ghost use Rattle.gr_batch.specs.CopyNumbers.{copy_told};
    ghost use Rattle.gr_batch.specs.Spelling.{IsGranted};

    ghost told = { copy_told V.numbers_of };

    ghost key = { λ x. x.vertex };

    ghost Fits = { IsGranted };

    fn vertex(&self) -> u32 {
        self.vertex
    }

    fn push(&self, numbers: &mut Vec<u64>) -> Result<(), OutOfMemory> {
        numbers.extend_from_slice(&[
            self.vertex as u64,
            self.indeg as u64,
            self.outdeg as u64,
            self.master as u64,
            word_of(self.holders),
        ])?;
        push_value(numbers, &self.value)?;
        numbers.push(self.due as u64)?;
        Ok(())
    }

    fn read(numbers: &[u64]) -> Option<(VertexCopy<V>, &[u64])> {
        let (vertex, rest) = short_at(numbers)?;
        let (indeg, rest) = short_at(rest)?;
        let (outdeg, rest) = short_at(rest)?;
        let (master, rest) = place_at(rest)?;
        let (word, rest) = number_at(rest)?;
        let holders = places_of(word);
        if !holders.has(master) {
            return None;
        }
        let (value, rest) = value_at(rest)?;
        let (due, rest) = mark_at(rest)?;
        let copy = VertexCopy {
            vertex,
            indeg,
            outdeg,
            master,
            holders,
            value,
            due,
        };
        Some((copy, rest))
    }
}

// Appends the numbers that tell a value or a sum.
fn push_datum<D: Datum>(numbers: &mut Vec<u64>, datum: &D) -> Result<(), OutOfMemory>
    ensures { OnOk result (numbers.new.items ≡ numbers.old.items ++ D.numbers_of datum.now) }
{
    for i in 0..D::WIDTH {
        numbers.push(datum.number_at(i))?;
    }
    Ok(())
}

// Appends how many items there are, and the numbers of each.
pub(crate) fn push_items<I: Item>(numbers: &mut Vec<u64>, items: &[I]) -> Result<(), OutOfMemory>
    ensures { OnOk result (numbers.new.items ≡ numbers.old.items ++ length items.now ∷ flat_map I.told items.now) }
{
    numbers.push(items.len() as u64)?;
    for item in items {
        item.push(numbers)?;
    }
    Ok(())
}

// Appends whether there is a value, and its numbers where there is one.
fn push_value<V: Datum>(numbers: &mut Vec<u64>, value: &Option<V>) -> Result<(), OutOfMemory>
    ensures { OnOk result (numbers.new.items ≡ numbers.old.items ++ value_told V.numbers_of value.now) }
{
    match value {
        None => {
            numbers.push(0)?;
            Ok(())
        }
        Some(value) => {
            numbers.push(1)?;
            push_datum(numbers, value)
        }
    }
}
