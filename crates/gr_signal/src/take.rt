ghost use Rattle.std.specs.Prelude.{◌≡◌, ◌||◌, ℕ, IsSome, IfOk, OnOk, OnErr, map, filter, find, ◌==◌};
ghost use Rattle.std.specs.List.{All};
ghost use Rattle.gr_base.specs.Rising.{RisesBy, has, union};
ghost use Rattle.gr_rules.specs.Rows.{with_values, with_due};
ghost use Rattle.gr_rules.specs.Round.{woke_by};

use gr_base::{Items, OutOfMemory};
use gr_batch::NewValue;
use gr_program::Datum;
use gr_rows::Rows;
use std::alloc::Global;

/// Stages the values of an Update body, whose vertices rise. It takes no memory, and a search among the pending copies
/// for each value.
pub fn take_updates<V: Datum>(rows: &mut Rows<V>, body: &[NewValue<V>])
    requires rise { RisesBy (λ n. n.vertex) body.now }
    requires known { All (λ n. IsSome (find (λ c. c.vertex == n.vertex) rows.old.pending)) body.now }
    ensures { rows.new ≡ record rows.old { pending = with_values body.now rows.old.pending } }
{
    for line in body {
        rows.stage_value(line.vertex, line.value);
    }
}

/// Makes the pending copies of these vertices due, and no others. The vertices rise. It takes no memory, and for each
/// copy a search among the vertices.
pub fn take_calls<V: Datum>(rows: &mut Rows<V>, due: &[u32])
    requires rise { RisesBy (λ v. v) due.now }
    ensures { rows.new ≡ record rows.old { pending = with_due due.now rows.old.pending } }
{
    rows.stage_due(due);
}

/// Adds the vertices of an Update body that are marked as waking to the woken ones, in time linear in both. The
/// vertices of both rise.
///
/// # Errors
///
/// `OutOfMemory` if memory runs out.
pub fn take_woken<V: Datum>(
    alloc: Global,
    body: &[NewValue<V>],
    woken: &mut Items<u32>,
) -> Result<(), OutOfMemory>
    requires body_rises { RisesBy (λ n. n.vertex) body.now }
    requires woken_rise { RisesBy (λ v. v) woken.old }
    ensures members { OnOk result ((v : ℕ) → has woken.new v ≡ (has woken.old v || woke_by body.now v)) }
    ensures rise { RisesBy (λ v. v) woken.new }
    ensures err { OnErr result (woken.new ≡ woken.old) }
{
    let marked = marked(alloc, body)?;
    if marked.as_slice().is_empty() {
        return Ok(());
    }
    *woken = union_of(alloc, woken.as_slice(), marked.as_slice())?;
    Ok(())
}

/// Adds the vertices of a Signal body to those that are due next, in time linear in both. The vertices of both rise.
///
/// # Errors
///
/// `OutOfMemory` if memory runs out.
pub fn take_signals(alloc: Global, body: &[u32], next: &mut Items<u32>) -> Result<(), OutOfMemory>
    requires body_rises { RisesBy (λ v. v) body.now }
    requires next_rise { RisesBy (λ v. v) next.old }
    ensures members { OnOk result ((v : ℕ) → has next.new v ≡ (has next.old v || has body.now v)) }
    ensures rise { RisesBy (λ v. v) next.new }
    ensures err { OnErr result (next.new ≡ next.old) }
{
    if body.is_empty() {
        return Ok(());
    }
    *next = union_of(alloc, next.as_slice(), body)?;
    Ok(())
}

/// The vertices that are marked as waking, in their order.
fn marked<V: Datum>(alloc: Global, body: &[NewValue<V>]) -> Result<Items<u32>, OutOfMemory>
    ensures { IfOk result (λ marked. marked ≡ map (λ n. n.vertex) (filter (λ n. n.wake) body.now)) }
{
    let mut marked = Items::new(alloc);
    for line in body {
        if line.wake {
            marked.push(line.vertex)?;
        }
    }
    Ok(marked)
}

/// The numbers of two rising lists, each once.
fn union_of(alloc: Global, left: &[u32], right: &[u32]) -> Result<Items<u32>, OutOfMemory>
    ensures { IfOk result (λ all. all ≡ union left.now right.now) }
{
    let mut all = Items::new(alloc);
    let mut i = 0;
    let mut j = 0;
    'merge: while i < left.len() && j < right.len() {
        if left[i] < right[j] {
            all.push(left[i])?;
            i += 1;
        } else if right[j] < left[i] {
            all.push(right[j])?;
            j += 1;
        } else {
            all.push(left[i])?;
            i += 1;
            j += 1;
        }
    }
    all.extend_from_slice(&left[i..])?;
    all.extend_from_slice(&right[j..])?;
    Ok(all)
}
