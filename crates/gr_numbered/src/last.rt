ghost use Rattle.std.specs.Prelude.{◌≡◌, [], IfOk};
ghost use Rattle.gr_base.specs.Rising.{RisesBy};
ghost use Rattle.gr_log.specs.Directory.{with_items};

use crate::Numbered;
use gr_base::{Items, OutOfMemory};
use std::alloc::Global;
use std::collections::BTreeMap;

/// The last of each number, by rising number. It takes time linear-logarithmic in the number of items, in whatever
/// order they stand.
///
/// # Errors
///
/// `OutOfMemory` if memory runs out.
pub fn last_of_each<T: Numbered>(alloc: Global, items: &[T]) -> Result<Items<T>, OutOfMemory>
    ensures last { IfOk result (λ kept. kept ≡ with_items T.number_of items.now []) }
    ensures rise { IfOk result (λ kept. RisesBy T.number_of kept) }
{
    let mut last = BTreeMap::new(alloc);
    for item in items {
        last.insert(item.number(), *item)?;
    }
    let kept = last.into_values().collect(alloc)?;
    Ok(Items::from_vec(kept))
}
