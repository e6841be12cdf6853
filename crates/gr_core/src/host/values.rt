ghost use Rattle.std.specs.Prelude.{◌≡◌, ◌<◌, ◌+◌, ◌^◌, slice_get, IfOk, IfSome};
ghost use Rattle.gr_base.specs.Rising.{RisesBy};
ghost use Rattle.gr_rows.specs.Layers.{vertex_of};
ghost use Rattle.gr_cluster.specs.Tables.{effective};
ghost use Rattle.gr_core.specs.Values.{vertex_in, mastered_in, mastered_value};

use crate::host::Host;
use gr_base::{Items, OutOfMemory};
use gr_program::{Datum, ValueOf, VertexCopy, VertexProgram};
use std::alloc::Global;

impl<P: VertexProgram> Host<P> {
    // The values of the copies that the place masters, where the cluster has so many commits.
    pub(crate) fn mastered(
        &self,
        alloc: Global,
        commits: u64,
        p: u8,
    ) -> Result<Items<ValueOf<P::Value>>, OutOfMemory>
        ensures values { IfOk result (λ values. values ≡ mastered_in p (effective commits self.now)) }
        ensures rise { IfOk result (λ values. RisesBy vertex_in values) }
    {
        let mut values = Items::new(alloc);
        let mut i = 0;
        while let Some(copy) = self.effective_at(commits, i) {
            if let Some(value) = mastered_value(&copy, p) {
                values.push(value)?;
            }
            i += 1;
        }
        Ok(values)
    }

    // The `i`-th effective copy, where the cluster has so many commits.
    fn effective_at(&self, commits: u64, i: usize) -> Option<VertexCopy<P::Value>>
        ensures copy { result ≡ slice_get (effective commits self.now) i }
        ensures next_fits { IfSome result (λ _. i + 1 < 2 ^ 64) }
        ensures rise { RisesBy vertex_of (effective commits self.now) }
    {
        if self.lacks_one(commits) {
            self.rows.pending_at(i)
        } else {
            self.rows.at(i)
        }
    }
}

// The value of a copy, where the place masters it and a value is kept.
fn mastered_value<V: Datum>(copy: &VertexCopy<V>, p: u8) -> Option<ValueOf<V>>
    ensures { result ≡ mastered_value p copy.now }
{
    if copy.master != p {
        return None;
    }
    match copy.value {
        Some(value) => Some(ValueOf {
            vertex: copy.vertex,
            value,
        }),
        None => None,
    }
}
