ghost use Rattle.std.specs.Prelude.{◌≡◌, IfOk};
ghost use Rattle.gr_view.specs.declared.coordinator.Mode.TheVariants as mode;
ghost use Rattle.gr_cluster.specs.Ending.{results_of};

use crate::cluster::Cluster;
use gr_base::{Items, OutOfMemory};
use gr_numbered::merge;
use gr_program::{ValueOf, VertexProgram};
use std::alloc::Global;

impl<P: VertexProgram> Cluster<P> {
    /// The value of each vertex, by rising vertex, once the run is done: the effective value of its master's copy.
    ///
    /// The one error is that memory ran out. In time linear in the product of the places and the vertices.
    pub fn results(&self) -> Result<Items<ValueOf<P::Value>>, OutOfMemory>
        requires done { self.now.cluster.coordinator.mode ≡ mode.Done }
        ensures { IfOk result (λ values. values ≡ results_of self.now.cluster) }
    {
        let mut values = Items::new(self.alloc);
        for p in 0..self.places() {
            if let Some(host) = &self.hosts[usize::from(p)] {
                let news = host.mastered(self.alloc, self.coordinator.commits, p)?;
                values = merge(self.alloc, values.as_slice(), news.as_slice())?;
            }
        }
        Ok(values)
    }
}
