ghost use Rattle.std.specs.Prelude.{◌≡◌, ◌<◌, ◌^◌, IfOk, length};
ghost use Rattle.gr_view.specs.declared.coordinator.Mode.TheVariants as mode;
ghost use Rattle.gr_cluster.specs.Step.{lost_list};

use crate::cluster::Cluster;
use gr_base::{Items, OutOfMemory};
use gr_migrate::lost;
use gr_program::VertexProgram;

impl<P: VertexProgram> Cluster<P> {
    /// The vertices that are lost, rising, once a recovery has found them: those in committed records of dead places
    /// all of whose holders are dead.
    ///
    /// The one error is that memory ran out. In time linear in the committed records of the dead places, with a
    /// logarithm in the vertices for each.
    pub fn lost_list(&self) -> Result<Items<u32>, OutOfMemory>
        requires lost { self.now.cluster.coordinator.mode ≡ mode.Lost }
        ensures { IfOk result (λ vertices. vertices ≡ lost_list self.now.cluster) }
    {
        self.lost()
    }

    // The vertices all of whose holders are dead.
    pub(crate) fn lost(&self) -> Result<Items<u32>, OutOfMemory>
        ensures list { IfOk result (λ vertices. vertices ≡ lost_list self.now.cluster) }
        ensures few { length (lost_list self.now.cluster) < 2 ^ 32 }
    {
        lost(self.alloc, self.logs.as_slice(), self.coordinator.dead)
    }
}
