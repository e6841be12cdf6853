ghost use Rattle.std.specs.Prelude.{◌≡◌};
ghost use Rattle.gr_cluster.specs.Step.{down_among};

use crate::cluster::Cluster;
use gr_base::PlaceSet;
use gr_program::VertexProgram;

impl<P: VertexProgram> Cluster<P> {
    /// Those of some places whose machines are down.
    pub fn down_among(&self, places: PlaceSet) -> PlaceSet
        ensures { result ≡ down_among self.now.cluster places }
    {
        let mut down = places;
        for p in 0..self.places() {
            if self.hosts[usize::from(p)].is_some() {
                down = down.without(p);
            }
        }
        down
    }
}
