ghost use Rattle.std.specs.Prelude.{◌≡◌, [], ◌++◌, true, false};

use gr_base::OutOfMemory;
use std::alloc::Global;
use std::marker::Model;

/// The positions at which two layers may differ. If there is no room for a further one, it says that they may differ
/// anywhere.
#[derive(Drop)]
pub struct Changes {
    positions: Vec<u32>,
    anywhere: bool,
}

impl Model for Changes {
    ghost use Rattle.gr_rows.specs.Changes.{ChangedPositions};

    ghost Value = { ChangedPositions };

    ghost view = { λ c. record { positions = c.positions.items; anywhere = c.anywhere } };
}

impl Changes {
    /// No change. It takes no memory.
    pub fn new(alloc: Global) -> Changes
        ensures { result ≡ record { positions = []; anywhere = false } }
    {
        Changes {
            positions: Vec::new(alloc),
            anywhere: false,
        }
    }

    /// Makes room for this many positions in all.
    pub fn reserve(&mut self, count: usize) -> Result<(), OutOfMemory>
        ensures { self.new ≡ self.old }
    {
        self.positions
            .reserve(count.saturating_sub(self.positions.len()))?;
        Ok(())
    }

    /// Whether there may be changes anywhere.
    pub fn anywhere(&self) -> bool
        ensures { result ≡ self.now.anywhere }
    {
        self.anywhere
    }

    /// The positions, borrowed.
    pub fn as_slice(&self) -> &[u32]
        ensures { result.now ≡ self.now.positions }
    {
        self.positions.as_slice()
    }

    /// Adds positions. It takes no memory.
    pub fn note(&mut self, more: &[u32])
        ensures before { self.new.anywhere ≡ false → self.old.anywhere ≡ false }
        ensures positions { self.new.anywhere ≡ false → self.new.positions ≡ self.old.positions ++ more.now }
    {
        let room = self
            .positions
            .capacity()
            .saturating_sub(self.positions.len());
        if self.anywhere || room < more.len() {
            self.anywhere = true;
            return;
        }
        let _ = self.positions.extend_from_slice(more);
    }

    /// Says that there may be changes anywhere.
    pub fn note_all(&mut self)
        ensures { self.new.anywhere ≡ true }
    {
        self.anywhere = true;
    }

    /// Forgets all changes.
    pub fn clear(&mut self)
        ensures { self.new ≡ record { positions = []; anywhere = false } }
    {
        self.positions.clear();
        self.anywhere = false;
    }
}
