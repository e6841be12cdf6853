ghost use Rattle.std.specs.Prelude.{◌≡◌};
ghost use Rattle.gr_log.specs.Directory.{entry_of};
ghost use Rattle.gr_rules.specs.Rows.{blank_copy as blank};

use gr_base::PlaceSet;
use gr_log::LogRecord;
use gr_numbered::Numbered;
use gr_program::{Datum, VertexCopy};
use std::marker::Model;

/// What a `Held` record says of a vertex: all of its copy but the value and the mark.
#[derive(Clone, Copy, Debug, PartialEq, Eq)]
pub struct LogEntry {
    pub vertex: u32,
    pub indeg: u32,
    pub outdeg: u32,
    pub master: u8,
    pub holders: PlaceSet,
}

impl Model for LogEntry {
    ghost use Rattle.gr_log.specs.Directory.{Entry};

    ghost Value = { Entry };

    ghost view = { λ e. record {
      vertex = e.vertex;
      indeg = e.indeg;
      outdeg = e.outdeg;
      master = e.master;
      holders = e.holders;
    } };

    ghost inverse = { λ e. record {
      vertex = e.vertex;
      indeg = e.indeg;
      outdeg = e.outdeg;
      master = e.master;
      holders = e.holders;
    } };
}

impl Numbered for LogEntry {
    ghost number_of = { λ e. e.vertex };

    fn number(&self) -> u32 {
        self.vertex
    }
}

impl LogEntry {
    /// The entry of a record, where it is one of a vertex.
    pub fn of(item: &LogRecord) -> Option<LogEntry>
        ensures { result ≡ entry_of item.now }
    {
        match *item {
            LogRecord::Held {
                vertex,
                indeg,
                outdeg,
                master,
                holders,
            } => Some(LogEntry {
                vertex,
                indeg,
                outdeg,
                master,
                holders,
            }),
            LogRecord::Kept(_) => None,
        }
    }

    /// A copy without value, not due.
    pub fn blank_copy<V: Datum>(&self) -> VertexCopy<V>
        ensures { result ≡ blank self.now }
    {
        VertexCopy {
            vertex: self.vertex,
            indeg: self.indeg,
            outdeg: self.outdeg,
            master: self.master,
            holders: self.holders,
            value: None,
            due: false,
        }
    }
}
