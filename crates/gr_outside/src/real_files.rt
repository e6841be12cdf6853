ghost use Rattle.std.specs.Prelude.{◌≡◌, ◌+◌, ◌^◌, ◌≤◌, ◌<◌, IsErrOf, false, None, [], vec_len, OnOk};
ghost use Rattle.gr_outside.specs.Real.{untold_files};

use crate::loads::{LONGEST, count_if};
use crate::real_sink::write_some;
use crate::{FileFault, Files, LoadFault};
use std::alloc::Global;
use std::io::Read;
use std::marker::Model;
use std::{fs, rt};

// The bytes of one read.
const CHUNK: usize = 65536;

/// Files of the system, by their paths. They tell nothing of what they hold.
#[derive(Drop)]
pub struct RealFiles<'r, R: rt::Files> {
    rt: &'r R,
    begun: Option<R::File>,
    load_faults: u64,
    long_loads: u64,
    write_faults: u64,
}

impl<'r, R: rt::Files> Model for RealFiles<'r, R> {
    ghost use Rattle.std.specs.Prelude.{is_some};
    ghost use Rattle.gr_outside.specs.Real.{FileCounts};

    ghost Value = { FileCounts };

    ghost view = { λ f. record {
      is_begun = is_some f.begun;
      load_faults = f.load_faults;
      long_loads = f.long_loads;
      write_faults = f.write_faults;
    } };
}

impl<'r, R: rt::Files> RealFiles<'r, R> {
    /// The files that a runtime opens: none is begun, and there was no fault so far. It takes no memory.
    pub fn new(rt: &'r R) -> RealFiles<'r, R>
        ensures { result ≡ record { is_begun = false; load_faults = 0; long_loads = 0; write_faults = 0 } }
    {
        RealFiles {
            rt,
            begun: None,
            load_faults: 0,
            long_loads: 0,
            write_faults: 0,
        }
    }
}

// Reads to the end, or to one byte past the limit: a file may have no end.
fn read_up_to<F: Read>(file: &mut F, limit: usize, into: &mut Vec<u8>) -> Result<(), LoadFault>
    requires empty { into.old.items ≡ [] }
    requires limit { limit + 1 < 2 ^ 64 }
    ensures within { vec_len into.new ≤ limit + 1 }
    ensures whole { OnOk result (vec_len into.new ≤ limit) }
    ensures too_long { IsErrOf result LoadFault.TooLong → vec_len into.new ≡ limit + 1 }
{
    let mut buffer = [0u8; CHUNK];
    while into.len() <= limit {
        let room = (limit + 1 - into.len()).min(CHUNK);
        let count = match file.read(&mut buffer[..room]) {
            Ok(count) => count,
            Err(_) => return Err(LoadFault::Failed),
        };
        if count == 0 {
            return Ok(());
        }
        into.extend_from_slice(&buffer[..count])?;
    }
    Err(LoadFault::TooLong)
}

impl<'r, R: rt::Files> Files for RealFiles<'r, R> {
    ghost seen = { untold_files };

    ghost begun_told = { λ f. tt };

    fn load(
        &mut self,
        _alloc: Global,
        name: &str,
        limit: usize,
        into: &mut Vec<u8>,
    ) -> Result<(), LoadFault> {
        let result = match fs::open(self.rt, name) {
            Ok(mut file) => read_up_to(&mut file, limit, into),
            Err(_) => Err(LoadFault::Failed),
        };
        self.long_loads = count_if(self.long_loads, into.len() > LONGEST);
        let failed = matches!(&result, Err(LoadFault::Failed));
        self.load_faults = count_if(self.load_faults, failed);
        result
    }

    fn begin(&mut self, _alloc: Global, name: &str) -> Result<(), FileFault> {
        match fs::create(self.rt, name) {
            Ok(file) => {
                self.begun = Some(file);
                Ok(())
            }
            Err(_) => {
                self.begun = None;
                self.write_faults = self.write_faults.saturating_add(1);
                Err(FileFault::Failed)
            }
        }
    }

    fn append(&mut self, _alloc: Global, bytes: &[u8]) -> Result<usize, FileFault> {
        let written = match &mut self.begun {
            Some(file) => write_some(file, bytes),
            None => None,
        };
        match written {
            Some(count) => Ok(count),
            None => {
                self.write_faults = self.write_faults.saturating_add(1);
                Err(FileFault::Failed)
            }
        }
    }
}
