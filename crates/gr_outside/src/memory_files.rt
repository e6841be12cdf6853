ghost use Rattle.std.specs.Prelude.{◌≡◌, ◌+◌, ◌^◌, ◌<◌, ◌↔◌, ◌⊎◌, []};
ghost use Rattle.std.specs.Prelude.{length, None, OnOk, OnErr, IfOk, IsErrOf, IsTrue, is_some};
ghost use Rattle.std.specs.List.{Contains};
ghost use Rattle.std.specs.Option.{option_copied};
ghost use Rattle.gr_outside.specs.Causes.{one_more};
ghost use Rattle.gr_outside.specs.Files.{bytes_of};
ghost use Rattle.gr_outside.specs.FileCalls.{Loads, Begins, Extends};
ghost use Rattle.gr_outside.specs.Memory.{files_seen, with_file};

use crate::fail_list::is_listed;
use crate::loads::{LONGEST, count_if, take_up_to};
use crate::memory_file::{MemoryFile, extend_file, position_of, put_file};
use crate::{FileFault, Files, LoadFault};
use gr_base::{Items, OutOfMemory};
use std::alloc::Global;
use std::marker::Model;

/// Files in memory, whose calls of listed numbers fail. Calls of `load`, `begin` and `append` are
/// counted together, from 1.
#[derive(Debug, Drop)]
pub struct MemoryFiles {
    alloc: Global,
    files: Vec<MemoryFile>,
    failed: Option<String>,
    begun: Option<String>,
    fail: Items<u32>,
    calls: u64,
    load_faults: u64,
    long_loads: u64,
    write_faults: u64,
}

impl Model for MemoryFiles {
    ghost use Rattle.std.specs.Prelude.{string_bytes};
    ghost use Rattle.std.specs.Option.{option_map};
    ghost use Rattle.gr_outside.specs.Memory.{FilesState};

    ghost Value = { FilesState };

    ghost view = { λ m. record {
      files = m.files.items;
      failed = option_map string_bytes m.failed;
      begun = option_map string_bytes m.begun;
      fail = m.fail;
      calls = m.calls;
      load_faults = m.load_faults;
      long_loads = m.long_loads;
      write_faults = m.write_faults;
    } };
}

impl MemoryFiles {
    /// No file, and the numbers of the calls that fail. It takes no memory.
    pub fn new(alloc: Global, fail: Items<u32>) -> MemoryFiles
        ensures { result ≡ record {
          files = [];
          failed = None;
          begun = None;
          fail = fail;
          calls = 0;
          load_faults = 0;
          long_loads = 0;
          write_faults = 0;
        } }
    {
        MemoryFiles {
            alloc,
            files: Vec::new(alloc),
            failed: None,
            begun: None,
            fail,
            calls: 0,
            load_faults: 0,
            long_loads: 0,
            write_faults: 0,
        }
    }

    /// Adds a file, or replaces its bytes. It is no call that could fail by its number.
    pub fn add(&mut self, name: &str, bytes: &[u8]) -> Result<(), OutOfMemory>
        ensures ok { OnOk result (self.new ≡ record self.old { files = with_file self.old.files name.now bytes.now }) }
        ensures err { OnErr result (self.new ≡ self.old) }
    {
        put_file(self.alloc, &mut self.files, name, bytes)?;
        Ok(())
    }

    /// The bytes of a file, in time linear in the number of files.
    pub fn bytes_of(&self, name: &str) -> Option<&[u8]>
        ensures { option_copied result ≡ bytes_of self.now.files name.now }
    {
        match position_of(&self.files, name) {
            Some(i) => Some(self.files[i].bytes()),
            None => None,
        }
    }
}

impl Files for MemoryFiles {
    ghost seen = { files_seen };

    ghost use Rattle.std.proofs.Common.{refl};

    ghost begun_told = { λ f. refl };

    fn load(
        &mut self,
        alloc: Global,
        name: &str,
        limit: usize,
        into: &mut Vec<u8>,
    ) -> Result<(), LoadFault>
        requires empty { into.old.items ≡ [] }
        requires limit { limit + 1 < 2 ^ 64 }
        ensures loads { Loads (files_seen self.old) (files_seen self.new) name.now limit into.new.items result }
        ensures call { self.new.calls ≡ one_more self.old.calls }
        ensures list { self.new.fail ≡ self.old.fail }

        // exactly the calls that are listed and those of absent names fail
        ensures listed { Contains self.old.fail self.new.calls →
            (IsErrOf result LoadFault.Failed ⊎ IsErrOf result LoadFault.OutOfMemory) }
        ensures absent { bytes_of self.old.files name.now ≡ None →
            (IsErrOf result LoadFault.Failed ⊎ IsErrOf result LoadFault.OutOfMemory) }
        ensures failed { IsErrOf result LoadFault.Failed →
            (Contains self.old.fail self.new.calls ⊎ (bytes_of self.old.files name.now ≡ None)) }
    {
        self.calls = self.calls.saturating_add(1);
        let fails = is_listed(self.fail.as_slice(), self.calls);
        let i = match position_of(&self.files, name) {
            Some(i) if !fails => i,
            _ => {
                self.failed = Some(String::from_str(alloc, name)?);
                self.load_faults = self.load_faults.saturating_add(1);
                return Err(LoadFault::Failed);
            }
        };
        let result = take_up_to(self.files[i].bytes(), limit, into);
        self.long_loads = count_if(self.long_loads, into.len() > LONGEST);
        result
    }

    fn begin(&mut self, alloc: Global, name: &str) -> Result<(), FileFault>
        ensures begins { Begins (files_seen self.old) (files_seen self.new) name.now result }
        ensures call { self.new.calls ≡ one_more self.old.calls }
        ensures list { self.new.fail ≡ self.old.fail }

        // exactly the calls that are listed fail
        ensures failed { IsErrOf result FileFault.Failed ↔ (Contains self.old.fail self.new.calls) }
        ensures made { OnOk result (self.new.files ≡ with_file self.old.files name.now []) }
        ensures kept { OnErr result (self.new.files ≡ self.old.files) }
    {
        self.begun = None;
        self.calls = self.calls.saturating_add(1);
        if is_listed(self.fail.as_slice(), self.calls) {
            self.write_faults = self.write_faults.saturating_add(1);
            return Err(FileFault::Failed);
        }
        let begun = String::from_str(alloc, name)?;
        put_file(alloc, &mut self.files, name, &[])?;
        self.begun = Some(begun);
        Ok(())
    }

    fn append(&mut self, alloc: Global, bytes: &[u8]) -> Result<usize, FileFault>
        requires { IsTrue (is_some self.old.begun) }
        ensures extends { Extends (files_seen self.old) (files_seen self.new) bytes.now result }
        ensures call { self.new.calls ≡ one_more self.old.calls }
        ensures list { self.new.fail ≡ self.old.fail }

        // exactly the calls that are listed fail, and the others take the whole piece
        ensures failed { IsErrOf result FileFault.Failed ↔ (Contains self.old.fail self.new.calls) }
        ensures whole { IfOk result (λ n. n ≡ length bytes.now) }
    {
        self.calls = self.calls.saturating_add(1);
        if is_listed(self.fail.as_slice(), self.calls) {
            self.write_faults = self.write_faults.saturating_add(1);
            return Err(FileFault::Failed);
        }
        if let Some(begun) = &self.begun {
            extend_file(alloc, &mut self.files, begun.as_str(), bytes)?;
        }
        Ok(bytes.len())
    }
}
