ghost use Rattle.std.specs.Prelude.{◌≡◌, [], ◌++◌, unwrap_or, IfOk, OnOk, OnErr};
ghost use Rattle.std.specs.List.{position};
ghost use Rattle.std.specs.Str.{bytes_eq};
ghost use Rattle.gr_outside.specs.Files.{bytes_of};
ghost use Rattle.gr_outside.specs.Memory.{is_named, with_file};

use std::alloc::{AllocError, Global};
use std::marker::Model;

/// A file in memory. Contracts see its name and its bytes.
#[derive(Debug, Drop)]
pub(crate) struct MemoryFile {
    name: String,
    bytes: Vec<u8>,
}

impl Model for MemoryFile {
    ghost use Rattle.std.specs.Prelude.{List, ℕ, string_bytes};

    ghost Value = { List ℕ × List ℕ };

    ghost view = { λ f. (string_bytes f.name, f.bytes.items) };
}

impl MemoryFile {
    pub(crate) fn new(alloc: Global, name: &str, bytes: &[u8]) -> Result<MemoryFile, AllocError>
        ensures { IfOk result (λ f. f ≡ (name.now, bytes.now)) }
    {
        Ok(MemoryFile {
            name: String::from_str(alloc, name)?,
            bytes: Vec::from_slice(alloc, bytes)?,
        })
    }

    pub(crate) fn has_name(&self, name: &str) -> bool
        ensures { result ≡ bytes_eq self.now.0 name.now }
    {
        self.name.as_str() == name
    }

    pub(crate) fn bytes(&self) -> &[u8]
        ensures { result.now ≡ self.now.1 }
    {
        &self.bytes
    }

    pub(crate) fn set_bytes(&mut self, bytes: Vec<u8>)
        ensures { self.new ≡ (self.old.0, bytes.items) }
    {
        self.bytes = bytes;
    }

    pub(crate) fn extend(&mut self, bytes: &[u8]) -> Result<(), AllocError>
        ensures ok { OnOk result (self.new ≡ (self.old.0, self.old.1 ++ bytes.now)) }
        ensures err { OnErr result (self.new ≡ self.old) }
    {
        self.bytes.extend_from_slice(bytes)
    }
}

/// Where the file of a name stands.
pub(crate) fn position_of(files: &[MemoryFile], name: &str) -> Option<usize>
    ensures { result ≡ position (is_named name.now) files.now }
{
    files.iter().position(|file| file.has_name(name))
}

/// Adds a file, or replaces its bytes.
pub(crate) fn put_file(
    alloc: Global,
    files: &mut Vec<MemoryFile>,
    name: &str,
    bytes: &[u8],
) -> Result<(), AllocError>
    ensures ok { OnOk result (files.new.items ≡ with_file files.old.items name.now bytes.now) }
    ensures err { OnErr result (files.new.items ≡ files.old.items) }
{
    match position_of(files, name) {
        Some(i) => {
            let bytes = Vec::from_slice(alloc, bytes)?;
            let file = &mut files[i];
            file.set_bytes(bytes);
        }
        None => {
            files.push(MemoryFile::new(alloc, name, bytes)?)?;
        }
    }
    Ok(())
}

/// Adds bytes at the end of a file, which is made where it is absent.
pub(crate) fn extend_file(
    alloc: Global,
    files: &mut Vec<MemoryFile>,
    name: &str,
    bytes: &[u8],
) -> Result<(), AllocError>
    ensures ok { OnOk result (files.new.items
        ≡ with_file files.old.items name.now (unwrap_or (bytes_of files.old.items name.now) [] ++ bytes.now)) }
    ensures err { OnErr result (files.new.items ≡ files.old.items) }
{
    match position_of(files, name) {
        Some(i) => {
            let file = &mut files[i];
            file.extend(bytes)?;
        }
        None => {
            files.push(MemoryFile::new(alloc, name, bytes)?)?;
        }
    }
    Ok(())
}
