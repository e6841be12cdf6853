ghost use Rattle.std.specs.Prelude.{◌≡◌, IfOk};

use gr_base::{Items, OutOfMemory};
use std::alloc::Global;
use std::marker::Model;

/// A key of a job's document. Contracts see the list of its bytes.
#[derive(Debug, Drop)]
pub struct KeyText {
    bytes: Items<u8>,
}

impl Model for KeyText {
    ghost use Rattle.std.specs.Prelude.{ℕ, List};

    ghost Value = { List ℕ };

    ghost view = { λ key. key.bytes };
}

impl KeyText {
    pub(crate) fn new(alloc: Global, key: &str) -> Result<KeyText, OutOfMemory>
        ensures { IfOk result (λ text. text ≡ key.now) }
    {
        Ok(KeyText {
            bytes: Items::from_slice(alloc, key.as_bytes())?,
        })
    }

    /// The bytes of the key, as they stand in the document.
    pub fn as_bytes(&self) -> &[u8]
        ensures { result.now ≡ self.now }
    {
        self.bytes.as_slice()
    }
}

/// Why a document is no job.
#[derive(Debug, Drop)]
pub enum JobFault {
    /// The bytes are no TOML document.
    NotToml,
    /// A key that no job has; where there are several, the first by bytes.
    UnknownKey(KeyText),
    /// A key that this job needs is absent.
    Missing(KeyText),
    /// The value of the key, or an element of its array, is of another type than the key's.
    WrongType(KeyText),
    /// The value of the key, an element of its array or the array's length is outside its range.
    OutOfRange(KeyText),
    /// The value of `program` names no program.
    UnknownProgram,
    /// Memory ran out.
    OutOfMemory,
}

impl From<OutOfMemory> for JobFault {
    ghost use Rattle.gr_job.specs.declared.fault.JobFault.{JobFault};

    ghost from_gives = { λ _ fault. fault ≡ JobFault.OutOfMemory };

    fn from(_: OutOfMemory) -> JobFault {
        JobFault::OutOfMemory
    }
}
