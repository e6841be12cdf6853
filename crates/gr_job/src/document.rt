ghost use Rattle.std.specs.Prelude.{◌≡◌, ◌≢◌, ◌≤◌};
ghost use Rattle.std.specs.Prelude.{length, not, find, option_map, option_copied, string_bytes, IfOk, IfErr};
ghost use Rattle.std.specs.BTreeMap.{keys};
ghost use Rattle.std.specs.List.Sorted.{IsStrictlySortedBy};
ghost use Rattle.std.specs.String.{string_cmp};
ghost use Rattle.std.specs.Option.{ForSome};
ghost use Rattle.toml.specs.Data.{get_member};
ghost use Rattle.toml.specs.View.{view, table_view};
ghost use Rattle.gr_job.specs.Agrees.{AgreesWith};
ghost use Rattle.gr_job.specs.Job.{document_of, only_known_keys, row};
ghost use Rattle.gr_job.specs.Keys.{is_job_key as is_in_job};
ghost use Rattle.gr_job.specs.Kinds as spec;

use crate::name::Name;
use crate::{JobFault, KeyText, kinds};
use gr_base::Items;
use std::alloc::Global;
use toml::{Table, Value};

/// A document whose keys are read one at a time.
#[derive(Drop)]
pub(crate) struct Document {
    alloc: Global,
    table: Table,
}

/// Whether a job may have the key.
fn is_job_key(key: &str) -> bool
    ensures { result ≡ is_in_job key.now }
{
    match key {
        "places" | "spares" | "losses" | "theta" | "rounds" => true,
        "undirected" | "program" | "source" | "k" | "seeds" => true,
        _ => false,
    }
}

/// The first key that no job may have, in the table's order, which is by bytes.
fn first_unknown(table: &Table) -> Option<&String>
    ensures first { option_copied result ≡ find (λ key. not (is_in_job (string_bytes key))) (keys table.now) }
    ensures rising { IsStrictlySortedBy string_cmp (keys table.now) }
{
    table.keys().find(|key| !is_job_key(key.as_str()))
}

impl Document {
    /// The document that the bytes are.
    pub(crate) fn parse(alloc: Global, bytes: &[u8]) -> Result<Document, JobFault>
        ensures ok { IfOk result (λ document. document_of bytes.now ≡ Some (table_view document.table)) }
        ensures not_toml { IfErr result (λ e. e ≢ JobFault.OutOfMemory → e ≡ JobFault.NotToml) }
        ensures refused { IfErr result (λ e. e ≢ JobFault.OutOfMemory → document_of bytes.now ≡ None) }
    {
        match toml::table_from_slice(alloc, bytes) {
            Ok(table) => Ok(Document { alloc, table }),
            Err(error) => {
                if error.is_memory() {
                    return Err(JobFault::OutOfMemory);
                }
                Err(JobFault::NotToml)
            }
        }
    }

    /// Refuses a document with a key that no job has.
    pub(crate) fn refuse_unknown_keys(&self) -> Result<(), JobFault>
        ensures { AgreesWith result (only_known_keys (table_view self.now.table)) }
    {
        match first_unknown(&self.table) {
            Some(key) => Err(JobFault::UnknownKey(KeyText::new(self.alloc, key.as_str())?)),
            None => Ok(()),
        }
    }

    /// The value under a key.
    fn get(&self, key: &str) -> Option<&Value>
        ensures { option_map (λ value. view value.now) result
            ≡ get_member key.now (table_view self.now.table) }
    {
        self.table.get(key)
    }

    /// The default of an absent key. `None` is a key that is required.
    fn or_default<T>(&self, key: &str, default: Option<T>) -> Result<T, JobFault>
        ensures ok { IfOk result (λ value. default ≡ Some value) }
        ensures refused { IfErr result (λ e. e ≢ JobFault.OutOfMemory → e ≡ JobFault.Missing key.now) }
        ensures needed { IfErr result (λ e. default ≡ None) }
    {
        match default {
            Some(value) => Ok(value),
            None => Err(JobFault::Missing(KeyText::new(self.alloc, key)?)),
        }
    }

    /// The integer under a key, from `least` to `most`.
    pub(crate) fn integer(
        &self,
        key: &str,
        least: u32,
        most: u32,
        default: Option<u32>,
    ) -> Result<u32, JobFault>
        requires from { ForSome default (λ value. least ≤ value) }
        requires to { ForSome default (λ value. value ≤ most) }
        ensures value { AgreesWith result
            (row key.now (spec.integer_in least most) default (table_view self.now.table)) }
        ensures from { IfOk result (λ n. least ≤ n) }
        ensures to { IfOk result (λ n. n ≤ most) }
    {
        match self.get(key) {
            Some(value) => kinds::integer(self.alloc, key, value, least, most),
            None => self.or_default(key, default),
        }
    }

    /// The boolean under a key.
    pub(crate) fn boolean(&self, key: &str, default: Option<bool>) -> Result<bool, JobFault>
        ensures { AgreesWith result (row key.now spec.boolean_value default (table_view self.now.table)) }
    {
        match self.get(key) {
            Some(value) => kinds::boolean(self.alloc, key, value),
            None => self.or_default(key, default),
        }
    }

    /// The program that the string under a key names.
    pub(crate) fn program(&self, key: &str, default: Option<Name>) -> Result<Name, JobFault>
        ensures { AgreesWith result (row key.now spec.program_name default (table_view self.now.table)) }
    {
        match self.get(key) {
            Some(value) => kinds::program(self.alloc, key, value),
            None => self.or_default(key, default),
        }
    }

    /// The array of integers under a key, at most `longest` of them.
    pub(crate) fn integers(
        &self,
        key: &str,
        longest: usize,
        default: Option<Items<u32>>,
    ) -> Result<Items<u32>, JobFault>
        requires { ForSome default (λ numbers. length numbers ≤ longest) }
        ensures value { AgreesWith result
            (row key.now (spec.integers_in longest 4294967295) default (table_view self.now.table)) }
        ensures to { IfOk result (λ numbers. length numbers ≤ longest) }
    {
        match self.get(key) {
            Some(value) => kinds::integers(self.alloc, key, value, longest),
            None => self.or_default(key, default),
        }
    }
}
