ghost use Rattle.std.specs.Prelude.{◌≡◌, ◌≢◌, IfOk, IfErr};
ghost use Rattle.gr_job.specs.Job as spec;
ghost use Rattle.gr_job.specs.Values.{values_of};
ghost use Rattle.toml.specs.View.{table_view};

use crate::document::Document;
use crate::{Job, JobFault};
use gr_base::Items;
use std::alloc::Global;

/// Reads a job: a TOML document with these keys. A key that is absent takes the value of the last column.
///
/// | key | type and range | absent |
/// |---|---|---|
/// | `places` | integer 1 to 64 | `Missing` |
/// | `spares` | integer 0 to 64 | 0 |
/// | `losses` | integer 0 to 7 | 1 |
/// | `theta` | integer 0 to 4294967295 | 100 |
/// | `rounds` | integer 1 to 10000 | 1000 |
/// | `undirected` | boolean | false |
/// | `program` | string: `shortest`, `hops`, `labels`, `rank`, `indegree`, `core` or `reach` | `Missing` |
/// | `source` | integer 0 to 4294967295 | `Missing` for `shortest` and `hops` |
/// | `k` | integer 0 to 4294967295 | `Missing` for `core` |
/// | `seeds` | array of at most 64 integers 0 to 4294967295 | `Missing` for `reach` |
///
/// A parameter that the program does not use is checked and ignored. These refusals come in this order:
///
/// - `NotToml` for bytes that are not UTF-8, or that the crate `toml` refuses;
/// - `UnknownKey` for the first key by bytes that the table does not have;
/// - and then key by key, in the table's order: `Missing`, `WrongType`, which counts for an element of `seeds` too,
///   and `OutOfRange`. Where `program` is a string and no program's name, `UnknownProgram` comes in its place.
///
/// `OutOfMemory` may come in place of any answer. What follows the crate `toml` is linear in the document.
pub fn read_job(alloc: Global, bytes: &[u8]) -> Result<Job, JobFault>
    ensures ok { IfOk result (λ job. spec.job_of bytes.now ≡ Ok (values_of job)) }
    ensures refused { IfErr result (λ fault. fault ≢ JobFault.OutOfMemory
        → spec.job_of bytes.now ≡ Err fault) }
{
    let document = Document::parse(alloc, bytes)?;
    read_document(alloc, &document)
}

#[tactic(auto, unfolding(crate::specs::Job::job_of_table))]
fn read_document(alloc: Global, document: &Document) -> Result<Job, JobFault>
    ensures ok { IfOk result (λ job.
        spec.job_of_table (table_view document.now.table) ≡ Ok (values_of job)) }
    ensures refused { IfErr result (λ fault. fault ≢ JobFault.OutOfMemory
        → spec.job_of_table (table_view document.now.table) ≡ Err fault) }
{
    document.refuse_unknown_keys()?;
    let places = document.integer("places", 1, 64, None)?;
    let spares = document.integer("spares", 0, 64, Some(0))?;
    let losses = document.integer("losses", 0, 7, Some(1))?;
    let theta = document.integer("theta", 0, u32::MAX, Some(100))?;
    let rounds = document.integer("rounds", 1, 10_000, Some(1_000))?;
    let undirected = document.boolean("undirected", Some(false))?;
    let name = document.program("program", None)?;
    let source = document.integer("source", 0, u32::MAX, required_if(name.needs_source(), 0))?;
    let k = document.integer("k", 0, u32::MAX, required_if(name.needs_k(), 0))?;
    let seeds = document.integers(
        "seeds",
        64,
        required_if(name.needs_seeds(), Items::new(alloc)),
    )?;
    Ok(Job {
        places: places as u8,
        spares: spares as u8,
        losses: losses as u8,
        theta,
        rounds,
        undirected,
        program: name.choice(source, k, seeds),
    })
}

/// How the absence of a key is taken: refused where it is needed, and as a value elsewhere.
fn required_if<T: Drop>(needed: bool, value: T) -> Option<T>
    ensures { result ≡ spec.required_if needed value }
{
    if needed { None } else { Some(value) }
}
