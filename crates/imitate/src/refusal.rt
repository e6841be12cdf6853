ghost use Rattle.std.specs.Prelude.{◌≡◌, ◌++◌, codes, decimal, IfOk};
ghost use Rattle.imitate.specs.Commands.{named};
ghost use Rattle.imitate.specs.Refusals.{status_of, graph_refusal, job_refusal, schedule_refusal, name_of, line_of};
ghost use Rattle.imitate.specs.Refusals.{graph_text, graph_line, job_text, schedule_text, schedule_line};

use crate::command::Names;
use gr_base::{OutOfMemory, push_number};
use gr_edges::GraphFault;
use gr_job::JobFault;
use gr_sched::SchedFault;
use std::alloc::Global;

/// A file that is read.
#[derive(Clone, Copy, Debug, PartialEq, Eq)]
pub enum Input {
    Graph,
    Job,
    Schedule,
}

/// The name of an input.
pub fn input_name<'a>(names: Names<'a>, input: Input) -> &'a str
    ensures { result.now ≡ name_of (named names.entry) input }
{
    match input {
        Input::Graph => names.graph,
        Input::Job => names.job,
        Input::Schedule => names.schedule,
    }
}

/// Why a command line gives no result.
#[derive(Debug, Drop)]
pub enum Refusal {
    OutOfMemory,
    Usage,
    Unreadable(Input),
    TooLong(Input),
    Graph(GraphFault),
    Job(JobFault),
    Schedule(SchedFault),
    Trace,
    Output,
}

impl From<OutOfMemory> for Refusal {
    ghost use Rattle.imitate.specs.declared.refusal.Refusal.TheVariants.{OutOfMemory as memory};

    ghost from_gives = { λ _ r. r ≡ memory };

    fn from(_: OutOfMemory) -> Refusal {
        Refusal::OutOfMemory
    }
}

/// How a fault of the graph is refused.
pub fn of_graph(fault: GraphFault) -> Refusal
    ensures { result ≡ graph_refusal fault }
{
    match fault {
        GraphFault::OutOfMemory => Refusal::OutOfMemory,
        fault => Refusal::Graph(fault),
    }
}

/// How a fault of the job is refused.
pub fn of_job(fault: JobFault) -> Refusal
    ensures { result ≡ job_refusal fault }
{
    match fault {
        JobFault::OutOfMemory => Refusal::OutOfMemory,
        fault => Refusal::Job(fault),
    }
}

/// How a fault of the schedule is refused.
pub fn of_schedule(fault: SchedFault) -> Refusal
    ensures { result ≡ schedule_refusal fault }
{
    match fault {
        SchedFault::OutOfMemory => Refusal::OutOfMemory,
        fault => Refusal::Schedule(fault),
    }
}

/// The status that the program ends with.
pub fn status(refusal: &Refusal) -> u8
    ensures { result ≡ status_of refusal.now }
{
    match refusal {
        Refusal::OutOfMemory => 1,
        Refusal::Usage => 2,
        Refusal::Unreadable(_) => 3,
        Refusal::TooLong(_) => 4,
        Refusal::Graph(_) => 5,
        Refusal::Job(_) => 6,
        Refusal::Schedule(_) => 7,
        Refusal::Trace => 10,
        Refusal::Output => 11,
    }
}

/// The line that is written of a refusal.
pub fn line(alloc: Global, refusal: &Refusal, names: Names) -> Result<Vec<u8>, OutOfMemory>
    ensures { IfOk result (λ text. text.items ≡ line_of (named names.entry) refusal.now) }
{
    let mut text = words(alloc, refusal, names)?;
    text.push(b'\n')?;
    Ok(text)
}

fn words(alloc: Global, refusal: &Refusal, names: Names) -> Result<Vec<u8>, OutOfMemory>
    ensures { IfOk result (λ text. text.items ++ codes "\n" ≡ line_of (named names.entry) refusal.now) }
{
    match refusal {
        Refusal::OutOfMemory => joined(alloc, b"out of memory", b""),
        Refusal::Usage => joined(
            alloc,
            b"usage: imitate run GRAPH JOB SCHEDULE TRACE, plain GRAPH JOB, load SEED SIZE",
            b"",
        ),
        Refusal::Unreadable(input) => {
            joined(alloc, b"cannot read ", input_name(names, *input).as_bytes())
        }
        Refusal::TooLong(input) => {
            joined(alloc, b"too long: ", input_name(names, *input).as_bytes())
        }
        Refusal::Graph(fault) => graph_words(alloc, fault),
        Refusal::Job(fault) => job_words(alloc, fault),
        Refusal::Schedule(fault) => schedule_words(alloc, *fault),
        Refusal::Trace => joined(alloc, b"cannot write ", names.trace.as_bytes()),
        Refusal::Output => joined(alloc, b"cannot write output", b""),
    }
}

fn joined(alloc: Global, first: &[u8], second: &[u8]) -> Result<Vec<u8>, OutOfMemory>
    ensures { IfOk result (λ text. text.items ≡ first.now ++ second.now) }
{
    let mut text = Vec::from_slice(alloc, first)?;
    text.extend_from_slice(second)?;
    Ok(text)
}

fn graph_words(alloc: Global, fault: &GraphFault) -> Result<Vec<u8>, OutOfMemory>
    ensures { IfOk result (λ text. text.items ≡ graph_text fault.now) }
{
    match fault {
        GraphFault::NumberTooLarge(line) => graph_line_words(alloc, *line, b"number too large"),
        GraphFault::BadLine(line) => graph_line_words(alloc, *line, b"bad line"),
        GraphFault::TooManyEdges(line) => graph_line_words(alloc, *line, b"too many edges"),
        GraphFault::TooManyVertices(line) => graph_line_words(alloc, *line, b"too many vertices"),
        GraphFault::OutOfMemory => joined(alloc, b"out of memory", b""),
    }
}

fn graph_line_words(alloc: Global, line: u32, why: &[u8]) -> Result<Vec<u8>, OutOfMemory>
    ensures { IfOk result (λ text. text.items ≡ graph_line line why.now) }
{
    line_words(alloc, b"graph line ", line, why)
}

// What is wrong with a line of an input.
fn line_words(alloc: Global, input: &[u8], line: u32, why: &[u8]) -> Result<Vec<u8>, OutOfMemory>
    ensures { IfOk result (λ text. text.items ≡ input.now ++ decimal line ++ codes ": " ++ why.now) }
{
    let mut text = Vec::from_slice(alloc, input)?;
    push_number(alloc, &mut text, u64::from(line))?;
    text.extend_from_slice(b": ")?;
    text.extend_from_slice(why)?;
    Ok(text)
}

fn schedule_words(alloc: Global, fault: SchedFault) -> Result<Vec<u8>, OutOfMemory>
    ensures { IfOk result (λ text. text.items ≡ schedule_text fault) }
{
    match fault {
        SchedFault::BadLine(line) => schedule_line_words(alloc, line, b"bad line"),
        SchedFault::PlaceOutOfRange(line) => {
            schedule_line_words(alloc, line, b"place out of range")
        }
        SchedFault::TooManyEvents(line) => schedule_line_words(alloc, line, b"too many events"),
        SchedFault::OutOfMemory => joined(alloc, b"out of memory", b""),
    }
}

fn schedule_line_words(alloc: Global, line: u32, why: &[u8]) -> Result<Vec<u8>, OutOfMemory>
    ensures { IfOk result (λ text. text.items ≡ schedule_line line why.now) }
{
    line_words(alloc, b"schedule line ", line, why)
}

fn job_words(alloc: Global, fault: &JobFault) -> Result<Vec<u8>, OutOfMemory>
    ensures { IfOk result (λ text. text.items ≡ job_text fault.now) }
{
    match fault {
        JobFault::NotToml => joined(alloc, b"job: not TOML", b""),
        JobFault::UnknownKey(key) => joined(alloc, b"job: unknown key ", key.as_bytes()),
        JobFault::Missing(key) => joined(alloc, b"job: missing ", key.as_bytes()),
        JobFault::WrongType(key) => joined(alloc, b"job: wrong type ", key.as_bytes()),
        JobFault::OutOfRange(key) => joined(alloc, b"job: out of range ", key.as_bytes()),
        JobFault::UnknownProgram => joined(alloc, b"job: unknown program", b""),
        JobFault::OutOfMemory => joined(alloc, b"out of memory", b""),
    }
}
