use crate::top::imitate;
use gr_base::{Items, push_number};
use gr_outside::{MemoryFiles, MemorySink};
use std::alloc::Global;
use std::test::Fail;

mod crashes;
mod refusals;
mod results;
mod traces;

const TRIANGLE: &str = "0 1\n1 2\n0 2\n";

const SPOKES: &str = "1 0\n2 0\n3 0\n4 0\n5 0\n6 0\n";

const SHORTEST: &str = "places = 2\nprogram = \"shortest\"\nsource = 0\n";

const PLAIN: &[&str] = &["plain", "g", "j"];

const RUN: &[&str] = &["run", "g", "j", "s", "t"];

// No call of the files, and none of the output, fails.
const NONE: [u32; 2] = [0, 0];

// What a call of the program leaves.
#[derive(Drop)]
struct Left {
    status: u8,
    out: MemorySink,
    err: MemorySink,
    files: MemoryFiles,
}

// Runs the program over the files `g`, `j` and `s`. One call of the files fails, and one of the output, by their
// numbers.
fn run_program(
    alloc: Global,
    words: &[&str],
    [graph, job, schedule]: [&str; 3],
    [failing_call, failing_put]: [u32; 2],
) -> Result<Left, Fail> {
    let mut files = MemoryFiles::new(alloc, listed(alloc, failing_call)?);
    files.add("g", graph.as_bytes())?;
    files.add("j", job.as_bytes())?;
    files.add("s", schedule.as_bytes())?;
    let mut out = MemorySink::new(alloc, listed(alloc, failing_put)?);
    let mut err = MemorySink::new(alloc, Items::new(alloc));
    let status = imitate(alloc, words, &mut files, &mut out, &mut err);
    Ok(Left {
        status,
        out,
        err,
        files,
    })
}

// The numbers of the calls that fail: one, or none.
fn listed(alloc: Global, call: u32) -> Result<Items<u32>, Fail> {
    let mut calls = Items::new(alloc);
    if call > 0 {
        calls.push(call)?;
    }
    Ok(calls)
}

// The line of the status, then the output, then the messages.
fn answer(
    alloc: Global,
    words: &[&str],
    inputs: [&str; 3],
    failing: [u32; 2],
) -> Result<Vec<u8>, Fail> {
    let left = run_program(alloc, words, inputs, failing)?;
    let mut text = Vec::new(alloc);
    push_number(alloc, &mut text, u64::from(left.status))?;
    text.push(b'\n')?;
    text.extend_from_slice(left.out.taken())?;
    text.extend_from_slice(left.err.taken())?;
    Ok(text)
}

// The bytes of a file after the call, or none where it is missing.
fn file_after(
    alloc: Global,
    name: &str,
    words: &[&str],
    inputs: [&str; 3],
    failing: [u32; 2],
) -> Result<Vec<u8>, Fail> {
    let left = run_program(alloc, words, inputs, failing)?;
    let bytes = Vec::from_slice(alloc, left.files.bytes_of(name).unwrap_or(b""))?;
    Ok(bytes)
}
