// A cluster that counts the steps that it takes, and tells each.
ghost use Rattle.std.specs.Prelude.{ℕ, ◌≡◌, ◌+◌, ◌<◌, ◌≤◌, length, true};
ghost use Rattle.gr_sched.specs.declared.event.Event.TheVariants as kind;

use gr_base::{OutOfMemory, push_number};
use gr_core::Cluster;
use gr_edges::read_graph;
use gr_job::read_job;
use gr_play::next_canonical;
use gr_program::{Datum, VertexCopy, VertexProgram};
use gr_report::{push_lost, push_outcome, push_results};
use gr_sched::Event;
use gr_view::Mode;
use std::alloc::Global;
use std::test::Fail;

/// A cluster whose counts are at most the steps that it has taken.
#[derive(Drop)]
pub(crate) struct Stepped<P: VertexProgram> {
    alloc: Global,
    cluster: Cluster<P>,
    taken: u64,
    ghost serial: { cluster.cluster.serial ≤ taken },
    ghost epoch: { cluster.cluster.coordinator.epoch ≤ taken },
    ghost commits: { cluster.cluster.coordinator.commits ≤ taken },
    ghost flight: { length cluster.cluster.flight ≤ taken },
}

impl<P: VertexProgram> Stepped<P> {
    /// The cluster of a graph and a job, at load.
    pub(crate) fn load(
        alloc: Global,
        graph: &[u8],
        job: &[u8],
        program: P,
    ) -> Result<Stepped<P>, Fail>
        requires { length graph.now ≤ 268435456 }
    {
        let graph = read_graph(alloc, graph, false)?;
        let job = read_job(alloc, job)?;
        let cluster = Cluster::load(alloc, &graph, &job, program)?;
        Ok(Stepped {
            alloc,
            cluster,
            taken: 0,
        })
    }

    // Whether an event is of a place that there is.
    fn is_placed(&self, event: Event) -> bool
        ensures worker { result ≡ true → (p : ℕ) → event ≡ kind.Work p → p < self.now.cluster.cluster.places }
        ensures crashed { result ≡ true → (p n : ℕ) → event ≡ kind.Crash p n → p < self.now.cluster.cluster.places }
    {
        match event {
            Event::Work(p) => p < self.cluster.places(),
            Event::Crash(p, _) => p < self.cluster.places(),
            _ => true,
        }
    }

    /// Takes a step, and appends its line. An event of a place that is not there, and one after very many steps, is not
    /// taken, and the line says so.
    pub(crate) fn take(&mut self, event: Event, lines: &mut Vec<u8>) -> Result<(), OutOfMemory> {
        let asked = event;
        if self.taken >= 100000 || !self.is_placed(asked) {
            lines.extend_from_slice(b"not taken\n")?;
            return Ok(());
        }
        let told = step(self.alloc, &mut self.cluster, event, lines);
        self.taken += 1;
        told
    }

    /// Takes the events that come next where nobody chooses, through a barrier, and returns their lines.
    pub(crate) fn settle(&mut self) -> Result<Vec<u8>, OutOfMemory> {
        let mut lines = Vec::new(self.alloc);
        for _ in 0..1000 {
            match next_canonical(&self.cluster) {
                Some(event) => {
                    let is_barrier = matches!(event, Event::Barrier);
                    self.take(event, &mut lines)?;
                    if is_barrier {
                        break;
                    }
                }
                None => break,
            }
        }
        Ok(lines)
    }

    /// The copies of the first vertices, with a line for each place: of each copy its vertex, in-degree, out-degree,
    /// master, holders, value and whether it is due.
    pub(crate) fn copies(&self, vertices: u32) -> Result<Vec<u8>, OutOfMemory> {
        let mut text = Vec::new(self.alloc);
        for p in 0..self.cluster.places() {
            push_number(self.alloc, &mut text, u64::from(p))?;
            text.extend_from_slice(b" has")?;
            for v in 0..vertices {
                if let Some(copy) = self.cluster.copy_at(p, v) {
                    push_copy(self.alloc, &mut text, &copy)?;
                }
            }
            text.push(b'\n')?;
        }
        Ok(text)
    }

    /// The results, once the run is done, the lost vertices, once it has lost some, and else nothing.
    pub(crate) fn results(&self) -> Result<Vec<u8>, OutOfMemory> {
        let mut text = Vec::new(self.alloc);
        match self.cluster.mode() {
            Mode::Done => {
                let values = self.cluster.results()?;
                push_results(
                    self.alloc,
                    &mut text,
                    self.cluster.rounds(),
                    values.as_slice(),
                )?;
            }
            Mode::Lost => {
                let vertices = self.cluster.lost_list()?;
                push_lost(self.alloc, &mut text, vertices.as_slice())?;
            }
            _ => {}
        }
        Ok(text)
    }
}

// A step, whose line is appended. It raises each count by one at most.
fn step<P: VertexProgram>(
    alloc: Global,
    cluster: &mut Cluster<P>,
    event: Event,
    lines: &mut Vec<u8>,
) -> Result<(), OutOfMemory>
    requires worker { (p : ℕ) → event ≡ kind.Work p → p < cluster.old.cluster.places }
    requires crashed { (p n : ℕ) → event ≡ kind.Crash p n → p < cluster.old.cluster.places }
    requires serial { cluster.old.cluster.serial < 1000000 }
    requires epoch { cluster.old.cluster.coordinator.epoch < 1000000 }
    requires commits { cluster.old.cluster.coordinator.commits < 1000000 }
    requires flight { length cluster.old.cluster.flight < 1000000 }
    ensures serial { cluster.new.cluster.serial ≤ cluster.old.cluster.serial + 1 }
    ensures epoch { cluster.new.cluster.coordinator.epoch ≤ cluster.old.cluster.coordinator.epoch + 1 }
    ensures commits { cluster.new.cluster.coordinator.commits ≤ cluster.old.cluster.coordinator.commits + 1 }
    ensures flight { length cluster.new.cluster.flight ≤ length cluster.old.cluster.flight + 1 }
{
    let told = event;
    match cluster.step(event) {
        Ok(outcome) => push_outcome(alloc, lines, told, &outcome),
        Err(fault) => Err(fault),
    }
}

fn push_copy<V: Datum>(
    alloc: Global,
    text: &mut Vec<u8>,
    copy: &VertexCopy<V>,
) -> Result<(), OutOfMemory> {
    let mut sign = b' ';
    for number in [copy.vertex, copy.indeg, copy.outdeg, u32::from(copy.master)] {
        text.push(sign)?;
        push_number(alloc, text, u64::from(number))?;
        sign = b':';
    }
    for p in 0..64 {
        if copy.holders.has(p) {
            text.push(sign)?;
            push_number(alloc, text, u64::from(p))?;
            sign = b',';
        }
    }
    text.push(b':')?;
    match copy.value {
        Some(value) => value.push_text(alloc, text)?,
        None => text.push(b'-')?,
    }
    text.extend_from_slice(if copy.due { b":1" } else { b":0" })?;
    Ok(())
}
