ghost use Rattle.std.specs.Prelude.{◌≡◌, ◌<◌, ◌≤◌, length, filter, IfOk};
ghost use Rattle.gr_base.specs.Places.{below};
ghost use Rattle.gr_edges.specs.Vertices.{ids};
ghost use Rattle.gr_cluster.specs.Tables.{is_up};
ghost use Rattle.gr_cluster.specs.Load.{load};
ghost use Rattle.gr_core.specs.Loaded.{setting_of};
ghost use Rattle.gr_core.specs.Tables as tables;

mod back;
mod barrier;
mod can_work;
mod crash;
mod discard;
mod down;
mod lost;
mod network;
mod rebuild;
mod recover;
mod repair;
mod results;
mod retired;
mod spares;
mod step;
mod work;

use crate::host::Host;
use crate::load::first_places;
use crate::targets::KeptTargets;
use gr_base::{Items, OutOfMemory, PlaceSet};
use gr_copies::first_holders;
use gr_cut::cut;
use gr_edges::Graph;
use gr_flight::Flight;
use gr_job::Job;
use gr_log::EdgeLog;
use gr_migrate::LoggedEdge;
use gr_program::{VertexCopy, VertexProgram};
use gr_view::{Coordinator, Mode};
use std::alloc::Global;
use std::marker::Model;

/// A cluster of places, each with a machine that may be down and a log that outlives it, and the batches between them.
///
/// It agrees at all times with some committed state of the graph, its copies and their values, whatever places are
/// down.
#[derive(Drop)]
pub struct Cluster<P: VertexProgram> {
    pub(crate) alloc: Global,
    pub(crate) hosts: Vec<Option<Host<P>>>,
    pub(crate) logs: Vec<EdgeLog>,
    pub(crate) flight: Flight<P::Value, P::Acc>,
    pub(crate) serial: u64,
    pub(crate) coordinator: Coordinator,
    pub(crate) places: u8,
    pub(crate) losses: u8,
    pub(crate) theta: u32,
    pub(crate) program: P,
    pub(crate) kept: KeptTargets,
    pub(crate) resting: PlaceSet,
    pub(crate) retired: Option<Items<LoggedEdge>>,
}

impl<P: VertexProgram> Model for Cluster<P> {
    ghost use Rattle.gr_core.specs.Tables.{Tables, Keeps};

    ghost Value = { Tables P P.Value P.Acc };

    ghost view = { λ c. record {
      program = c.program;
      cluster = record {
        hosts = c.hosts.items;
        logs = c.logs.items;
        flight = c.flight;
        serial = c.serial;
        coordinator = c.coordinator;
        places = c.places;
        losses = c.losses;
        theta = c.theta;
      };
    } };

    ghost invariant = { λ c. Keeps (P.program_of c.program)
        (record {
          hosts = c.hosts.items;
          logs = c.logs.items;
          flight = c.flight;
          serial = c.serial;
          coordinator = c.coordinator;
          places = c.places;
          losses = c.losses;
          theta = c.theta;
        }) c.kept c.resting c.retired };
}

impl<P: VertexProgram> Cluster<P> {
    ghost use Rattle.gr_law_runs.specs.Undisturbed.{RunsUndisturbed};

    /// The cluster before the first round: the graph is cut over the places of the job, and each vertex has its copies
    /// where its edges stand and where the losses of the job ask for more. All logs are committed.
    ///
    /// The one error is that memory ran out. In time linear in the edges and in the product of the places and the
    /// vertices, with a logarithm in the vertices for each edge.
    pub fn load(
        alloc: Global,
        graph: &Graph,
        job: &Job,
        program: P,
    ) -> Result<Cluster<P>, OutOfMemory>
        requires edges { length graph.now.edges ≤ 4194304 }
        requires vertices { length graph.now.vertices ≤ 1048576 }
        ensures cluster { IfOk result (λ c. c
            ≡ record {
              program = program;
              cluster = load (P.program_of program) (setting_of job.now) graph.now.edges
                  (ids graph.now.vertices);
            }) }
        ensures undisturbed { IfOk result (λ c. RunsUndisturbed (P.program_of c.program) c.cluster) }
    {
        let theta = job.theta;
        let cut = cut(alloc, graph, job.places, theta)?;
        let directory = first_holders(alloc, graph, &cut, job.places, job.losses)?;
        let (hosts, logs) = first_places(alloc, graph, job, &program, directory.as_slice(), &cut)?;
        let kept = KeptTargets::none(alloc)?;
        let any_vertex = graph.vertex_count() > 0;
        Ok(Cluster {
            alloc,
            hosts,
            logs,
            flight: Flight::new(alloc),
            serial: 0,
            coordinator: Coordinator::new(job.places, job.spares, job.rounds, any_vertex),
            places: job.places,
            losses: job.losses,
            theta,
            program,
            kept,
            resting: PlaceSet::none(),
            retired: None,
        })
    }

    /// How many places there are.
    pub fn places(&self) -> u8
        ensures count { result ≡ self.now.cluster.places }
        ensures hosts { length self.now.cluster.hosts ≡ self.now.cluster.places }
        ensures few { self.now.cluster.places ≤ 64 }
    {
        self.places
    }

    /// The places whose machines are up.
    pub fn up(&self) -> PlaceSet
        ensures { result ≡ filter (is_up self.now.cluster) (below self.now.cluster.places) }
    {
        let mut up = PlaceSet::none();
        for p in 0..self.places() {
            if self.hosts[usize::from(p)].is_some() {
                up = up.with(p);
            }
        }
        up
    }

    /// How many batches are in flight.
    pub fn flight_len(&self) -> u32
        ensures { result ≡ length self.now.cluster.flight }
    {
        self.flight.len()
    }

    /// What the coordinator knows.
    pub fn coordinator(&self) -> Coordinator
        ensures { result ≡ self.now.cluster.coordinator }
    {
        self.coordinator
    }

    /// What the cluster is at.
    pub fn mode(&self) -> Mode
        ensures mode { result ≡ self.now.cluster.coordinator.mode }
        ensures agrees { tables.Agrees (P.program_of self.now.program) self.now.cluster }
    {
        self.coordinator.mode
    }

    /// How many rounds are committed.
    pub fn rounds(&self) -> u32
        ensures { result ≡ self.now.cluster.coordinator.round }
    {
        self.coordinator.round
    }

    /// The effective copy of a vertex at a place. None exactly where the machine of the place is down or has no copy of
    /// it. In time logarithmic in the copies of the place.
    pub fn copy_at(&self, p: u8, v: u32) -> Option<VertexCopy<P::Value>>
        requires { p < self.now.cluster.places }
        ensures { result ≡ tables.copy_at self.now.cluster p v }
    {
        let _count = self.places();
        match &self.hosts[usize::from(p)] {
            Some(host) => host.copy_of(self.coordinator.commits, v),
            None => None,
        }
    }
}
