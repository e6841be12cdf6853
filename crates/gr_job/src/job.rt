ghost use Rattle.std.specs.Prelude.{◌≤◌};
ghost use Rattle.gr_job.specs.Seeds.{seed_count};

use gr_base::Items;

/// The program of a job, with its parameter where it has one.
#[derive(Debug, Drop)]
pub enum ProgramChoice {
    /// Least sums of weights from a source.
    Shortest(u32),
    /// Least numbers of edges from a source, with a parent.
    Hops(u32),
    /// The least vertex that reaches a vertex.
    Labels,
    /// Rank by links, in millionths.
    Rank,
    /// The number of edges into a vertex.
    InDegree,
    /// The core in which each vertex has at least so many neighbours.
    Core(u32),
    /// Which of the seeds, at most 64, reach a vertex.
    Reach(Items<u32>),
}

/// A job: the cluster that it asks for, the limits of its run, and the program.
#[derive(Debug, Drop)]
pub struct Job {
    /// How many places the graph is cut over: 1 to 64.
    pub places: u8,
    /// How many hosts stand by: 0 to 64.
    pub spares: u8,
    /// How many losses each vertex is to outlive by copies of it: 0 to 7.
    pub losses: u8,
    /// The degree from which a vertex is high.
    pub theta: u32,
    /// The most rounds of the run: 1 to 10000.
    pub rounds: u32,
    /// Whether each edge of the graph counts in both directions.
    pub undirected: bool,
    /// What is computed.
    pub program: ProgramChoice,
    pub ghost some_places: { 1 ≤ places },
    pub ghost most_places: { places ≤ 64 },
    pub ghost most_spares: { spares ≤ 64 },
    pub ghost most_losses: { losses ≤ 7 },
    pub ghost some_rounds: { 1 ≤ rounds },
    pub ghost most_rounds: { rounds ≤ 10000 },
    pub ghost most_seeds: { seed_count program ≤ 64 },
}
