ghost use Rattle.std.specs.Prelude.{◌≡◌, ◌≤◌, length};

use crate::ProgramChoice;
use gr_base::Items;

/// The programs by name.
#[derive(Clone, Copy, Debug, PartialEq, Eq)]
pub(crate) enum Name {
    Shortest,
    Hops,
    Labels,
    Rank,
    InDegree,
    Core,
    Reach,
}

impl Name {
    ghost use Rattle.gr_job.specs.Names.{name_of, needs_source, needs_k, needs_seeds, choice_of};

    /// The program that is called so.
    pub(crate) fn of(text: &str) -> Option<Name>
        ensures { result ≡ name_of text.now }
    {
        match text {
            "shortest" => Some(Name::Shortest),
            "hops" => Some(Name::Hops),
            "labels" => Some(Name::Labels),
            "rank" => Some(Name::Rank),
            "indegree" => Some(Name::InDegree),
            "core" => Some(Name::Core),
            "reach" => Some(Name::Reach),
            _ => None,
        }
    }

    pub(crate) fn needs_source(self) -> bool
        ensures { result ≡ needs_source self }
    {
        match self {
            Name::Shortest | Name::Hops => true,
            _ => false,
        }
    }

    pub(crate) fn needs_k(self) -> bool
        ensures { result ≡ needs_k self }
    {
        match self {
            Name::Core => true,
            _ => false,
        }
    }

    pub(crate) fn needs_seeds(self) -> bool
        ensures { result ≡ needs_seeds self }
    {
        match self {
            Name::Reach => true,
            _ => false,
        }
    }

    /// The program with the parameter that it needs.
    pub(crate) fn choice(self, source: u32, k: u32, seeds: Items<u32>) -> ProgramChoice
        ensures { result ≡ choice_of self source k seeds }
    {
        match self {
            Name::Shortest => ProgramChoice::Shortest(source),
            Name::Hops => ProgramChoice::Hops(source),
            Name::Labels => ProgramChoice::Labels,
            Name::Rank => ProgramChoice::Rank,
            Name::InDegree => ProgramChoice::InDegree,
            Name::Core => ProgramChoice::Core(k),
            Name::Reach => ProgramChoice::Reach(seeds),
        }
    }
}
