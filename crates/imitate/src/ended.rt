ghost use Rattle.std.specs.Prelude.{◌≡◌};
ghost use Rattle.imitate.specs.Running.{end_status};

/// How a run ended: it is done, vertices are lost, or its schedule ended early.
#[derive(Clone, Copy, Debug, PartialEq, Eq)]
pub enum Ended {
    Done,
    Lost,
    Early,
}

impl Ended {
    /// The status that the program ends with.
    pub fn status(self) -> u8
        ensures { result ≡ end_status self }
    {
        match self {
            Ended::Done => 0,
            Ended::Lost => 8,
            Ended::Early => 9,
        }
    }
}
