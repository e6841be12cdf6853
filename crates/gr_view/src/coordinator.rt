ghost use Rattle.std.specs.Prelude.{◌≡◌, ◌+◌, ◌-◌, ◌^◌, ◌<◌, ◌≤◌, ◌&&◌, not, IsTrue, IsNone, ◌↔◌, length};
ghost use Rattle.gr_base.specs.Rising.{has as is_in, includes as holds_all};
ghost use Rattle.gr_view.specs.Modes.{is_over, is_failed, is_rebuild, is_open, is_round};
ghost use Rattle.gr_view.specs.Decisions.{first_coordinator, parties, reported, raised};
ghost use Rattle.gr_view.specs.Decisions.{failed, sent_back, committed, round_committed};
ghost use Rattle.gr_view.specs.Decisions.{rebuild_committed, unready, looked_at, at_barrier};
ghost use Rattle.gr_view.specs.Decisions.{at_recovery, at_repair, at_discard, may_recover};
ghost use Rattle.gr_view.specs.Room.{HasRoom};
ghost use Rattle.gr_view.specs.Answers.{ToldFailed, ToldNotReady, ToldIdle, opens_nothing, tells_loss};

use gr_base::PlaceSet;

/// What the cluster is at: rounds of the program, a failure that was found, a recovery from it, a repair of missing
/// copies, or one of the two ends.
#[derive(Clone, Copy, Debug, PartialEq, Eq)]
pub enum Mode {
    Running,
    Failed,
    Recovering,
    Repairing,
    Done,
    Lost,
}

/// What the coordinator knows.
///
/// The epoch rises with every commit, failure, opening and discard. `commits` counts all commits and `round` those of
/// rounds. Every place is live, dead or retired; a reborn place is a dead one whose part a spare takes. `ready` are the
/// places that have reported in this epoch, and `due` is the sum of the vertices due that they reported.
#[derive(Clone, Copy, Debug, PartialEq, Eq)]
pub struct Coordinator {
    pub mode: Mode,
    pub epoch: u64,
    pub commits: u64,
    pub round: u32,
    pub limit: u32,
    pub live: PlaceSet,
    pub dead: PlaceSet,
    pub retired: PlaceSet,
    pub reborn: PlaceSet,
    pub spares: u8,
    pub ready: PlaceSet,
    pub due: u32,
}

/// What a barrier finds: the places that crashed; a commit, with the counts of commits and rounds and the sum of the
/// vertices due; the least place that has not reported; or nothing to decide.
#[derive(Clone, Copy, Debug, PartialEq, Eq)]
pub enum Verdict {
    Failed(PlaceSet),
    Committed(u64, u32, u32),
    NotReady(u8),
    Idle,
}

/// What comes of a recovery: it opens in a new epoch, or some vertex is lost, or it may not open now.
#[derive(Clone, Copy, Debug, PartialEq, Eq)]
pub enum Opening {
    Opened(u64),
    Lost,
    Idle,
}

impl Mode {
    // Nothing happens any more.
    fn is_over(self) -> bool
        ensures { result ≡ is_over self }
    {
        match self {
            Mode::Done | Mode::Lost => true,
            _ => false,
        }
    }

    // A failure was found, and nothing is open.
    fn is_failed(self) -> bool
        ensures { result ≡ is_failed self }
    {
        match self {
            Mode::Failed => true,
            _ => false,
        }
    }

    // Places work on a recovery or a repair.
    fn is_rebuild(self) -> bool
        ensures { result ≡ is_rebuild self }
    {
        match self {
            Mode::Recovering | Mode::Repairing => true,
            _ => false,
        }
    }
}

impl Coordinator {
    /// The coordinator at load, of at most 64 places. A graph without a vertex is done at once.
    pub fn new(places: u8, spares: u8, limit: u32, any_vertex: bool) -> Coordinator
        requires { places ≤ 64 }
        ensures { result ≡ first_coordinator places spares limit any_vertex }
    {
        Coordinator {
            mode: if any_vertex {
                Mode::Running
            } else {
                Mode::Done
            },
            epoch: 0,
            commits: 0,
            round: 0,
            limit,
            live: PlaceSet::all(places),
            dead: PlaceSet::none(),
            retired: PlaceSet::none(),
            reborn: PlaceSet::none(),
            spares,
            ready: PlaceSet::none(),
            due: 0,
        }
    }

    /// The places that take part: the live and the reborn ones.
    pub fn parties(&self) -> PlaceSet
        ensures { result ≡ parties self.now }
    {
        self.live.union(self.reborn)
    }

    /// A party reports that it is ready, once in an epoch, with the number of vertices that it masters and that are due
    /// next.
    pub fn report(&mut self, p: u8, due: u32)
        requires place { p < 64 }
        requires party { IsTrue (is_in (parties self.old) p) }
        requires first { IsTrue (not (is_in self.old.ready p)) }
        requires sum { self.old.due + due < 2 ^ 32 }
        ensures { self.new ≡ reported self.old p due }
    {
        self.ready = self.ready.with(p);
        self.due += due;
    }

    // A new epoch begins, in which nobody has reported.
    fn raise_epoch(&mut self)
        requires { self.old.epoch < 2 ^ 64 - 1 }
        ensures { self.new ≡ raised self.old }
    {
        self.epoch += 1;
        self.ready = PlaceSet::none();
        self.due = 0;
    }

    // An open recovery ends. The spare of each reborn place that has not crashed comes back.
    fn send_back(&mut self, crashed: PlaceSet)
        requires epoch { self.old.epoch < 2 ^ 64 - 1 }
        requires spares { self.old.spares + length self.old.reborn ≤ 255 }
        ensures { self.new ≡ sent_back self.old crashed }
    {
        let back = self.reborn.difference(crashed).count() as u8;
        self.raise_epoch();
        self.mode = Mode::Failed;
        self.spares += back;
        self.reborn = PlaceSet::none();
    }

    // Places have crashed: they are dead, and an open recovery ends.
    fn fail(&mut self, crashed: PlaceSet)
        requires epoch { self.old.epoch < 2 ^ 64 - 1 }
        requires spares { self.old.spares + length self.old.reborn ≤ 255 }
        ensures { self.new ≡ failed self.old crashed }
    {
        self.live = self.live.difference(crashed);
        self.dead = self.dead.union(crashed);
        self.send_back(crashed);
    }

    // The least party that has not reported.
    fn unready(&self) -> Option<u8>
        ensures { result ≡ unready self.now }
    {
        self.parties().difference(self.ready).first()
    }

    // The round or the rebuild takes effect.
    fn commit(&mut self)
        requires epoch { self.old.epoch < 2 ^ 64 - 1 }
        requires commits { self.old.commits < 2 ^ 64 - 1 }
        requires rounds { self.old.round < 2 ^ 32 - 1 }
        ensures { self.new ≡ committed self.old }
    {
        if self.mode.is_rebuild() {
            self.commit_rebuild();
        } else {
            self.commit_round();
        }
    }

    // A round takes effect. It is the last where no vertex is due next, or where the limit is reached.
    fn commit_round(&mut self)
        requires epoch { self.old.epoch < 2 ^ 64 - 1 }
        requires commits { self.old.commits < 2 ^ 64 - 1 }
        requires rounds { self.old.round < 2 ^ 32 - 1 }
        ensures { self.new ≡ round_committed self.old }
    {
        let last = (self.due == 0) | (self.round + 1 == self.limit);
        self.raise_epoch();
        self.commits += 1;
        self.round += 1;
        self.mode = if last { Mode::Done } else { Mode::Running };
    }

    // A rebuild takes effect: the reborn places are live, and each other dead place is retired.
    fn commit_rebuild(&mut self)
        requires epoch { self.old.epoch < 2 ^ 64 - 1 }
        requires commits { self.old.commits < 2 ^ 64 - 1 }
        ensures { self.new ≡ rebuild_committed self.old }
    {
        self.raise_epoch();
        self.commits += 1;
        self.mode = Mode::Running;
        self.live = self.live.union(self.reborn);
        self.retired = self.retired.union(self.dead.difference(self.reborn));
        self.dead = PlaceSet::none();
        self.reborn = PlaceSet::none();
    }

    /// The barrier decides: a failure where places have crashed, else a commit where every party has reported.
    ///
    /// `crashed` are the crashed ones of the parties, or of the live places after a failure. `Failed` names exactly
    /// these; `NotReady` names the least party without a report; `Idle` comes after the end, and after a failure where
    /// no further place has crashed. In these last two cases nothing changes.
    pub fn barrier(&mut self, crashed: PlaceSet) -> Verdict
        requires crashed { IsTrue (holds_all (looked_at self.old) crashed) }
        requires room { HasRoom self.old }

        ensures decision { (self.new, result) ≡ at_barrier self.old crashed }
        ensures failed { ToldFailed self.old crashed result }
        ensures not_ready { ToldNotReady self.old crashed result }
        ensures idle { ToldIdle self.old crashed result }
    {
        if self.mode.is_over() {
            return Verdict::Idle;
        }
        if crashed.count() > 0 {
            self.fail(crashed);
            return Verdict::Failed(crashed);
        }
        if self.mode.is_failed() {
            return Verdict::Idle;
        }
        match self.unready() {
            Some(p) => Verdict::NotReady(p),
            None => {
                let due = self.due;
                self.commit();
                Verdict::Committed(self.commits, self.round, due)
            }
        }
    }

    /// A recovery opens after a failure, with a spare for each place of `rebirth`. `any_lost` tells whether some vertex
    /// has no holder left.
    ///
    /// `Idle` where it may not open: the mode is not `Failed`, a named place is not dead, or the spares are too few.
    /// Else `Lost` where a vertex is lost, and then the mode alone changes.
    pub fn open_recovery(&mut self, rebirth: PlaceSet, any_lost: bool) -> Opening
        requires epoch { self.old.epoch < 2 ^ 64 - 1 }

        ensures decision { (self.new, result) ≡ at_recovery self.old rebirth any_lost }
        ensures idle { opens_nothing result ≡ not (may_recover self.old rebirth) }
        ensures lost { tells_loss result ≡ (may_recover self.old rebirth && any_lost) }
    {
        if !self.may_recover(rebirth) {
            return Opening::Idle;
        }
        if any_lost {
            self.mode = Mode::Lost;
            return Opening::Lost;
        }
        self.raise_epoch();
        self.mode = Mode::Recovering;
        self.reborn = rebirth;
        self.spares = spares_left(self.spares, rebirth.count());
        Opening::Opened(self.epoch)
    }

    // Whether a recovery may open: after a failure, with dead places and enough spares for them.
    fn may_recover(&self, rebirth: PlaceSet) -> bool
        ensures { result ≡ may_recover self.now rebirth }
    {
        self.mode.is_failed()
            & self.dead.includes(rebirth)
            & (rebirth.count() <= u32::from(self.spares))
    }

    /// A repair opens in the place of a round, and gives the new epoch. None where the mode is not `Running`.
    pub fn open_repair(&mut self) -> Option<u64>
        requires epoch { self.old.epoch < 2 ^ 64 - 1 }

        ensures decision { (self.new, result) ≡ at_repair self.old self.old.mode }
        ensures none { IsNone result ↔ IsTrue (not (is_round self.old.mode)) }
    {
        if let Mode::Running = self.mode {
            self.raise_epoch();
            self.mode = Mode::Repairing;
            Some(self.epoch)
        } else {
            None
        }
    }

    /// The open round, recovery or repair is dropped, and the new epoch is given. `crashed` are the parties whose
    /// machines are down; the spares of the other reborn places come back. None where nothing is open.
    pub fn discard(&mut self, crashed: PlaceSet) -> Option<u64>
        requires crashed { IsTrue (holds_all (parties self.old) crashed) }
        requires epoch { self.old.epoch < 2 ^ 64 - 1 }
        requires spares { self.old.spares + length self.old.reborn ≤ 255 }

        ensures decision { (self.new, result) ≡ at_discard self.old crashed self.old.mode }
        ensures none { IsNone result ↔ IsTrue (not (is_open self.old.mode)) }
    {
        match self.mode {
            Mode::Running | Mode::Repairing => {
                self.raise_epoch();
                self.mode = Mode::Running;
                Some(self.epoch)
            }
            Mode::Recovering => {
                self.send_back(crashed);
                Some(self.epoch)
            }
            _ => None,
        }
    }
}

// The spares that are left where some are taken.
fn spares_left(spares: u8, taken: u32) -> u8
    requires { taken ≤ spares }
    ensures { result ≡ spares - taken }
{
    spares - taken as u8
}
