ghost use Rattle.std.specs.Prelude.{◌≡◌};
ghost use Rattle.gr_view.specs.Modes as modes;
ghost use Rattle.gr_core.specs.Turns.{turn_in};

use gr_view::Mode;

/// What a place is to do until the run is over: nothing, to install what is pending, to adopt a new epoch, the work of
/// a round, or the work of a rebuild.
#[derive(Clone, Copy, Debug, PartialEq, Eq)]
pub(crate) enum Turn {
    Rest,
    Install,
    Adopt,
    Act,
    Rebuild,
}

// What a mode asks of a place that has installed every commit and adopted the epoch.
pub(crate) fn turn_in(mode: Mode) -> Turn
    ensures { result ≡ turn_in mode }
{
    match mode {
        Mode::Running => Turn::Act,
        Mode::Recovering | Mode::Repairing => Turn::Rebuild,
        Mode::Failed | Mode::Done | Mode::Lost => Turn::Rest,
    }
}

// Nothing happens any more.
pub(crate) fn is_over(mode: Mode) -> bool
    ensures { result ≡ modes.is_over mode }
{
    match mode {
        Mode::Done | Mode::Lost => true,
        _ => false,
    }
}

// A failure was found, and no recovery is open yet.
pub(crate) fn is_failed(mode: Mode) -> bool
    ensures { result ≡ modes.is_failed mode }
{
    match mode {
        Mode::Failed => true,
        _ => false,
    }
}

// A recovery or a repair is open.
pub(crate) fn is_rebuild(mode: Mode) -> bool
    ensures { result ≡ modes.is_rebuild mode }
{
    match mode {
        Mode::Recovering | Mode::Repairing => true,
        _ => false,
    }
}

// A repair is open.
pub(crate) fn is_repair(mode: Mode) -> bool
    ensures { result ≡ modes.is_repair mode }
{
    match mode {
        Mode::Repairing => true,
        _ => false,
    }
}
