ghost use Rattle.std.specs.Prelude.{◌≡◌, ◌<◌, ℕ, None, Some, get_or, replicate, set, IfOk};

use gr_base::OutOfMemory;
use gr_signal::Targets;
use std::alloc::Global;
use std::marker::Model;

/// The targets of what woke at each place, from the first work that takes them until its copies, its edges or the
/// values that it was sent change. Contracts see a list of 64, with None for a place whose targets are not known.
#[derive(Drop)]
pub(crate) struct KeptTargets {
    slots: Vec<Option<Targets>>,
}

impl Model for KeptTargets {
    ghost use Rattle.std.specs.Prelude.{◌≡◌, length, List, Option};
    ghost use Rattle.gr_signal.specs.declared.target.Target.{Target};

    ghost Value = { List (Option (List Target)) };

    ghost view = { λ kept. kept.slots.items };

    ghost invariant = { λ kept. length kept.slots.items ≡ 64 };
}

impl KeptTargets {
    // Those of no place.
    pub(crate) fn none(alloc: Global) -> Result<KeptTargets, OutOfMemory>
        ensures { IfOk result (λ kept. kept ≡ replicate 64 None) }
    {
        let slots = empty_slots(alloc, 64)?;
        Ok(KeptTargets { slots })
    }

    // Those of a place, if they are kept.
    pub(crate) fn at(&self, p: u8) -> &Option<Targets>
        requires { p < 64 }
        ensures { result.now ≡ get_or self.now p None }
    {
        &self.slots[usize::from(p)]
    }

    // Those of a place are kept.
    pub(crate) fn keep(&mut self, p: u8, targets: Targets)
        requires { p < 64 }
        ensures all { self.new ≡ set self.old p (Some targets) }
        ensures there { get_or self.new p None ≡ Some targets }
    {
        self.slots[usize::from(p)] = Some(targets);
    }

    // Those of a place are no longer kept.
    pub(crate) fn forget(&mut self, p: u8)
        ensures { self.new ≡ set self.old p None }
    {
        if usize::from(p) < self.slots.len() {
            self.slots[usize::from(p)] = None;
        }
    }

    // Those of no place are kept any longer.
    pub(crate) fn forget_all(&mut self)
        ensures { (p : ℕ) → get_or self.new p None ≡ None }
    {
        for p in 0..self.slots.len() {
            self.slots[p] = None;
        }
    }
}

// As many slots, with nothing in them.
fn empty_slots(alloc: Global, count: u8) -> Result<Vec<Option<Targets>>, OutOfMemory>
    ensures { IfOk result (λ slots. slots.items ≡ replicate count None) }
{
    let mut slots = Vec::new(alloc);
    for p in 0..count {
        slots.push(None)?;
    }
    Ok(slots)
}
