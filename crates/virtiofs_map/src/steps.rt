//! A counter of steps, by which a caller sees what a lookup or an audit costs.
ghost use Rattle.std.specs.Prelude.{◌≡◌};
ghost use Rattle.virtiofs_map.specs.Steps.{count_after};

use std::marker::Model;

/// A counter of steps. A counted call adds the steps that it took to the counter that it is handed.
///
/// At 18446744073709551615 the count stays where it is. A contract sees the counter as its count.
#[derive(Debug, Drop)]
pub struct Steps {
    count: u64,
}

impl Model for Steps {
    ghost use Rattle.std.specs.Prelude.{ℕ};

    ghost Value = { ℕ };

    ghost view = { λ steps. steps.count };
}

impl Steps {
    /// A counter that stands at 0.
    #[inline(always)]
    pub fn new() -> Steps
        ensures { result ≡ 0 }
    {
        Steps { count: 0 }
    }

    /// How many steps were counted.
    pub fn count(&self) -> u64
        ensures { result ≡ self.now }
    {
        let Steps { count } = self;
        *count
    }

    /// Counts one step more.
    #[inline(always)]
    pub(crate) fn tick(&mut self)
        ensures { self.new ≡ count_after self.old 1 }
    {
        self.count = self.count.saturating_add(1);
    }

    /// Counts the steps of another counter.
    #[inline(always)]
    pub(crate) fn add(&mut self, more: &Steps)
        ensures { self.new ≡ count_after self.old more.now }
    {
        self.count = self.count.saturating_add(more.count);
    }

    /// Counts that many steps more.
    #[inline(always)]
    pub(crate) fn count_more(&mut self, more: u64)
        ensures { self.new ≡ count_after self.old more }
    {
        self.count = self.count.saturating_add(more);
    }
}
