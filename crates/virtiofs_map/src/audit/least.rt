//! The least bad name of those that were tried.

ghost use Rattle.std.specs.Prelude.{◌≡◌, OnOk};
ghost use Rattle.virtiofs_map.specs.AuditParts.{AllTried, is_first, none_tried, told};
ghost use Rattle.virtiofs_map.specs.Steps.{count_after};

use crate::audit::answer::Audit;
use crate::audit::question::Question;
use crate::steps::Steps;
use crate::xattrmap::{XattrName, XattrNameBuf};
use std::alloc::{AllocError, Allocator};
use std::marker::Model;

/// What came of the names tried so far.
#[derive(Drop)]
pub(crate) struct Tried<A: Allocator> {
    least: Option<XattrNameBuf<A>>,
    steps: Steps,
    /// Where names of the host are put together, one after the other.
    room: Vec<u8, A>,
}

impl<A: Allocator> Model for Tried<A> {
    ghost use Rattle.virtiofs_map.specs.AuditParts.{TriedSoFar};

    ghost Value = { TriedSoFar };

    ghost view = { λ tried. record { least = tried.least; count = tried.steps } };
}

impl<A: Allocator + Copy> Tried<A> {
    /// What there is before any name is tried.
    pub(crate) fn new(alloc: A) -> Tried<A>
        ensures { result ≡ none_tried }
    {
        Tried {
            least: None,
            steps: Steps::new(),
            room: Vec::new(alloc),
        }
    }

    /// Tries one more name, and counts it.
    pub(crate) fn try_name(
        &mut self,
        alloc: A,
        question: &Question<'_>,
        name: XattrName<'_>,
    ) -> Result<(), AllocError>
        ensures tried { OnOk result (AllTried question.now (λ _ one. one ≡ name.entry.bytes.now) 1
            self.old self.new) }
        ensures counted { OnOk result (self.new.count ≡ count_after self.old.count 1) }
    {
        self.steps.tick();
        self.look_at(alloc, question, name)
    }

    /// Tries one more name, and does not count it: keeps it if it is bad and comes before the least
    /// bad name so far.
    pub(crate) fn look_at(
        &mut self,
        alloc: A,
        question: &Question<'_>,
        name: XattrName<'_>,
    ) -> Result<(), AllocError>
        ensures tried { OnOk result (AllTried question.now (λ _ one. one ≡ name.entry.bytes.now) 0
            self.old self.new) }
        ensures uncounted { OnOk result (self.new.count ≡ self.old.count) }
    {
        if !self.is_first(name) {
            return Ok(());
        }
        if !question.is_bad(&mut self.room, name.bytes)? {
            return Ok(());
        }
        self.least = Some(XattrNameBuf::copy_of(alloc, name.bytes)?);
        Ok(())
    }

    /// Whether the name comes before the least bad name so far.
    pub(crate) fn is_first(&self, name: XattrName<'_>) -> bool
        ensures { result ≡ is_first self.now.least name.entry.bytes.now }
    {
        match &self.least {
            Some(found) => name.bytes.cmp(&found.as_name().bytes).is_lt(),
            None => true,
        }
    }

    /// How many names were counted.
    pub(crate) fn steps(&self) -> &Steps
        ensures { result.now ≡ self.now.count }
    {
        &self.steps
    }

    /// The answer, once all names that need to be tried were tried.
    pub(crate) fn into_answer(self) -> Audit<A>
        ensures { told result ≡ self.least }
    {
        let Tried {
            least,
            steps: _,
            room: _,
        } = self;
        match least {
            Some(name) => Audit::No(name),
            None => Audit::Yes,
        }
    }
}
