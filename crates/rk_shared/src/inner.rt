//! What lies behind the lock.
ghost use Rattle.std.specs.Prelude.{◌≡◌, ◌<◌, ◌≤◌, All, length};
ghost use Rattle.rk_model.specs.declared.limits.TheConstants.{CLOCK};
ghost use Rattle.rk_model.specs.Histories.{Legal};
ghost use Rattle.rk_model.specs.Keys.{seat_key};
ghost use Rattle.rk_model.specs.Text.Scenarios.{cpus_in};
ghost use Rattle.rk_journal.specs.Logs.{entries_of};
ghost use Rattle.rk_shared.specs.SeatViews.{AreSeatsOf, IsSeatOf, IsSeenIn};
ghost use Rattle.rk_shared.specs.SeatSteps.{IsStepOf, IsTickOf, HasMet};

use crate::answers::{Stepped, TickAnswer};
use crate::hint::LengthHint;
use crate::placing::place;
use crate::run_name::RunName;
use crate::seats::{Clock, Cpu};
use rk_io::Gate;
use rk_journal::{Journal, JournalState, Mark, Marks, close_journal, meet};
use rk_kernel::{CoreStep, CoreTick, Parts, step_all, tick_all};
use rk_model::limits::CLOCK;
use rk_model::{Entry, History, What};
use std::marker::{Model, PhantomData};

/// The parts at the state after the history, the journal, and the marks of the nine parts. Contracts see
/// the journal.
#[derive(Drop)]
pub(crate) struct Inner<N: RunName> {
    pub(crate) parts: Parts,
    pub(crate) journal: Journal,
    pub(crate) marks: Marks,
    pub(crate) of: PhantomData<N>,
}

impl<N: RunName> Model for Inner<N> {
    ghost use Rattle.rk_journal.specs.JournalViews.{JournalView};
    ghost use Rattle.rk_shared.specs.Keeps.{Keeps};

    ghost Value = { JournalView };

    ghost view = { λ i. i.journal };

    ghost invariant = { λ i. Keeps N.scenario N.opening i.parts i.journal i.marks };
}

impl<N: RunName> Inner<N> {
    /// A processor's step, by the mark of its seat.
    pub(crate) fn step<G: Gate>(
        &mut self,
        gate: &G,
        hint: &LengthHint,
        number: u8,
        mark: Mark,
    ) -> (Stepped, Mark)
        requires mark { (mark.opening ≡ N.opening) × (mark.key ≡ seat_key number) }
        requires number { number < cpus_in N.scenario.clusters }
        ensures mark { (result.1.opening ≡ mark.opening) × (result.1.key ≡ mark.key) }
        ensures step { IsStepOf N.scenario number (entries_of mark.front) (entries_of result.1.front) result.0 }
    {
        let mut mark = mark;
        meet(&mut self.journal, &mut mark);
        match self.journal.state() {
            JournalState::Over => (Stepped::Over, mark),
            JournalState::Full => (Stepped::Full, mark),
            JournalState::Open => match step_all(&mut self.parts, number) {
                CoreStep::Nothing(why) => (Stepped::Nothing(why), mark),
                CoreStep::Did(entry) => {
                    gate.at(number);
                    let mark = place(&mut self.journal, &mut self.marks, hint, entry, mark);
                    (Stepped::Did(entry), mark)
                }
            },
        }
    }

    /// A step of the clock, by the mark of its seat.
    pub(crate) fn tick(&mut self, hint: &LengthHint, mark: Mark) -> (TickAnswer, Mark)
        requires mark { (mark.opening ≡ N.opening) × (mark.key ≡ seat_key CLOCK) }
        ensures mark { (result.1.opening ≡ mark.opening) × (result.1.key ≡ mark.key) }
        ensures tick { IsTickOf N.scenario (entries_of mark.front) (entries_of result.1.front) result.0 }
    {
        let mut mark = mark;
        meet(&mut self.journal, &mut mark);
        match self.journal.state() {
            JournalState::Over => (TickAnswer::Over, mark),
            JournalState::Full => (TickAnswer::Full, mark),
            JournalState::Open => match tick_all(&mut self.parts) {
                CoreTick::NotYet(cpu) => (TickAnswer::NotYet(cpu), mark),
                CoreTick::Ticked => {
                    let entry = Entry::of_clock(What::Tick);
                    let mark = place(&mut self.journal, &mut self.marks, hint, entry, mark);
                    (TickAnswer::Ticked, mark)
                }
                CoreTick::Ended => {
                    let entry = Entry::of_clock(What::End);
                    let mark = place(&mut self.journal, &mut self.marks, hint, entry, mark);
                    (TickAnswer::Ended, mark)
                }
            },
        }
    }

    /// Lets the mark of a seat see the whole history.
    pub(crate) fn see(&mut self, number: u8, mark: Mark) -> Mark
        requires mark { (mark.opening ≡ N.opening) × (mark.key ≡ seat_key number) }
        ensures same { self.new ≡ self.old }
        ensures mark { (result.opening ≡ mark.opening) × (result.key ≡ mark.key) × (result.front ≡ self.old.log) }
        ensures met { HasMet N.scenario number (entries_of mark.front) (entries_of self.old.log) }
    {
        let mut mark = mark;
        meet(&mut self.journal, &mut mark);
        mark
    }

    /// Lets the marks of two seats see the whole history.
    pub(crate) fn see_both(&mut self, one: u8, mine: Mark, other: u8, theirs: Mark) -> (Mark, Mark)
        requires one { (mine.opening ≡ N.opening) × (mine.key ≡ seat_key one) }
        requires other { (theirs.opening ≡ N.opening) × (theirs.key ≡ seat_key other) }
        ensures marks { (result.0.opening ≡ mine.opening) × (result.0.key ≡ mine.key) × (result.1.opening ≡ theirs.opening) × (result.1.key ≡ theirs.key) }
        ensures front { result.0.front ≡ result.1.front }
        ensures one { HasMet N.scenario one (entries_of mine.front) (entries_of result.0.front) }
        ensures other { HasMet N.scenario other (entries_of theirs.front) (entries_of result.1.front) }
    {
        let mine = self.see(one, mine);
        let theirs = self.see(other, theirs);
        (mine, theirs)
    }

    /// Takes a processor's seat back. Its front is a beginning of the history.
    pub(crate) fn take_cpu(&mut self, cpu: Cpu)
        requires { IsSeatOf N.scenario N.opening cpu }
        ensures same { self.new ≡ self.old }
        ensures seen { IsSeenIn (entries_of self.old.log) cpu }
    {
        let Cpu { number, mark } = cpu;
        let Some(mark) = mark else { unreachable!() };
        self.see(number, mark);
    }

    /// Takes the seats of processors back. The front of each is a beginning of the history.
    pub(crate) fn take_cpus(&mut self, cpus: Vec<Cpu>)
        requires { AreSeatsOf N.scenario N.opening cpus.items }
        ensures same { self.new ≡ self.old }
        ensures seen { All (IsSeenIn (entries_of self.old.log)) cpus.items }
    {
        let mut cpus = cpus;
        if let Some(cpu) = cpus.pop() {
            self.take_cpu(cpu);
            self.take_cpus(cpus);
        }
    }

    /// Takes the clock's seat back. Its front is a beginning of the history.
    pub(crate) fn take_clock(&mut self, clock: Clock)
        requires { clock.opening ≡ N.opening }
        ensures same { self.new ≡ self.old }
        ensures seen { IsSeenIn (entries_of self.old.log) clock }
    {
        let Clock { mark } = clock;
        let Some(mark) = mark else { unreachable!() };
        self.see(CLOCK, mark);
    }

    /// The history.
    pub(crate) fn into_history(self) -> History
        ensures entries { result.entries ≡ entries_of self.log }
        ensures legal { Legal N.scenario result.entries }
        ensures within { length result.entries ≤ N.scenario.limit }
    {
        let Inner {
            parts: _,
            journal,
            marks: _,
            of: _,
        } = self;
        close_journal(journal)
    }
}
