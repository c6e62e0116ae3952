//! The kernel behind its lock.
ghost use Rattle.std.specs.Prelude.{◌≡◌, ◌≤◌, All, length};
ghost use Rattle.rk_model.specs.declared.limits.TheConstants.{CLOCK};
ghost use Rattle.rk_model.specs.Histories.{Legal};
ghost use Rattle.rk_model.specs.Text.Scenarios.{cpus_in};
ghost use Rattle.rk_shared.specs.SeatViews.{AreSeatsOf, IsSameSeat, IsSeatOf, IsSeenIn, first_seat, first_seats};
ghost use Rattle.rk_shared.specs.SeatSteps.{IsStepOf, IsTickOf, HasMet};

use crate::answers::{Stepped, TickAnswer};
use crate::hint::LengthHint;
use crate::inner::Inner;
use crate::opening::HeldOpening;
use crate::run_name::RunName;
use crate::seats::{Clock, Cpu};
use crossbeam_utils::{Backoff, CachePadded};
use rk_io::Gate;
use rk_model::History;
use rk_model::limits::CLOCK;
use std::marker::PhantomData;
use std::sync::{Mutex, MutexGuard, Wait};

/// How often a caller that finds the lock taken looks again, with pauses, before it sleeps.
const ROUNDS: u32 = 32;

/// The kernel of one opening, which threads share.
#[derive(Drop)]
pub struct Kernel<N: RunName, G: Gate> {
    lock: CachePadded<Mutex<Inner<N>>>,
    hint: LengthHint,
    gate: G,
}

/// A kernel with its seats.
#[derive(Drop)]
pub struct Opened<N: RunName, G: Gate> {
    pub kernel: Kernel<N, G>,
    /// One seat for each processor, in order.
    pub cpus: Vec<Cpu>,
    pub clock: Clock,
}

/// What is left of a kernel that was closed.
#[derive(Debug, Drop)]
pub struct Closed {
    pub history: History,
}

/// Puts an opening behind the lock, under the name that has its scenario and identity. It takes no
/// memory.
#[tactic(auto, using(crate::proofs::ProcessorSeatLemmas::first_are_seats))]
pub fn open_kernel<N: RunName, G: Gate>(opening: HeldOpening, gate: G) -> Opened<N, G>
    requires scenario { opening.scenario ≡ N.scenario }
    requires opening { opening.opening ≡ N.opening }
    ensures cpus { result.cpus.items ≡ first_seats N.opening (cpus_in N.scenario.clusters) }
    ensures of { AreSeatsOf N.scenario N.opening result.cpus.items }
    ensures clock { result.clock ≡ first_seat N.opening CLOCK }
{
    let HeldOpening {
        parts,
        journal,
        marks,
        cpus,
        clock,
    } = opening;
    let inner = Inner {
        parts,
        journal,
        marks,
        of: PhantomData,
    };
    Opened {
        kernel: Kernel {
            lock: CachePadded::new(Mutex::new(inner)),
            hint: LengthHint::new(),
            gate,
        },
        cpus,
        clock,
    }
}

impl<N: RunName, G: Gate> Kernel<N, G> {
    /// A processor's step, by its seat. The seat meets a history that goes on from its front without
    /// entries of the seat. The answer is `Over` exactly where that history ends with End, else `Full`
    /// exactly where it has as many entries as the limit, else `Nothing` exactly where after it the
    /// processor has no directive, for that reason. Otherwise it is `Did`: the processor does its
    /// directive, and the entry is appended to that history. It may wait for the lock, and takes no
    /// memory.
    pub fn step<R: Wait>(&self, rt: &R, cpu: &mut Cpu) -> Stepped
        requires { IsSeatOf N.scenario N.opening cpu.old }
        ensures seat { IsSameSeat cpu.old cpu.new }
        ensures of { IsSeatOf N.scenario N.opening cpu.new }
        ensures step { IsStepOf N.scenario cpu.old.number cpu.old.front cpu.new.front result }
    {
        let Some(mark) = cpu.mark.take() else {
            unreachable!()
        };
        let (answer, mark) = self
            .enter(rt)
            .step(&self.gate, &self.hint, cpu.number, mark);
        cpu.mark = Some(mark);
        answer
    }

    /// A step of the clock, by its seat, as that of a processor. `NotYet` comes exactly where a
    /// processor has a directive after the history that was met, and names the lowest-numbered one.
    /// Otherwise a tick passes below the horizon, and the run ends at the horizon. It may wait for the
    /// lock, and takes no memory.
    pub fn tick<R: Wait>(&self, rt: &R, clock: &mut Clock) -> TickAnswer
        requires { clock.old.opening ≡ N.opening }
        ensures seat { (clock.new.opening ≡ clock.old.opening) × (clock.new.number ≡ CLOCK) }
        ensures tick { IsTickOf N.scenario clock.old.front clock.new.front result }
    {
        let Some(mark) = clock.mark.take() else {
            unreachable!()
        };
        let (answer, mark) = self.enter(rt).tick(&self.hint, mark);
        clock.mark = Some(mark);
        answer
    }

    /// Lets the seats of two processors see one history, which goes on from the front of each without
    /// entries of that seat. It may wait for the lock, and takes no memory.
    pub fn meet<R: Wait>(&self, rt: &R, one: &mut Cpu, other: &mut Cpu)
        requires one { IsSeatOf N.scenario N.opening one.old }
        requires other { IsSeatOf N.scenario N.opening other.old }
        ensures seats { IsSameSeat one.old one.new × IsSameSeat other.old other.new }
        ensures of { IsSeatOf N.scenario N.opening one.new × IsSeatOf N.scenario N.opening other.new }
        ensures front { one.new.front ≡ other.new.front }
        ensures one { HasMet N.scenario one.old.number one.old.front one.new.front }
        ensures other { HasMet N.scenario other.old.number other.old.front other.new.front }
    {
        let Some(mine) = one.mark.take() else {
            unreachable!()
        };
        let Some(theirs) = other.mark.take() else {
            unreachable!()
        };
        let (mine, theirs) = self
            .enter(rt)
            .see_both(one.number, mine, other.number, theirs);
        one.mark = Some(mine);
        other.mark = Some(theirs);
    }

    /// Lets the clock's seat and a processor's see one history, as `meet` does.
    pub fn meet_clock<R: Wait>(&self, rt: &R, clock: &mut Clock, cpu: &mut Cpu)
        requires clock { clock.old.opening ≡ N.opening }
        requires cpu { IsSeatOf N.scenario N.opening cpu.old }
        ensures seats { (clock.new.opening ≡ clock.old.opening) × (clock.new.number ≡ CLOCK) × IsSameSeat cpu.old cpu.new }
        ensures of { IsSeatOf N.scenario N.opening cpu.new }
        ensures front { clock.new.front ≡ cpu.new.front }
        ensures clock { HasMet N.scenario CLOCK clock.old.front clock.new.front }
        ensures cpu { HasMet N.scenario cpu.old.number cpu.old.front cpu.new.front }
    {
        let Some(mine) = clock.mark.take() else {
            unreachable!()
        };
        let Some(theirs) = cpu.mark.take() else {
            unreachable!()
        };
        let (mine, theirs) = self.enter(rt).see_both(CLOCK, mine, cpu.number, theirs);
        clock.mark = Some(mine);
        cpu.mark = Some(theirs);
    }

    /// How many entries the history had when the last one was appended, without waiting for the lock.
    /// It is a hint of when a step is worth trying again: after `Nothing` or `NotYet` not before it
    /// differs from what it was before that step. No contract says anything of it; tests alone show it.
    pub fn length(&self) -> u64 {
        self.hint.get()
    }

    /// Ends the kernel, and returns the whole history. It goes on from the front of each given seat
    /// without entries of that seat. It takes no memory.
    pub fn close(self, cpus: Vec<Cpu>, clock: Clock) -> Closed
    where
        G: Drop,
        requires cpus { AreSeatsOf N.scenario N.opening cpus.items }
        requires clock { clock.opening ≡ N.opening }
        ensures legal { Legal N.scenario result.history.entries }
        ensures within { length result.history.entries ≤ N.scenario.limit }
        ensures cpus { All (IsSeenIn result.history.entries) cpus.items }
        ensures clock { IsSeenIn result.history.entries clock }
    {
        let Kernel {
            lock,
            hint: _,
            gate: _,
        } = self;
        let mut inner = lock.into_inner().into_inner();
        inner.take_cpus(cpus);
        inner.take_clock(clock);
        Closed {
            history: inner.into_history(),
        }
    }

    /// Takes the lock. Whoever has it is soon done, and a sleep costs a system call here and one there,
    /// so it first looks for a while.
    fn enter<R: Wait>(&self, rt: &R) -> MutexGuard<'_, Inner<N>> {
        let lock: &Mutex<Inner<N>> = &self.lock;
        let backoff = Backoff::new();
        for _ in 0..ROUNDS {
            if let Some(guard) = lock.try_lock() {
                return guard;
            }
            backoff.snooze();
        }
        lock.lock(rt)
    }
}
