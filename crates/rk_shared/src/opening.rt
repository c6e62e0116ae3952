//! An opening that isn't behind its lock yet.
ghost use Rattle.std.specs.Prelude.{◌≡◌, ◌+◌, ◌≤◌, IfOk, OnOk};
ghost use Rattle.rk_model.specs.declared.keys.TheConstants.{FIRST_SEAT};
ghost use Rattle.rk_model.specs.declared.limits.TheConstants.{CLOCK, MOST_PROCESSORS};
ghost use Rattle.rk_model.specs.Keys.{seat_key};
ghost use Rattle.rk_model.specs.Text.Scenarios.{IsScenario};
ghost use Rattle.rk_shared.specs.SeatViews.{first_seats};
ghost use Rattle.rk_shared.specs.Openings.{AreLeft};

use crate::seats::{Clock, Cpu};
use rk_journal::{Journal, Marks, Opening, open_journal};
use rk_kernel::{Parts, open_parts};
use rk_model::keys::FIRST_SEAT;
use rk_model::limits::{CLOCK, MOST_PROCESSORS};
use rk_model::{NoMemory, Scenario};
use std::alloc::Global;
use std::marker::Model;

/// The parts, the journal and the seats of a new opening. Contracts see its scenario, and which opening
/// it is.
#[derive(Drop)]
pub struct HeldOpening {
    pub(crate) parts: Parts,
    pub(crate) journal: Journal,
    pub(crate) marks: Marks,
    pub(crate) cpus: Vec<Cpu>,
    pub(crate) clock: Clock,
}

impl Model for HeldOpening {
    ghost use Rattle.rk_shared.specs.Openings.{OpeningView, IsFresh};

    ghost Value = { OpeningView };

    ghost view = { λ h. record { scenario = h.parts.scenario; opening = h.journal.opening } };

    ghost invariant = { λ h. IsFresh h.parts.scenario h.parts h.journal h.marks h.cpus.items h.clock };
}

/// A new opening of a scenario. It takes all the memory that the run needs.
///
/// # Errors
///
/// `NoMemory` where there is no memory for it.
pub fn open_held(alloc: Global, scenario: &Scenario) -> Result<HeldOpening, NoMemory>
    requires { IsScenario scenario.now }
    ensures { IfOk result (λ h. h.scenario ≡ scenario.now) }
{
    let parts = open_parts(alloc, scenario)?;
    let Opening { journal, mut marks } = open_journal(alloc, scenario.limit)?;
    let Some(mark) = marks.take(FIRST_SEAT + CLOCK) else {
        unreachable!()
    };
    let clock = Clock { mark: Some(mark) };
    let cpus = take_seats(alloc, &journal, &mut marks, parts.cpus())?;
    Ok(HeldOpening {
        parts,
        journal,
        marks,
        cpus,
        clock,
    })
}

/// Takes the marks of all eight processors out. Those of the first `count` become seats.
fn take_seats(
    alloc: Global,
    journal: &Journal,
    marks: &mut Marks,
    count: u8,
) -> Result<Vec<Cpu>, NoMemory>
    requires marks { AreLeft journal.now.opening FIRST_SEAT (seat_key CLOCK) marks.old }
    requires few { count ≤ MOST_PROCESSORS }
    ensures cpus { IfOk result (λ cpus. cpus.items ≡ first_seats journal.now.opening count) }
    ensures marks { OnOk result (AreLeft journal.now.opening (seat_key CLOCK) (seat_key CLOCK) marks.new) }
{
    let Ok(mut cpus) = Vec::with_capacity(alloc, MOST_PROCESSORS) else {
        return Err(NoMemory);
    };
    for number in 0..count {
        let Some(mark) = marks.take(FIRST_SEAT + number) else {
            unreachable!()
        };
        cpus.push_reserved(Cpu {
            number,
            mark: Some(mark),
        });
    }
    drop_marks(journal, marks, count);
    Ok(cpus)
}

/// Drops the marks of the processors from this number on.
fn drop_marks(journal: &Journal, marks: &mut Marks, from: u8)
    requires marks { AreLeft journal.now.opening (FIRST_SEAT + from) (seat_key CLOCK) marks.old }
    requires few { from ≤ MOST_PROCESSORS }
    ensures { AreLeft journal.now.opening (seat_key CLOCK) (seat_key CLOCK) marks.new }
{
    // The proof speaks of the journal, whose opening the marks are of.
    let _journal = journal;
    for number in from..CLOCK {
        let _mark = marks.take(FIRST_SEAT + number);
    }
}
