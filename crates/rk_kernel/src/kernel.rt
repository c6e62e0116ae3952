ghost use Rattle.std.specs.Prelude.{◌≡◌, ◌<◌, ◌≤◌, ◌+◌, ℕ, List, [], length, IfOk, IfSome, Some, None, false};
ghost use Rattle.rk_model.specs.declared.entry.Entry.{Entry as EntryView};
ghost use Rattle.rk_model.specs.declared.limits.TheConstants.{MOST_OBJECTS, MOST_PROCESSORS};
ghost use Rattle.rk_model.specs.declared.scenario.Scenario.{Scenario as ScenarioView};
ghost use Rattle.rk_model.specs.State.{Plain};
ghost use Rattle.rk_model.specs.Scheduling.Running.{running, caller, least};
ghost use Rattle.rk_model.specs.Scheduling.Seats.{cpu_count};
ghost use Rattle.rk_model.specs.Steps.{act, clock_entry};
ghost use Rattle.rk_model.specs.Histories.{Legal, after, opening, turn, lowest, lowest_from, next_of, is_end};
ghost use Rattle.rk_model.specs.Statistics.{statistics};
ghost use Rattle.rk_directives.specs.SoundPeriods.{live_stats};
ghost use Rattle.rk_model.specs.Text.Scenarios.{IsScenario};
ghost use Rattle.rk_parts.specs.Seats.{seat_of};
ghost use Rattle.rk_kernel.specs.Step.{IsStep, IsTick};
ghost use Rattle.rk_kernel.specs.SchedulingLaws.{RefusesAlone};

use crate::clock::{tick_core, tick_quiet};
use crate::opening::make_opening;
use crate::steps::{CoreStep, CoreTick, act_by, step_core};
use rk_groups::periods::{is_live, stats};
use rk_model::limits::{CLOCK, MOST_PROCESSORS, MOST_TICKS};
use rk_model::{Entry, History, NoMemory, Scenario, Stats, View, What};
use rk_parts::parts::AllParts;
use rk_parts::processors::{Calling, count_cpus, least_of, view_on};
use rk_parts::ticks::present;
use std::alloc::Global;
use std::marker::Model;

/// A running kernel. Contracts see the state that it stands for.
#[derive(Debug, Drop)]
pub struct Parts {
    all: AllParts,
}

impl Model for Parts {
    ghost use Rattle.rk_model.specs.State.{Plain};
    ghost use Rattle.rk_parts.specs.Joined.{plain_of};
    ghost use Rattle.rk_kernel.specs.Manned.{AreManned};
    ghost use Rattle.rk_kernel.specs.Ready.{IsReady};

    ghost Value = { Plain };

    ghost view = { λ p. plain_of p.all };

    ghost invariant = { λ p. IsReady p.all × AreManned (plain_of p.all) };
}

impl Parts {
    /// How many processors there are, from 1 to 8.
    pub fn cpus(&self) -> u8
        ensures count { result ≡ cpu_count self.now }
        ensures few { result ≤ MOST_PROCESSORS }
    {
        count_cpus(&self.all.scenario)
    }

    /// The present tick, at most 1,000,000.
    pub fn tick(&self) -> u32
        ensures value { result ≡ self.now.present }
        ensures small { result ≤ MOST_TICKS }
    {
        present(&self.all.clusters)
    }

    /// The scenario that is run.
    pub fn scenario(&self) -> &Scenario
        ensures { result.now ≡ self.now.scenario }
    {
        &self.all.scenario
    }
}

/// The parts of the opening state of a scenario. It takes all the room that the run needs.
///
/// # Errors
///
/// `NoMemory` where there is no memory for it.
pub fn open_parts(alloc: Global, scenario: &Scenario) -> Result<Parts, NoMemory>
    requires { IsScenario scenario.now }
    ensures { IfOk result (λ p. p ≡ opening scenario.now) }
{
    let all = make_opening(alloc, scenario)?;
    Ok(Parts { all })
}

/// A step of a processor, whose number is below `Parts::cpus`: its directive, or why it has none. A
/// directive that refuses changes its caller alone: its place, the work that it has there, and its
/// result variable. It takes no memory.
pub fn step_all(parts: &mut Parts, cpu: u8) -> CoreStep
    requires { cpu < cpu_count parts.old }
    ensures step { IsStep parts.old cpu result parts.new }
    ensures refused { RefusesAlone result parts.old parts.new }
{
    step_core(&mut parts.all, cpu)
}

/// A step of the clock: a tick, the end, or the processor that comes first. It takes no memory.
pub fn tick_all(parts: &mut Parts) -> CoreTick
    ensures { IsTick parts.old result parts.new }
{
    tick_core(&mut parts.all)
}

/// What a processor does, whose number is below `Parts::cpus`.
pub fn run_view(parts: &Parts, cpu: u8) -> View
    requires { cpu < cpu_count parts.now }
    ensures { result ≡ running parts.now cpu }
{
    view_on(&parts.all.clusters, cpu)
}

/// The statistics of the ended jobs of a period, whose index is from 1 to 64; `None` exactly where no
/// period of that index lives. They are those of the history that led to the state: of the jobs that
/// ended since the period was created. It takes no memory.
pub fn period_stats(parts: &Parts, index: u16) -> Option<Stats>
    requires low { 1 ≤ index }
    requires high { index ≤ MOST_OBJECTS }
    ensures stats { result ≡ live_stats parts.now index }
    ensures history { (s : ScenarioView) (xs : List EntryView) → IsScenario s → Legal s xs → parts.now ≡ after s xs → IfSome result (λ stats. stats ≡ statistics s xs index) }
{
    if is_live(&parts.all.groups, index) {
        Some(stats(&parts.all.groups, index))
    } else {
        None
    }
}

/// Replays one action of a seat, a processor from 0 to 7 or the clock, 8; does nothing if that seat
/// has none. It takes no memory.
pub fn replay(parts: &mut Parts, seat: u8)
    ensures { parts.new ≡ next_of parts.old (act parts.old seat) }
{
    if seat == CLOCK {
        tick_all(parts);
    } else if seat < parts.cpus() {
        step_all(parts, seat);
    }
}

/// The lowest-numbered processor that has a directive, and its thread.
fn least_in(parts: &Parts) -> Option<Calling>
    ensures least { seat_of result ≡ least parts.now }
    ensures found { IfSome result (λ calling. (caller parts.now calling.cpu ≡ Some calling.thread) × (calling.cpu < MOST_PROCESSORS)) }
{
    least_of(&parts.all.scenario, &parts.all.clusters)
}

/// The directive of a processor's thread.
fn call_in(parts: &mut Parts, calling: Calling) -> Entry
    requires calls { caller parts.old calling.cpu ≡ Some calling.thread }
    requires few { calling.cpu < MOST_PROCESSORS }
    ensures { act parts.old calling.cpu ≡ Some (record { entry = result; next = parts.new }) }
{
    act_by(&mut parts.all, calling.cpu, calling.thread)
}

/// A step of the clock where no processor has a directive.
fn tick_in(parts: &mut Parts) -> CoreTick
    requires { least parts.old ≡ None }
    ensures { IsTick parts.old result parts.new }
{
    tick_quiet(&mut parts.all)
}

/// The lowest-numbered processor with a directive executes it; if none has one, the clock acts.
fn step_least(parts: &mut Parts) -> Entry
    ensures { act parts.old (turn parts.old) ≡ Some (record { entry = result; next = parts.new }) }
{
    match least_in(parts) {
        Some(calling) => call_in(parts, calling),
        None => match tick_in(parts) {
            CoreTick::Ticked => Entry::of_clock(What::Tick),
            CoreTick::Ended => Entry::of_clock(What::End),
            CoreTick::NotYet(_) => unreachable!(),
        },
    }
}

/// The planned history: at each step the lowest-numbered processor with a directive executes it; if
/// none has one, the clock ticks; up to the end of the run or the scenario's limit of entries.
///
/// # Errors
///
/// `NoMemory` where there is no memory for the history or the parts.
pub fn run_lowest(alloc: Global, scenario: &Scenario) -> Result<History, NoMemory>
    requires { IsScenario scenario.now }
    ensures { IfOk result (λ h. h.entries ≡ lowest scenario.now scenario.now.limit) }
{
    let mut history = History::new(alloc, scenario.limit)?;
    let mut parts = open_parts(alloc, scenario)?;
    for count in 0..scenario.limit {
        // The proof speaks of how many entries there are so far by this name.
        let _made = count;
        let entry = step_least(&mut parts);
        history.push(entry);
        if let What::End = entry.what {
            return Ok(history);
        }
    }
    Ok(history)
}
