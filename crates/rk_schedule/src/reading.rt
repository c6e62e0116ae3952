//! Reading a schedule: each line is that of what the seat which it names does next.

ghost use Rattle.std.specs.Prelude.{◌≡◌, ◌<◌, ◌≤◌, ◌+◌, ℕ, List, [], Some, None, MatchOption, IfSome, IfOk, IfErr, length};
ghost use Rattle.rk_model.specs.declared.entry.Entry.{Entry as EntryView};
ghost use Rattle.rk_model.specs.declared.limits.TheConstants.{MOST_ENTRIES};
ghost use Rattle.rk_model.specs.Text.Scenarios.{IsScenario, cpus_in};
ghost use Rattle.rk_model.specs.Scheduling.Seats.{cpu_count};
ghost use Rattle.rk_model.specs.Steps.{act, clock_entry};
ghost use Rattle.rk_model.specs.Histories.{opening};
ghost use Rattle.std.specs.Str.{bytes_eq};
ghost use Rattle.rk_model.specs.Text.Schedules.{tick_line, header_line};
ghost use Rattle.rk_model.specs.Text.ScheduleFaults.{ScheduleFault, IsScheduleOf, IsFaultOf};
ghost use Rattle.rk_model.specs.Text.Words.{whole_lines, loose_end};
ghost use Rattle.rk_schedule.specs.Reading.{named_seat, called, ticked, closed, step_by, entries_from, verdict};
ghost use Rattle.rk_schedule.specs.ReadingAnswers.{StepAnswers, Answers, Reads, IsRefusal, Gives, Refuses};

use crate::ending::{check_ending, refuse};
use crate::errors::ScheduleError;
use crate::judging::{is_line_of, misplaced, mistaken};
use crate::tick_lines::push_tick;
use rk_kernel::{CoreStep, CoreTick, Parts, open_parts, step_all, tick_all};
use rk_model::limits::CLOCK;
use rk_model::words::split_line;
use rk_model::{Entry, History, NoMemory, Scenario, ScheduleWhy, What};
use std::alloc::Global;

/// What a line comes to.
pub(crate) enum Taken {
    /// It is that of what a seat does, with this entry.
    Takes(Entry),
    /// The run ends in front of it, with this entry.
    Closes(Entry),
    /// It is wrong.
    Stops(ScheduleWhy),
}

/// The seat that a line names: the processor of a directive's line, or the clock of a tick's.
#[tactic(auto, unfolding(crate::specs::Reading::named_seat))]
fn named_seat(line: &[u8]) -> Option<u8>
    ensures seat { result ≡ named_seat line.now }
    ensures few { IfSome result (λ q. q ≤ 8) }
{
    match line {
        [first, second, ..] => {
            if *first == b'p' && b'0' <= *second && *second <= b'7' {
                Some(*second - b'0')
            } else if *first == b't' {
                Some(CLOCK)
            } else {
                None
            }
        }
        _ => None,
    }
}

/// Steps a processor, and returns its entry; `None` where it has no directive, and then nothing changes.
#[tactic(auto, using(crate::proofs::AskedLemmas::idle_act, crate::proofs::AskedLemmas::past_act))]
fn ask(parts: &mut Parts, cpu: u8) -> Option<Entry>
    requires { cpu < 8 }
    ensures { MatchOption result (act parts.old cpu ≡ None) (λ x. act parts.old cpu ≡ Some (record { entry = x; next = parts.new })) }
{
    if cpu < parts.cpus() {
        match step_all(parts, cpu) {
            CoreStep::Did(entry) => Some(entry),
            CoreStep::Nothing(_) => None,
        }
    } else {
        None
    }
}

/// What comes of a line that names a processor.
fn called(
    alloc: Global,
    parts: &mut Parts,
    scenario: &Scenario,
    cpus: u8,
    cpu: u8,
    line: &[u8],
) -> Result<Taken, NoMemory>
    requires { cpu < 8 }
    ensures { StepAnswers result (called scenario.now cpus line.now (act parts.old cpu)) parts.new }
{
    match ask(parts, cpu) {
        None => Ok(Taken::Stops(misplaced(alloc, cpus, line)?)),
        Some(entry) => {
            if is_line_of(alloc, scenario, &entry, line)? {
                Ok(Taken::Takes(entry))
            } else {
                Ok(Taken::Stops(mistaken(alloc, scenario, cpus, &entry, line)?))
            }
        }
    }
}

/// Whether a line is that of a tick that comes next.
fn is_tick_line(alloc: Global, parts: &Parts, line: &[u8]) -> Result<bool, NoMemory>
    ensures { IfOk result (λ is. is ≡ bytes_eq line.now (tick_line parts.now)) }
{
    let mut text = Vec::new(alloc);
    push_tick(&mut text, parts)?;
    Ok(line == text.as_slice())
}

/// What comes of a line that names the clock.
#[tactic(auto, using(crate::proofs::AskedLemmas::busy_clock))]
fn ticked(alloc: Global, parts: &mut Parts, cpus: u8, line: &[u8]) -> Result<Taken, NoMemory>
    ensures { StepAnswers result (ticked cpus line.now (tick_line parts.old) (act parts.old 8)) parts.new }
{
    let is_tick = is_tick_line(alloc, parts, line)?;
    match tick_all(parts) {
        CoreTick::Ticked => {
            if is_tick {
                Ok(Taken::Takes(Entry::of_clock(What::Tick)))
            } else {
                Ok(Taken::Stops(misplaced(alloc, cpus, line)?))
            }
        }
        CoreTick::Ended => Ok(Taken::Stops(misplaced(alloc, cpus, line)?)),
        CoreTick::NotYet(_) => Ok(Taken::Stops(misplaced(alloc, cpus, line)?)),
    }
}

/// What comes of a line that names no seat.
#[tactic(auto, using(crate::proofs::AskedLemmas::busy_clock))]
fn closed(alloc: Global, parts: &mut Parts, cpus: u8, line: &[u8]) -> Result<Taken, NoMemory>
    ensures { StepAnswers result (closed cpus line.now (act parts.old 8)) parts.new }
{
    match tick_all(parts) {
        CoreTick::Ended => Ok(Taken::Closes(Entry::of_clock(What::End))),
        CoreTick::Ticked => Ok(Taken::Stops(misplaced(alloc, cpus, line)?)),
        CoreTick::NotYet(_) => Ok(Taken::Stops(misplaced(alloc, cpus, line)?)),
    }
}

/// What comes of a line.
#[tactic(auto, unfolding(crate::specs::Reading::step_by))]
fn step(
    alloc: Global,
    parts: &mut Parts,
    scenario: &Scenario,
    cpus: u8,
    line: &[u8],
) -> Result<Taken, NoMemory>
    ensures { StepAnswers result (step_by scenario.now cpus parts.old line.now (named_seat line.now)) parts.new }
{
    match named_seat(line) {
        None => closed(alloc, parts, cpus, line),
        Some(seat) => {
            if seat == CLOCK {
                ticked(alloc, parts, cpus, line)
            } else {
                called(alloc, parts, scenario, cpus, seat, line)
            }
        }
    }
}

/// Reads the lines of the entries, and the ending.
fn read_entries(
    alloc: Global,
    parts: &mut Parts,
    history: &mut History,
    scenario: &Scenario,
    cpus: u8,
    bytes: &[u8],
) -> Result<(), ScheduleError>
    requires few { scenario.now.limit ≤ MOST_ENTRIES }
    requires room { scenario.now.limit ≤ history.old.spare }
    requires empty { history.old.entries ≡ [] }
    ensures { Answers result history.new.entries (entries_from scenario.now cpus parts.old [] 2 (whole_lines bytes.now) (loose_end bytes.now)) }
{
    let mut rest = bytes;
    let mut number: u32 = 2;
    while let Some((line, after)) = split_line(rest) {
        if scenario.limit as usize <= history.entries().len() {
            return Err(refuse(alloc, cpus, number, line));
        }
        match step(alloc, parts, scenario, cpus, line)? {
            Taken::Takes(entry) => {
                history.push(entry);
                number += 1;
                rest = after;
            }
            Taken::Closes(entry) => {
                history.push(entry);
                return check_ending(alloc, parts, scenario, cpus, number, rest);
            }
            Taken::Stops(why) => return Err(ScheduleError::Refused { line: number, why }),
        }
    }
    Err(ScheduleError::Refused {
        line: number,
        why: ScheduleWhy::Unfinished,
    })
}

/// Whether a line is the first one.
#[tactic(auto, unfolding(rk_model::specs::Text::Schedules::header_line))]
fn is_header(line: &[u8]) -> bool
    ensures { result ≡ bytes_eq line.now header_line }
{
    line == b"schedule 1".as_slice()
}

/// Reads the lines of a schedule, with parts as they are at the opening.
pub(crate) fn read_lines(
    alloc: Global,
    parts: &mut Parts,
    history: &mut History,
    scenario: &Scenario,
    cpus: u8,
    bytes: &[u8],
) -> Result<(), ScheduleError>
    requires few { scenario.now.limit ≤ MOST_ENTRIES }
    requires room { scenario.now.limit ≤ history.old.spare }
    requires empty { history.old.entries ≡ [] }
    ensures { Answers result history.new.entries (verdict scenario.now cpus parts.old bytes.now) }
{
    match split_line(bytes) {
        None => Err(ScheduleError::Refused {
            line: 1,
            why: ScheduleWhy::Unfinished,
        }),
        Some((line, rest)) => {
            if is_header(line) {
                read_entries(alloc, parts, history, scenario, cpus, rest)
            } else {
                Err(refuse(alloc, cpus, 1, line))
            }
        }
    }
}

/// Reads a schedule, with parts as they are at the opening.
fn read_by(
    alloc: Global,
    parts: &mut Parts,
    scenario: &Scenario,
    bytes: &[u8],
) -> Result<History, ScheduleError>
    requires few { scenario.now.limit ≤ MOST_ENTRIES }
    ensures { Reads result (verdict scenario.now (cpu_count parts.old) parts.old bytes.now) }
{
    let cpus = parts.cpus();
    let mut history = History::new(alloc, scenario.limit)?;
    read_lines(alloc, parts, &mut history, scenario, cpus, bytes)?;
    Ok(history)
}

/// What reading a schedule comes to.
fn read_opened(alloc: Global, scenario: &Scenario, bytes: &[u8]) -> Result<History, ScheduleError>
    requires valid { IsScenario scenario.now }
    ensures { Reads result (verdict scenario.now (cpus_in scenario.now.clusters) (opening scenario.now) bytes.now) }
{
    let mut parts = open_parts(alloc, scenario)?;
    read_by(alloc, &mut parts, scenario, bytes)
}

/// The history whose schedule the bytes are: a legal history of at most as many entries as the
/// scenario allows, which ends with the end of the run. There is one at most.
///
/// # Errors
///
/// `Refused` where the bytes are no such schedule, with their fault: the first line that isn't there
/// or can't come there, counted from 1, and why. `Memory` where memory ran out.
pub fn read_schedule(
    alloc: Global,
    scenario: &Scenario,
    bytes: &[u8],
) -> Result<History, ScheduleError>
    requires valid { IsScenario scenario.now }
    ensures history { IfOk result (λ h. IsScheduleOf scenario.now bytes.now h.entries) }
    ensures refused { IfErr result (IsRefusal scenario.now bytes.now) }
    ensures only { (xs : List EntryView) → IsScheduleOf scenario.now bytes.now xs → Gives result xs }
    ensures fault { (fault : ScheduleFault) → IsFaultOf scenario.now bytes.now fault → Refuses result fault }
{
    read_opened(alloc, scenario, bytes)
}
