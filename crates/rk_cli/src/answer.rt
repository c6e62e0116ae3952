//! What a command that writes a schedule has to say about a source.

ghost use Rattle.std.specs.Prelude.{◌≡◌, ◌≤◌, ◌++◌, OnOk, IfOk, IfErr};
ghost use Rattle.rk_io.specs.Bytes.{ConsumesPrefix};
ghost use Rattle.rk_model.specs.Histories.{Legal};
ghost use Rattle.rk_model.specs.Text.Scenarios.{IsScenario};
ghost use Rattle.rk_cli.specs.Texts.{why_text, refusal_text};
ghost use Rattle.rk_cli.specs.Inputs.{HasScenario};
ghost use Rattle.rk_cli.specs.Plans.{IsPlanned, IsTaken};
ghost use Rattle.rk_cli.specs.Answers.{IsOfHistory, IsAnswer, IsFailure};

use crate::workers::run_scenario;
use rk_io::{Gate, ReadError, Source, read_all};
use rk_kernel::run_lowest;
use rk_model::limits::MOST_BYTES;
use rk_model::{Entry, NoMemory, Scenario, ScenarioWhy, ends_with_end};
use rk_scenario::{ScenarioError, read_scenario};
use rk_schedule::pieces::{push_decimal, push_text};
use rk_schedule::write_schedule;
use std::alloc::Global;
use std::sync::Wait;
use std::thread::Threads;

/// What there is to say.
#[derive(Debug, Drop)]
pub(crate) enum Answer {
    /// The schedule of a history that ends with the end of the run.
    Finished(Vec<u8>),

    /// The schedule of a history that was cut at the scenario's limit.
    Limited(Vec<u8>),

    /// The refusal of a text that has a fault.
    Refused(Vec<u8>),

    /// The source failed.
    ReadFault,

    /// Out of memory.
    NoMemory,
}

/// Adds the word for what is wrong with a text.
#[tactic(auto, unfolding(crate::specs::Texts::why_text))]
fn push_why(out: &mut Vec<u8>, why: ScenarioWhy) -> Result<(), NoMemory>
    ensures { OnOk result (out.new.items ≡ out.old.items ++ why_text why) }
{
    match why {
        ScenarioWhy::Header => push_text(out, "Header"),
        ScenarioWhy::TooLarge => push_text(out, "TooLarge"),
        ScenarioWhy::Word => push_text(out, "Word"),
        ScenarioWhy::Number => push_text(out, "Number"),
        ScenarioWhy::Range => push_text(out, "Range"),
        ScenarioWhy::UnknownName => push_text(out, "UnknownName"),
        ScenarioWhy::Repeated => push_text(out, "Repeated"),
        ScenarioWhy::TooMany => push_text(out, "TooMany"),
        ScenarioWhy::MissingEnd => push_text(out, "MissingEnd"),
        ScenarioWhy::NotAscii => push_text(out, "NotAscii"),
    }
}

/// The refusal for a fault at a line.
#[tactic(auto, unfolding(crate::specs::Texts::refusal_text))]
pub(crate) fn write_refusal(alloc: Global, line: u32, why: ScenarioWhy) -> Result<Vec<u8>, NoMemory>
    ensures { IfOk result (λ text. text.items ≡ refusal_text (record { line = line; why = why })) }
{
    let mut text = Vec::new(alloc);
    push_text(&mut text, "scenario line ")?;
    push_decimal(&mut text, u64::from(line))?;
    push_text(&mut text, ": ")?;
    push_why(&mut text, why)?;
    push_text(&mut text, "\n")?;
    Ok(text)
}

/// The schedule of a history, by how it ends.
fn history_answer(alloc: Global, scenario: &Scenario, history: &[Entry]) -> Answer
    requires known { IsScenario scenario.now }
    requires legal { Legal scenario.now history.now }
    ensures { IsOfHistory scenario.now history.now result }
{
    let Ok(text) = write_schedule(alloc, scenario, history) else {
        return Answer::NoMemory;
    };
    if ends_with_end(history) {
        Answer::Finished(text)
    } else {
        Answer::Limited(text)
    }
}

/// The scenario that is read from a source, or what there is to say where none is.
fn read_source<S: Source>(alloc: Global, source: &mut S) -> Result<Scenario, Answer>
    ensures read { IfOk result (HasScenario (S.left source.old) (S.left source.new)) }
    ensures known { IfOk result IsScenario }
    ensures fails { IfErr result (IsFailure (S.left source.old) (S.left source.new)
        (S.faults source.old) (S.faults source.new)) }
    ensures taken { ConsumesPrefix (S.left source.old) (S.left source.new) }
    ensures later { S.faults source.old ≤ S.faults source.new }
{
    let input = match read_all(alloc, source, MOST_BYTES as u64) {
        Ok(input) => input,
        Err(ReadError::Failed) => return Err(Answer::ReadFault),
        Err(ReadError::Memory) => return Err(Answer::NoMemory),
    };
    match read_scenario(alloc, input.bytes.as_slice()) {
        Ok(scenario) => Ok(scenario),
        Err(ScenarioError::Refused { line, why }) => match write_refusal(alloc, line, why) {
            Ok(text) => Err(Answer::Refused(text)),
            Err(NoMemory) => Err(Answer::NoMemory),
        },
        Err(ScenarioError::Memory) => Err(Answer::NoMemory),
    }
}

/// What planning has to say about a source.
#[tactic(auto, using(rk_model::proofs::LegalityLemmas::lowest_legal))]
pub(crate) fn plan_answer<S: Source>(alloc: Global, source: &mut S) -> Answer
    ensures answer { IsAnswer IsPlanned (S.left source.old) (S.left source.new)
        (S.faults source.old) (S.faults source.new) result }
    ensures taken { ConsumesPrefix (S.left source.old) (S.left source.new) }
    ensures later { S.faults source.old ≤ S.faults source.new }
{
    match read_source(alloc, source) {
        Ok(scenario) => match run_lowest(alloc, &scenario) {
            Ok(history) => history_answer(alloc, &scenario, history.entries()),
            Err(NoMemory) => Answer::NoMemory,
        },
        Err(answer) => answer,
    }
}

/// What a run by threads has to say about a source.
pub(crate) fn run_answer<S: Source, G: Gate + Send + Drop, R: Threads + Wait + Sync>(
    rt: &R,
    alloc: Global,
    source: &mut S,
    gate: G,
) -> Answer
    ensures answer { IsAnswer IsTaken (S.left source.old) (S.left source.new)
        (S.faults source.old) (S.faults source.new) result }
    ensures taken { ConsumesPrefix (S.left source.old) (S.left source.new) }
    ensures later { S.faults source.old ≤ S.faults source.new }
{
    match read_source(alloc, source) {
        Ok(scenario) => match run_scenario(rt, alloc, &scenario, gate) {
            Ok(history) => history_answer(alloc, &scenario, history.entries()),
            Err(NoMemory) => Answer::NoMemory,
        },
        Err(answer) => answer,
    }
}
