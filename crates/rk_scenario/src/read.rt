ghost use Rattle.std.specs.Prelude.{◌≡◌, ◌<◌, ◌≤◌, ◌+◌, ◌^◌, length, IfOk, IfErr, OnOk};
ghost use Rattle.rk_model.specs.declared.scenario.Scenario.{Scenario};
ghost use Rattle.rk_model.specs.Text.Scenarios.{ScenarioText, IsScenario};
ghost use Rattle.rk_model.specs.Text.Words.{lines_of};
ghost use Rattle.rk_model.specs.Text.Reading.{verdict, verdict_from, at_end, after_line, start};
ghost use Rattle.rk_scenario.specs.Drafts.{draft_of, phase_of, Follows, IsSmall};
ghost use Rattle.rk_scenario.specs.ReadingAnswers.{Answers, Advances, IsRefusal, Gives};

use crate::draft::{Draft, Phase};
use crate::errors::{LineError, ScenarioError};
use crate::lines::next_line;
use crate::words::{find_words, is_plain};
use rk_model::limits::MOST_BYTES;
use rk_model::{Scenario, ScenarioWhy};
use std::alloc::Global;

/// Takes a line.
#[tactic(auto, unfolding(rk_model::specs::Text::Reading::after_line))]
fn take_line(alloc: Global, draft: &mut Draft, line: &[u8]) -> Result<(), LineError>
    requires { IsSmall draft.old }
    ensures next { Follows result (after_line (draft_of draft.old) line.now) draft.new }
    ensures small { OnOk result (IsSmall draft.new) }
{
    if is_plain(line) {
        let words = find_words(alloc, line)?;
        draft.take_words(alloc, words.as_slice())
    } else {
        Err(LineError::Fault(ScenarioWhy::NotAscii))
    }
}

/// Takes the line of a number.
fn advance(alloc: Global, draft: &mut Draft, line: &[u8], number: u32) -> Result<(), ScenarioError>
    requires { IsSmall draft.old }
    ensures next { Advances result draft.old line.now number draft.new }
    ensures small { OnOk result (IsSmall draft.new) }
{
    match take_line(alloc, draft, line) {
        Ok(()) => Ok(()),
        Err(LineError::Fault(why)) => Err(ScenarioError::Refused { line: number, why }),
        Err(LineError::Memory) => Err(ScenarioError::Memory),
    }
}

/// The end of a text, where `number` is that of the line that would follow.
fn finish(draft: Draft, number: u32) -> Result<Scenario, ScenarioError>
    ensures { Answers result (at_end (phase_of draft.phase) draft.scenario number) }
{
    let why = match draft.phase {
        Phase::Timed | Phase::Limited | Phase::InInits => return Ok(draft.scenario),
        Phase::Start => ScenarioWhy::Header,
        Phase::Headed | Phase::Clustered | Phase::InBody => ScenarioWhy::MissingEnd,
    };
    Err(ScenarioError::Refused { line: number, why })
}

/// What the lines of a text give.
fn read_lines(alloc: Global, bytes: &[u8]) -> Result<Scenario, ScenarioError>
    requires { length bytes.now ≤ 1048576 }
    ensures { Answers result (verdict_from start 1 (lines_of bytes.now)) }
{
    let mut draft = Draft::new(alloc);
    let mut number: u32 = 1;
    let mut rest = bytes;
    while let Some((line, after)) = next_line(rest) {
        advance(alloc, &mut draft, line, number)?;
        number += 1;
        rest = after;
    }
    finish(draft, number)
}

/// What a text gives.
fn read_text(alloc: Global, bytes: &[u8]) -> Result<Scenario, ScenarioError>
    ensures { Answers result (verdict bytes.now) }
{
    if bytes.len() > MOST_BYTES {
        return Err(ScenarioError::Refused {
            line: 0,
            why: ScenarioWhy::TooLarge,
        });
    }
    read_lines(alloc, bytes)
}

/// The scenario of a text.
///
/// # Errors
///
/// `Refused` with the first line, counted from 1, that no valid scenario could have there, and why;
/// line 0 where the text has more than 1,048,576 bytes. `Memory` where memory ran out.
#[tactic(auto, using(crate::proofs::TextLemmas::text_from_answer, crate::proofs::TextLemmas::only_from_answer, crate::proofs::TextLemmas::known_from_answer, crate::proofs::TextLemmas::refusal_from_answer))]
pub fn read_scenario(alloc: Global, bytes: &[u8]) -> Result<Scenario, ScenarioError>
    ensures text { IfOk result (ScenarioText bytes.now) }
    ensures only { (s : Scenario) → ScenarioText bytes.now s → Gives result s }
    ensures known { IfOk result IsScenario }
    ensures refused { IfErr result (IsRefusal bytes.now) }
{
    read_text(alloc, bytes)
}
