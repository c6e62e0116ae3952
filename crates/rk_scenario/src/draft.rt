ghost use Rattle.std.specs.Prelude.{◌≡◌, ◌≤◌, ◌<◌, ◌+◌, ◌&&◌, nat_lt, nat_le, length, OnOk, IfOk, codes, Ok, Err};
ghost use Rattle.rk_model.specs.declared.limits.TheConstants.{MOST_BODIES, MOST_CLUSTERS, MOST_PROCESSORS};
ghost use Rattle.rk_model.specs.Text.Scenarios.{cpus_in};
ghost use Rattle.rk_model.specs.Text.Reading as reading;
ghost use Rattle.rk_scenario.specs.Drafts.{draft_of, phase_of, Follows, HasAtMost, most_bodies, IsSmall};

use crate::errors::LineError;
use crate::operands::{body_number, body_operand, cluster_operand, name_operand, number_operand};
use crate::ops::read_op;
use crate::words::is_skipped;
use rk_model::limits::{
    LEAST_URGENT, MOST_BODIES, MOST_CLUSTERS, MOST_ENTRIES, MOST_LINES, MOST_OBJECTS,
    MOST_PROCESSORS, MOST_TICKS, USUAL_ENTRIES,
};
use rk_model::words::{Word, is_body_name};
use rk_model::{Body, Init, Items, Prio, Scenario, ScenarioWhy};
use std::alloc::Global;

/// How far the lines have come that aren't skipped.
#[derive(Clone, Copy, Debug, PartialEq, Eq)]
pub(crate) enum Phase {
    /// There was none.
    Start,
    /// The header.
    Headed,
    /// A cluster.
    Clustered,
    /// The ticks.
    Timed,
    /// The limit, or a whole body.
    Limited,
    /// The first line of a body, and not its `end`.
    InBody,
    /// An init line.
    InInits,
}

/// What has been read so far.
#[derive(Debug, Drop)]
pub(crate) struct Draft {
    pub(crate) phase: Phase,
    /// What the lines so far stand for.
    pub(crate) scenario: Scenario,
    /// The body that is open.
    pub(crate) body: Body,
}

/// A body without name and lines.
fn no_body(alloc: Global) -> Body
    ensures { result ≡ reading.no_body }
{
    Body {
        name: Items::new(alloc),
        lines: Items::new(alloc),
    }
}

/// Whether the words are `rtems 1`.
#[tactic(auto, unfolding(rk_model::specs::Text::Reading::is_header))]
fn is_header(words: &[Word]) -> bool
    ensures { result ≡ reading.is_header words.now }
{
    match words {
        [first, second] => {
            first.as_slice() == b"rtems".as_slice() && second.as_slice() == b"1".as_slice()
        }
        _ => false,
    }
}

/// Whether the words are `end`.
#[tactic(auto, unfolding(rk_model::specs::Text::Reading::is_end))]
fn is_end(words: &[Word]) -> bool
    ensures { result ≡ reading.is_end words.now }
{
    match words {
        [first] => first.as_slice() == b"end".as_slice(),
        _ => false,
    }
}

/// The processors of all clusters, at most 255.
fn cpus_in(clusters: &[u8]) -> u8
    requires { cpus_in clusters.now ≤ 255 }
    ensures { result ≡ cpus_in clusters.now }
{
    let mut cpus = 0;
    for count in clusters {
        cpus += *count;
    }
    cpus
}

/// Whether there may be one cluster more, of so many processors: at most four clusters, with at most
/// 8 processors in all.
fn has_room(clusters: &[u8], count: u8) -> bool
    requires few { cpus_in clusters.now ≤ MOST_PROCESSORS }
    requires count { count ≤ MOST_PROCESSORS }
    ensures { result ≡ (nat_lt (length clusters.now) MOST_CLUSTERS && nat_le (cpus_in clusters.now + count) MOST_PROCESSORS) }
{
    clusters.len() < MOST_CLUSTERS && cpus_in(clusters) + count <= MOST_PROCESSORS as u8
}

/// What the words behind `init` stand for.
#[tactic(auto, unfolding(rk_model::specs::Text::Reading::init_operands))]
fn read_init(scenario: &Scenario, operands: &[Word]) -> Result<Init, ScenarioWhy>
    requires clusters { length scenario.now.clusters ≤ MOST_CLUSTERS }
    requires bodies { length scenario.now.bodies ≤ MOST_BODIES }
    ensures { result ≡ reading.init_operands scenario.now operands.now }
{
    match operands {
        [name, cluster, priority, body] => {
            let name = name_operand(name.as_slice())?;
            let cluster = cluster_operand(scenario.clusters.len(), cluster.as_slice())?;
            let level = number_operand(1, u32::from(LEAST_URGENT), priority.as_slice())?;
            let body = body_operand(scenario.bodies.as_slice(), body.as_slice())?;
            Ok(Init {
                name,
                cluster,
                prio: Prio::new(level as u8),
                body,
            })
        }
        _ => Err(ScenarioWhy::Word),
    }
}

impl Draft {
    /// Before the first line.
    pub(crate) fn new(alloc: Global) -> Draft
        ensures start { draft_of result ≡ reading.start }
        ensures small { IsSmall result }
    {
        Draft {
            phase: Phase::Start,
            scenario: Scenario {
                clusters: Items::new(alloc),
                horizon: 0,
                limit: USUAL_ENTRIES,
                bodies: Items::new(alloc),
                inits: Items::new(alloc),
            },
            body: no_body(alloc),
        }
    }

    /// Takes the first line.
    fn take_header(&mut self, words: &[Word]) -> Result<(), LineError>
        requires { HasAtMost MOST_BODIES self.old }
        ensures next { Follows result (reading.at_start (draft_of self.old) words.now) self.new }
        ensures small { OnOk result (IsSmall self.new) }
    {
        if is_header(words) {
            self.phase = Phase::Headed;
            Ok(())
        } else {
            Err(LineError::Fault(ScenarioWhy::Header))
        }
    }

    /// Takes `cluster M`, by the words behind the first.
    #[tactic(auto, unfolding(rk_model::specs::Text::Reading::cluster_line), using(crate::proofs::NumberLemmas::few_with, crate::proofs::NumberLemmas::few_cpus_with))]
    fn take_cluster(&mut self, operands: &[Word]) -> Result<(), LineError>
        requires { HasAtMost MOST_BODIES self.old }
        ensures next { Follows result (reading.cluster_line (draft_of self.old) operands.now) self.new }
        ensures small { OnOk result (IsSmall self.new) }
    {
        match operands {
            [count] => {
                let count = number_operand(1, MOST_PROCESSORS as u32, count.as_slice())?;
                if has_room(self.scenario.clusters.as_slice(), count as u8) {
                    self.scenario.clusters.push(count as u8)?;
                    self.phase = Phase::Clustered;
                    Ok(())
                } else {
                    Err(LineError::Fault(ScenarioWhy::TooMany))
                }
            }
            _ => Err(LineError::Fault(ScenarioWhy::Word)),
        }
    }

    /// Takes `ticks N`, by the words behind the first.
    #[tactic(auto, unfolding(rk_model::specs::Text::Reading::ticks_line))]
    fn take_ticks(&mut self, operands: &[Word]) -> Result<(), LineError>
        requires { HasAtMost MOST_BODIES self.old }
        ensures next { Follows result (reading.ticks_line (draft_of self.old) operands.now) self.new }
        ensures small { OnOk result (IsSmall self.new) }
    {
        match operands {
            [ticks] => {
                let ticks = number_operand(0, MOST_TICKS, ticks.as_slice())?;
                self.scenario.horizon = ticks;
                self.phase = Phase::Timed;
                Ok(())
            }
            _ => Err(LineError::Fault(ScenarioWhy::Word)),
        }
    }

    /// Takes `limit N`, by the words behind the first.
    #[tactic(auto, unfolding(rk_model::specs::Text::Reading::limit_line))]
    fn take_limit(&mut self, operands: &[Word]) -> Result<(), LineError>
        requires { HasAtMost MOST_BODIES self.old }
        ensures next { Follows result (reading.limit_line (draft_of self.old) operands.now) self.new }
        ensures small { OnOk result (IsSmall self.new) }
    {
        match operands {
            [number] => {
                let number = number_operand(1, MOST_ENTRIES, number.as_slice())?;
                self.scenario.limit = number;
                self.phase = Phase::Limited;
                Ok(())
            }
            _ => Err(LineError::Fault(ScenarioWhy::Word)),
        }
    }

    /// Takes `body B`, by the words behind the first.
    #[tactic(auto, unfolding(rk_model::specs::Text::Reading::body_line))]
    fn take_body(&mut self, alloc: Global, operands: &[Word]) -> Result<(), LineError>
        requires { HasAtMost MOST_BODIES self.old }
        ensures next { Follows result (reading.body_line (draft_of self.old) operands.now) self.new }
        ensures small { OnOk result (IsSmall self.new) }
    {
        match operands {
            [name] => {
                let name = name.as_slice();
                if !is_body_name(name) {
                    Err(LineError::Fault(ScenarioWhy::Word))
                } else if body_number(self.scenario.bodies.as_slice(), name).is_some() {
                    Err(LineError::Fault(ScenarioWhy::Repeated))
                } else if self.scenario.bodies.len() < MOST_BODIES {
                    self.body = Body {
                        name: Items::from_slice(alloc, name)?,
                        lines: Items::new(alloc),
                    };
                    self.phase = Phase::InBody;
                    Ok(())
                } else {
                    Err(LineError::Fault(ScenarioWhy::TooMany))
                }
            }
            _ => Err(LineError::Fault(ScenarioWhy::Word)),
        }
    }

    /// Takes `end`.
    fn take_end(&mut self, alloc: Global) -> Result<(), LineError>
        requires { HasAtMost 31 self.old }
        ensures next { Follows result (Ok (reading.with_body (draft_of self.old))) self.new }
        ensures small { OnOk result (IsSmall self.new) }
    {
        let body = std::mem::replace(&mut self.body, no_body(alloc));
        self.scenario.bodies.push(body)?;
        self.phase = Phase::Limited;
        Ok(())
    }

    /// Takes a line of the open body that isn't its `end`.
    #[tactic(auto, unfolding(rk_model::specs::Text::Reading::inner_line))]
    fn take_inner(&mut self, words: &[Word]) -> Result<(), LineError>
        requires small { IsSmall self.old }
        requires most { HasAtMost 31 self.old }
        ensures next { Follows result (reading.inner_line (draft_of self.old) words.now) self.new }
        ensures small { OnOk result (IsSmall self.new) }
    {
        let op = read_op(&self.scenario, &self.body, words)?;
        if self.body.lines.len() < MOST_LINES {
            self.body.lines.push(op)?;
            Ok(())
        } else {
            Err(LineError::Fault(ScenarioWhy::TooMany))
        }
    }

    /// Takes `init NAME CLUSTER PRIORITY B`, by the words behind the first.
    #[tactic(auto, unfolding(rk_model::specs::Text::Reading::init_line))]
    fn take_init(&mut self, operands: &[Word]) -> Result<(), LineError>
        requires { HasAtMost MOST_BODIES self.old }
        ensures next { Follows result (reading.init_line (draft_of self.old) operands.now) self.new }
        ensures small { OnOk result (IsSmall self.new) }
    {
        let init = read_init(&self.scenario, operands)?;
        if self.scenario.inits.len() < MOST_OBJECTS {
            self.scenario.inits.push(init)?;
            self.phase = Phase::InInits;
            Ok(())
        } else {
            Err(LineError::Fault(ScenarioWhy::TooMany))
        }
    }

    /// Takes a line after the header.
    fn take_headed(&mut self, words: &[Word]) -> Result<(), LineError>
        requires { HasAtMost MOST_BODIES self.old }
        ensures next { Follows result (reading.at_headed (draft_of self.old) words.now) self.new }
        ensures small { OnOk result (IsSmall self.new) }
    {
        match words {
            [first, operands @ ..] if first.as_slice() == b"cluster".as_slice() => {
                self.take_cluster(operands)
            }
            _ => Err(LineError::Fault(ScenarioWhy::Word)),
        }
    }

    /// Takes a line after a cluster.
    fn take_clustered(&mut self, words: &[Word]) -> Result<(), LineError>
        requires { HasAtMost MOST_BODIES self.old }
        ensures next { Follows result (reading.at_clustered (draft_of self.old) words.now) self.new }
        ensures small { OnOk result (IsSmall self.new) }
    {
        match words {
            [first, operands @ ..] if first.as_slice() == b"ticks".as_slice() => {
                self.take_ticks(operands)
            }
            _ => self.take_headed(words),
        }
    }

    /// Takes a line after the ticks.
    fn take_timed(&mut self, alloc: Global, words: &[Word]) -> Result<(), LineError>
        requires { HasAtMost MOST_BODIES self.old }
        ensures next { Follows result (reading.at_timed (draft_of self.old) words.now) self.new }
        ensures small { OnOk result (IsSmall self.new) }
    {
        match words {
            [first, operands @ ..] if first.as_slice() == b"limit".as_slice() => {
                self.take_limit(operands)
            }
            _ => self.take_limited(alloc, words),
        }
    }

    /// Takes a line after the limit or a whole body.
    fn take_limited(&mut self, alloc: Global, words: &[Word]) -> Result<(), LineError>
        requires { HasAtMost MOST_BODIES self.old }
        ensures next { Follows result (reading.at_limited (draft_of self.old) words.now) self.new }
        ensures small { OnOk result (IsSmall self.new) }
    {
        match words {
            [first, operands @ ..] if first.as_slice() == b"body".as_slice() => {
                self.take_body(alloc, operands)
            }
            _ => self.take_last(words),
        }
    }

    /// Takes a line that may follow an init line.
    fn take_last(&mut self, words: &[Word]) -> Result<(), LineError>
        requires { HasAtMost MOST_BODIES self.old }
        ensures next { Follows result (reading.at_inits (draft_of self.old) words.now) self.new }
        ensures small { OnOk result (IsSmall self.new) }
    {
        match words {
            [first, operands @ ..] if first.as_slice() == b"init".as_slice() => {
                self.take_init(operands)
            }
            _ => Err(LineError::Fault(ScenarioWhy::Word)),
        }
    }

    /// Takes a line in a body.
    fn take_in_body(&mut self, alloc: Global, words: &[Word]) -> Result<(), LineError>
        requires small { IsSmall self.old }
        requires most { HasAtMost 31 self.old }
        ensures next { Follows result (reading.in_body (draft_of self.old) words.now) self.new }
        ensures small { OnOk result (IsSmall self.new) }
    {
        if is_end(words) {
            self.take_end(alloc)
        } else {
            self.take_inner(words)
        }
    }

    /// Takes a line of these words. After an `Err` the draft is of no more use.
    #[tactic(auto, unfolding(rk_model::specs::Text::Reading::after_words))]
    pub(crate) fn take_words(&mut self, alloc: Global, words: &[Word]) -> Result<(), LineError>
        requires { IsSmall self.old }
        ensures next { Follows result (reading.after_words (draft_of self.old) words.now) self.new }
        ensures small { OnOk result (IsSmall self.new) }
    {
        if is_skipped(words) {
            return Ok(());
        }
        match self.phase {
            Phase::Start => self.take_header(words),
            Phase::Headed => self.take_headed(words),
            Phase::Clustered => self.take_clustered(words),
            Phase::Timed => self.take_timed(alloc, words),
            Phase::Limited => self.take_limited(alloc, words),
            Phase::InBody => self.take_in_body(alloc, words),
            Phase::InInits => self.take_last(words),
        }
    }
}
