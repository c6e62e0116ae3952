//! What the outcomes of directives share: their answers, and how a caller goes on.

ghost use Rattle.std.specs.Prelude.{◌≡◌, ◌≤◌, None, Some, true};
ghost use Rattle.std.specs.List.{slice_index_or};
ghost use Rattle.rk_model.specs.declared.entry.Answer.TheVariants.{Done};
ghost use Rattle.rk_model.specs.declared.status.Status.TheVariants.{Successful};
ghost use Rattle.rk_model.specs.Limits.{AreRunnable};
ghost use Rattle.rk_model.specs.declared.scenario.Scenario.{Scenario as ScenarioView};
ghost use Rattle.rk_model.specs.Directives.Objects.{has_begun};
ghost use Rattle.rk_model.specs.Directives.Lines.{result_var};
ghost use Rattle.rk_model.specs.Directives.Outcomes.{stored as stored_in, finished, concluded, status_of, out_of, last_of};
ghost use Rattle.rk_directives.specs.Does.{Becomes, answered, goes_on_after};
ghost use Rattle.rk_parts.specs.Joined.{thread_lent};
ghost use Rattle.rk_parts.specs.Lent.{Puts};

use rk_model::{Answer, Op, Reply, Scenario, Status, Thread, ThreadIx};
use rk_parts::arrival::arrive;
use rk_parts::lent::{renew, thread_of};
use rk_parts::parts::ClusterPart;

/// The answer of a directive that is done with an out number.
pub(crate) fn done(out: u32) -> Answer
    ensures { result ≡ Done Successful out None }
{
    Answer::Done(Status::Successful, out, None)
}

/// The variable of the caller in which a line stores its out number.
fn result_var(op: Option<Op>) -> Option<u8>
    ensures { result ≡ result_var op }
{
    match op {
        Some(Op::TaskCreate(_, _, var)) => Some(var),
        Some(Op::TaskIdent(_, var)) => Some(var),
        Some(Op::TaskSetPriority(_, _, var)) => Some(var),
        Some(Op::TaskGetPriority(_, _, var)) => Some(var),
        Some(Op::EventReceive(_, _, _, var)) => Some(var),
        Some(Op::SemCreate(_, _, _, _, _, _, var)) => Some(var),
        Some(Op::SemIdent(_, var)) => Some(var),
        Some(Op::SemSetPriority(_, _, _, var)) => Some(var),
        Some(Op::BarrierCreate(_, _, _, var)) => Some(var),
        Some(Op::BarrierIdent(_, var)) => Some(var),
        Some(Op::BarrierRelease(_, var)) => Some(var),
        Some(Op::PartCreate(_, _, _, _, var)) => Some(var),
        Some(Op::PartIdent(_, var)) => Some(var),
        Some(Op::PartGet(_, var)) => Some(var),
        Some(Op::PeriodCreate(_, var)) => Some(var),
        Some(Op::PeriodIdent(_, var)) => Some(var),
        _ => None,
    }
}

/// The value of a variable of a thread; 0 where there is no such variable.
pub(crate) fn value_in(thread: Thread, var: u8) -> u32
    ensures { result ≡ slice_index_or thread.vars var 0 }
{
    match thread.vars.get(var as usize) {
        Some(value) => *value,
        None => 0,
    }
}

/// Variables of which one, if there is one, has another value.
fn store(vars: [u32; 8], var: Option<u8>, value: u32) -> [u32; 8]
    ensures { result ≡ stored_in var vars value }
{
    let mut vars = vars;
    if let Some(var) = var {
        if (var as usize) < vars.len() {
            vars[var as usize] = value;
        }
    }
    vars
}

/// Stores an out number in the result variable of the caller's line, and moves the caller on to its
/// next line.
fn go_on(scenario: &Scenario, clusters: &mut [ClusterPart], caller: ThreadIx, out: u32)
    requires lives { has_begun (thread_lent clusters.old caller).life ≡ true }
    requires line { (thread_lent clusters.old caller).line ≤ 1001 }
    requires bodies { AreRunnable scenario.now.bodies }
    ensures { Puts clusters.old caller (finished scenario.now (thread_lent clusters.old caller) out) clusters.new }
{
    let thread = thread_of(clusters, caller);
    let var = result_var(scenario.op_at(thread.body, thread.line));
    let vars = store(thread.vars, var, out);
    let stored = Thread { vars, ..thread };
    let moved = arrive(scenario, stored, stored.line + 1);
    renew(clusters, caller, moved);
}

/// What a caller is answered where the manager of an object has given this reply: it is done, or refused.
pub(crate) fn answered(reply: Reply) -> Answer
    ensures { result ≡ answered reply }
{
    match reply.status {
        Status::Successful => Answer::Done(Status::Successful, reply.out, None),
        status => Answer::Refused(status),
    }
}

/// A reply without an out number.
pub fn bare(status: Status) -> Reply
    ensures status { result.status ≡ status }
    ensures out { result.out ≡ 0 }
{
    Reply { status, out: 0 }
}

/// The thread that goes to the end of its ready queue after an answer, if one does.
pub fn last_of(answer: &Answer) -> Option<ThreadIx>
    ensures { result ≡ last_of answer.now }
{
    match answer {
        Answer::Done(_, _, last) => *last,
        _ => None,
    }
}

/// What follows an answer: the caller stores the out number and goes on, unless it waits or has no
/// next line. Gives the status and the out number.
pub fn conclude(
    scenario: &Scenario,
    clusters: &mut [ClusterPart],
    caller: ThreadIx,
    answer: &Answer,
) -> Reply
    requires lives { goes_on_after answer.now ≡ true → has_begun (thread_lent clusters.old caller).life ≡ true }
    requires line { (thread_lent clusters.old caller).line ≤ 1001 }
    requires bodies { AreRunnable scenario.now.bodies }
    ensures next { Becomes scenario.now (λ k. concluded answer.now k caller) clusters.old clusters.new }
    ensures status { result.status ≡ status_of answer.now }
    ensures out { result.out ≡ out_of answer.now }
{
    match answer {
        Answer::Refused(status) => {
            go_on(scenario, clusters, caller, 0);
            bare(*status)
        }
        Answer::Done(status, out, _) => {
            go_on(scenario, clusters, caller, *out);
            Reply {
                status: *status,
                out: *out,
            }
        }
        Answer::Waiting => bare(Status::Waits),
        Answer::Gone(status) => bare(*status),
    }
}
