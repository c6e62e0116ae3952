//! The kernel behind its lock, call by call, on scenarios that are read from texts.

ghost use Rattle.std.specs.Prelude.{◌≡◌};

use rk_io::OpenGate;
use rk_model::{Entry, NoMemory, What, Why};
use rk_scenario::{ScenarioError, read_scenario};
use rk_shared::{HeldOpening, Opened, RunName, Stepped, TickAnswer, open_held, open_kernel};
use std::alloc::Global;
use std::marker::Brand;
use std::sync::Wait;
use std::test::Fail;

/// A call of a kernel of one processor.
#[derive(Clone, Copy)]
enum Call {
    Step,
    Tick,
}

/// What it answers.
#[derive(Clone, Copy, Debug, PartialEq, Eq)]
enum Answer {
    Step(Stepped),
    Tick(TickAnswer),
}

/// The opening of the scenario of a text.
fn opening_of(alloc: Global, text: &str) -> Result<HeldOpening, Fail> {
    let scenario = read_scenario(alloc, text.as_bytes()).map_err(|_: ScenarioError| "no scenario")?;
    let opening = open_held(alloc, &scenario).map_err(|_: NoMemory| "memory")?;
    Ok(opening)
}

/// What these calls answer one after the other, each with the length of the history that can be read
/// without the lock after it. The processor is the last one.
fn play<N: RunName, R: Wait>(
    rt: &R,
    alloc: Global,
    opening: HeldOpening,
    calls: &[Call],
) -> Result<Vec<(Answer, u64)>, Fail>
    requires scenario { opening.scenario ≡ N.scenario }
    requires opening { opening.opening ≡ N.opening }
{
    let Opened {
        kernel,
        mut cpus,
        mut clock,
    } = open_kernel::<N, OpenGate>(opening, OpenGate);
    let mut answers = Vec::new(alloc);
    let Some(mut cpu) = cpus.pop() else {
        return Ok(answers);
    };
    for call in calls {
        let answer = match call {
            Call::Step => Answer::Step(kernel.step(rt, &mut cpu)),
            Call::Tick => Answer::Tick(kernel.tick(rt, &mut clock)),
        };
        answers.push((answer, kernel.length()))?;
    }
    Ok(answers)
}

/// The first entry of a scenario whose first line creates a semaphore.
const CREATED: Entry = Entry {
    seat: 0,
    what: What::Call,
    task: 1,
    body: 0,
    line: 1,
    status: 0,
    out: 0x1a01_0001,
};

const ENDED: &str = "rtems 1\ncluster 1\nticks 0\n";

const LIMITED: &str = "rtems 1\ncluster 1\nticks 1\nlimit 1\n";

const BUSY: &str =
    "rtems 1\ncluster 1\nticks 0\nbody a\nsem.create SEMA 1 binary priority none 0 v0\nend\ninit TSK1 0 10 a\n";

#[test]
fn tells_over_full_and_what_comes_first(rt: HostRuntime) -> Result<(), Fail> {
    let rows = [
        (
            ENDED,
            [Call::Step, Call::Tick, Call::Step, Call::Tick],
            [
                (Answer::Step(Stepped::Nothing(Why::Idle)), 0),
                (Answer::Tick(TickAnswer::Ended), 1),
                (Answer::Step(Stepped::Over), 1),
                (Answer::Tick(TickAnswer::Over), 1),
            ],
        ),
        (
            ENDED,
            [Call::Tick, Call::Tick, Call::Tick, Call::Step],
            [
                (Answer::Tick(TickAnswer::Ended), 1),
                (Answer::Tick(TickAnswer::Over), 1),
                (Answer::Tick(TickAnswer::Over), 1),
                (Answer::Step(Stepped::Over), 1),
            ],
        ),
        (
            LIMITED,
            [Call::Tick, Call::Step, Call::Tick, Call::Step],
            [
                (Answer::Tick(TickAnswer::Ticked), 1),
                (Answer::Step(Stepped::Full), 1),
                (Answer::Tick(TickAnswer::Full), 1),
                (Answer::Step(Stepped::Full), 1),
            ],
        ),
        (
            BUSY,
            [Call::Tick, Call::Tick, Call::Step, Call::Tick],
            [
                (Answer::Tick(TickAnswer::NotYet(0)), 0),
                (Answer::Tick(TickAnswer::NotYet(0)), 0),
                (Answer::Step(Stepped::Did(CREATED)), 1),
                (Answer::Tick(TickAnswer::NotYet(0)), 1),
            ],
        ),
    ];
    for (text, calls, answers) in rows {
        let opening = opening_of(rt.alloc(), text)?;
        let got = play::<Brand, _>(&rt, rt.alloc(), opening, calls.as_slice())?;
        assert_eq!(rt; got.as_slice(), answers.as_slice());
    }
    Ok(())
}

/// Two tasks on two processors, each of which creates a semaphore; the first then sleeps, and the second
/// asks for the first's.
const PAIR: &str =
    "rtems 1\ncluster 1\ncluster 1\nticks 1\nbody a\nsem.create SEMA 0 binary priority none 0 v0\ntask.wake_after 1\nend\nbody b\nsem.create SEMB 0 binary priority none 0 v0\nsem.obtain 0x1a010001 0\nend\ninit TSK1 0 10 a\ninit TSK2 1 10 b\n";

/// What two steps of the first of two processors answer, after a meeting of both a step of the second,
/// and after a meeting with the second a tick.
fn step_and_meet<N: RunName, R: Wait>(
    rt: &R,
    opening: HeldOpening,
) -> Option<(Stepped, Stepped, Stepped, TickAnswer)>
    requires scenario { opening.scenario ≡ N.scenario }
    requires opening { opening.opening ≡ N.opening }
{
    let Opened {
        kernel,
        mut cpus,
        mut clock,
    } = open_kernel::<N, OpenGate>(opening, OpenGate);
    let mut second = cpus.pop()?;
    let mut first = cpus.pop()?;
    let create = kernel.step(rt, &mut first);
    let sleep = kernel.step(rt, &mut first);
    kernel.meet(rt, &mut first, &mut second);
    let other = kernel.step(rt, &mut second);
    kernel.meet_clock(rt, &mut clock, &mut second);
    let tick = kernel.tick(rt, &mut clock);
    Some((create, sleep, other, tick))
}

#[test]
fn seats_go_on_after_they_met(rt: HostRuntime) -> Result<(), Fail> {
    let opening = opening_of(rt.alloc(), PAIR)?;
    let got = step_and_meet::<Brand, _>(&rt, opening);
    let sleeps = Entry {
        line: 2,
        status: 255,
        out: 0,
        ..CREATED
    };
    let other = Entry {
        seat: 1,
        task: 2,
        body: 1,
        out: 0x1a01_0002,
        ..CREATED
    };
    assert_eq!(rt;
        got,
        Some((
            Stepped::Did(CREATED),
            Stepped::Did(sleeps),
            Stepped::Did(other),
            TickAnswer::NotYet(1)
        ))
    );
    Ok(())
}
