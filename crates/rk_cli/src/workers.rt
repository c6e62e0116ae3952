//! A run by threads: a worker for each processor, and the caller for the clock.
ghost use Rattle.std.specs.Prelude.{◌≡◌, IfOk};
ghost use Rattle.rk_model.specs.Histories.{IsDone};
ghost use Rattle.rk_model.specs.Text.Scenarios.{IsScenario};
ghost use Rattle.rk_cli.specs.Plans.{IsTaken};

use crate::cells::{SeatCell, cells_of, seats_back};
use crossbeam_utils::Backoff;
use rk_io::Gate;
use rk_model::{History, NoMemory, Scenario};
use rk_shared::{
    Clock, HeldOpening, Kernel, Opened, RunName, Stepped, TickAnswer, open_held, open_kernel,
};
use std::alloc::Global;
use std::marker::Brand;
use std::sync::{Mutex, Wait};
use std::thread;
use std::thread::Threads;

/// How often a seat that has nothing to do looks whether the history has grown, before it tries again.
const LOOKS: u32 = 64;

/// Runs a scenario by threads, and returns the history that they took.
///
/// # Errors
///
/// `NoMemory` where there is no memory for the opening or for the workers' seats.
pub(crate) fn run_scenario<G: Gate + Send + Drop, R: Threads + Wait + Sync>(
    rt: &R,
    alloc: Global,
    scenario: &Scenario,
    gate: G,
) -> Result<History, NoMemory>
    requires { IsScenario scenario.now }
    ensures { IfOk result (λ h. IsTaken scenario.now h.entries) }
{
    let opening = open_held(alloc, scenario)?;
    run_named::<Brand, G, R>(rt, alloc, opening, gate)
}

/// Runs the opening of a name, and returns the history that the threads took.
fn run_named<N: RunName + Send + Sync, G: Gate + Send + Drop, R: Threads + Wait + Sync>(
    rt: &R,
    alloc: Global,
    opening: HeldOpening,
    gate: G,
) -> Result<History, NoMemory>
    requires known { IsScenario N.scenario }
    requires scenario { opening.scenario ≡ N.scenario }
    requires opening { opening.opening ≡ N.opening }
    ensures { IfOk result (λ h. IsTaken N.scenario h.entries) }
{
    let Opened {
        kernel,
        mut cpus,
        clock,
    } = open_kernel::<N, G>(opening, gate);
    let cells = cells_of::<N>(alloc, &mut cpus)?;
    let clock = work(rt, &kernel, cells.as_slice(), clock);
    seats_back(cells, &mut cpus);
    Ok(kernel.close(cpus, clock).history)
}

/// Starts a worker for each cell, and drives the clock until the history is over or full. Where a worker
/// can't be started, its seat stays in its cell, and the caller polls it.
fn work<N: RunName + Send + Sync, G: Gate + Send, R: Threads + Wait + Sync>(
    rt: &R,
    kernel: &Kernel<N, G>,
    cells: &[Mutex<SeatCell<N>>],
    clock: Clock,
) -> Clock
    requires { clock.opening ≡ N.opening }
    ensures opening { result.opening ≡ N.opening }
    ensures done { IsDone N.scenario.limit result.front }
{
    thread::scope(
        thread::scope_env(),
        rt,
        move |scope| -> Clock
            requires { clock.opening ≡ N.opening }
            ensures { (result.opening ≡ N.opening) × IsDone N.scenario.limit result.front }
        {
            for cell in cells {
                let _started = scope.spawn(move || poll(rt, kernel, cell)).is_ok();
            }
            drive(rt, kernel, cells, clock)
        },
    )
}

/// Takes the seat out of a cell, polls it until the history is over or full, and puts it back.
fn poll<N: RunName, G: Gate, R: Wait>(rt: &R, kernel: &Kernel<N, G>, cell: &Mutex<SeatCell<N>>) {
    let taken = cell.lock(rt).take();
    let Some(mut cpu) = taken else {
        return;
    };
    for _ in rt.forever() {
        let length = kernel.length();
        match kernel.step(rt, &mut cpu) {
            Stepped::Full | Stepped::Over => break,
            Stepped::Did(_) => {}
            Stepped::Nothing(_) => linger(kernel, length),
        }
    }
    cell.lock(rt).put(cpu);
}

/// Polls the clock until the history is over or full, and in turn with it the seats that are in their
/// cells: those that no worker has taken. A worker that begins meanwhile waits for its cell's lock, and
/// finds its seat there.
fn drive<N: RunName, G: Gate, R: Wait>(
    rt: &R,
    kernel: &Kernel<N, G>,
    cells: &[Mutex<SeatCell<N>>],
    clock: Clock,
) -> Clock
    requires { clock.opening ≡ N.opening }
    ensures opening { result.opening ≡ N.opening }
    ensures done { IsDone N.scenario.limit result.front }
{
    let mut clock = clock;
    for _ in rt.forever() {
        let length = kernel.length();
        match kernel.tick(rt, &mut clock) {
            TickAnswer::Full => return clock,
            TickAnswer::Over => return clock,
            TickAnswer::Ticked | TickAnswer::Ended => {}
            TickAnswer::NotYet(_) => {
                for cell in cells {
                    cell.lock(rt).step(rt, kernel);
                }
                linger(kernel, length);
            }
        }
    }
    unreachable!()
}

/// Waits while the history has this length still, as far as can be seen without its lock, or for a
/// while.
fn linger<N: RunName, G: Gate>(kernel: &Kernel<N, G>, length: u64) {
    let backoff = Backoff::new();
    for _ in 0..LOOKS {
        if kernel.length() != length {
            return;
        }
        backoff.snooze();
    }
}
