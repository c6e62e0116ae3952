ghost use Rattle.std.specs.Prelude.{◌≡◌, ◌≤◌, length, map, filter, not};
ghost use Rattle.rk_model.specs.declared.limits.TheConstants.{MOST_PROCESSORS};
ghost use Rattle.rk_model.specs.Lists.{has};
ghost use Rattle.rk_model.specs.Scheduling.ReadyQueues.{has_cpu, kept, filled, assigned};
ghost use Rattle.rk_cluster.specs.Clusters.{runners_of};

use rk_line::Line;
use rk_model::limits::MOST_PROCESSORS;
use rk_model::{Bounded, Items, ThreadIx};

/// As many threads as there are processors at most.
pub(crate) type Few = Bounded<ThreadIx, MOST_PROCESSORS>;

/// Whether the thread is in the list.
fn contains(list: &[ThreadIx], thread: ThreadIx) -> bool
    ensures { result ≡ has list.now thread }
{
    for found in list {
        if *found == thread {
            return true;
        }
    }
    false
}

/// Whether a processor has the thread.
pub(crate) fn is_on_cpu(cpus: &[Option<ThreadIx>], thread: ThreadIx) -> bool
    ensures { result ≡ has_cpu cpus.now thread }
{
    for cpu in cpus {
        if *cpu == Some(thread) {
            return true;
        }
    }
    false
}

/// Puts the scheduled threads of so many processors into `out`, the most urgent first.
fn find_runners(out: &mut Few, line: &Line, cpus: u8)
    requires { cpus ≤ MOST_PROCESSORS }
    ensures found { out.new ≡ runners_of cpus line.now }
    ensures few { length out.new ≤ cpus }
{
    out.clear();
    for n in 0..cpus {
        if let Some(thread) = line.nth_urgent(n) {
            out.push(thread);
        }
    }
}

/// Puts those of the scheduled threads that no processor has into `out`.
fn find_fresh(out: &mut Few, cpus: &[Option<ThreadIx>], running: &[ThreadIx])
    requires { length running.now ≤ MOST_PROCESSORS }
    ensures { out.new ≡ filter (λ t. not (has_cpu cpus.now t)) running.now }
{
    out.clear();
    for thread in running {
        if !is_on_cpu(cpus, *thread) {
            out.push(*thread);
        }
    }
}

/// Takes away the processors' threads that aren't scheduled ones.
fn keep(cpus: &mut Items<Option<ThreadIx>>, running: &[ThreadIx])
    ensures { cpus.new ≡ map (kept running.now) cpus.old }
{
    for at in 0..cpus.len() {
        if let Some(thread) = cpus.at(at) {
            if !contains(running, thread) {
                cpus.set(at, None);
            }
        }
    }
}

/// Gives the free processors, in rising number, the threads in their order.
fn fill(cpus: &mut Items<Option<ThreadIx>>, threads: &[ThreadIx])
    ensures { cpus.new ≡ filled cpus.old threads.now }
{
    let mut next = 0;
    for at in 0..cpus.len() {
        if cpus.at(at).is_none() && next < threads.len() {
            cpus.set(at, Some(threads[next]));
            next += 1;
        }
    }
}

/// Assigns the processors by a ready queue. `running` and `fresh` are room for it.
pub(crate) fn assign(
    cpus: &mut Items<Option<ThreadIx>>,
    line: &Line,
    running: &mut Few,
    fresh: &mut Few,
)
    requires { length cpus.old ≤ MOST_PROCESSORS }
    ensures { cpus.new ≡ assigned cpus.old (runners_of (length cpus.old) line.now) }
{
    find_runners(running, line, cpus.len() as u8);
    find_fresh(fresh, cpus.as_slice(), running.as_slice());
    keep(cpus, running.as_slice());
    fill(cpus, fresh.as_slice());
}
