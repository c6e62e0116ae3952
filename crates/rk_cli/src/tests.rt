use crate::{plain_top, top};
use rk_io::{MemSink, MemSource, OpenGate, SureSink, SureSource};
use rk_scenario::read_scenario;
use rk_schedule::write_schedule;
use std::alloc::Global;
use std::sync::Wait;
use std::test::Fail;
use std::thread::Threads;

const SHORT: &str = "rtems 1\ncluster 1\nticks 0\n";

/// A task computes for a tick, and then sleeps beyond the end of the run.
const ONE_TASK: &str =
    "rtems 1\ncluster 1\nticks 1\nbody a\nwork 1\ntask.wake_after 1\nend\ninit AAAA 0 10 a\n";

const ONE_TASK_SCHEDULE: &str = "schedule 1\ntick 1 t1\np0 t1 a:2 task.wake_after waits\nend 1\n";

const USAGE: &str = "usage: rtems_smp run | plan | check | big N\n";

/// The status of a call with one word, or with none, and the bytes that the sink got.
fn run(alloc: Global, word: Option<&str>, text: &[u8]) -> Result<(u8, SureSink), Fail> {
    let mut words = Vec::new(alloc);
    if let Some(word) = word {
        words.push(String::from_str(alloc, word)?)?;
    }
    let mut source = SureSource::new(Vec::from_slice(alloc, text)?);
    let mut sink = SureSink::new(alloc);
    let status = plain_top(alloc, words.as_slice(), &mut source, &mut sink);
    Ok((status, sink))
}

#[test]
fn writes_whole_texts(rt: HostRuntime) -> Result<(), Fail> {
    let rows = [
        (Some("plan"), SHORT, "schedule 1\nend 0\n", 0),
        (Some("plan"), ONE_TASK, ONE_TASK_SCHEDULE, 0),
        (
            Some("plan"),
            "rtems 1\ncluster 1\nticks 1\nlimit 1\n",
            "schedule 1\ntick 1 -\nlimit\n",
            4,
        ),
        (Some("plan"), "", "scenario line 1: Header\n", 2),
        (
            Some("plan"),
            "rtems 1\ncluster 9\n",
            "scenario line 2: Range\n",
            2,
        ),
        (Some("frob"), SHORT, USAGE, 1),
        (Some("run"), SHORT, USAGE, 1),
        (None, SHORT, USAGE, 1),
    ];
    for (word, text, want, status) in rows {
        let (got, sink) = run(rt.alloc(), word, text.as_bytes())?;
        assert_eq!(rt; sink.written(), want.as_bytes());
        assert_eq!(rt; got, status);
    }
    Ok(())
}

/// The status of a call that may start threads, and the bytes that the sink got.
fn run_by_threads<R: Threads + Wait + Sync>(
    rt: &R,
    alloc: Global,
    word: &str,
    text: &str,
) -> Result<(u8, SureSink), Fail> {
    let words = vec![in alloc; String::from_str(alloc, word)?]?;
    let mut source = SureSource::new(Vec::from_slice(alloc, text.as_bytes())?);
    let mut sink = SureSink::new(alloc);
    let status = top(
        rt,
        alloc,
        words.as_slice(),
        &mut source,
        &mut sink,
        OpenGate,
    );
    Ok((status, sink))
}

#[test]
fn runs_by_threads(rt: HostRuntime) -> Result<(), Fail> {
    let rows = [
        ("run", SHORT, "schedule 1\nend 0\n", 0),
        ("run", ONE_TASK, ONE_TASK_SCHEDULE, 0),
        (
            "run",
            "rtems 1\ncluster 1\nticks 1\nlimit 1\n",
            "schedule 1\ntick 1 -\nlimit\n",
            4,
        ),
        ("run", "", "scenario line 1: Header\n", 2),
        ("plan", ONE_TASK, ONE_TASK_SCHEDULE, 0),
        ("frob", SHORT, USAGE, 1),
    ];
    for (word, text, want, status) in rows {
        let (got, sink) = run_by_threads(&rt, rt.alloc(), word, text)?;
        assert_eq!(rt; sink.written(), want.as_bytes());
        assert_eq!(rt; got, status);
    }
    Ok(())
}

/// A scenario of one tick without tasks, and behind it the mark.
const IDLE: &str = "rtems 1\ncluster 1\nticks 0\n---\n";

/// Two tasks that do nothing, and behind them the mark.
const YIELDING: &str =
    "rtems 1\ncluster 1\nticks 0\nbody a\ntask.suspend 0x0a010002\ntask.resume 0x0a010002\nend\ninit AAAA 0 10 a\ninit BBBB 0 20 a\n---\n";

/// The status of a check of a scenario and a schedule, and the bytes that the sink got.
fn check(alloc: Global, scenario: &str, schedule: &str) -> Result<(u8, SureSink), Fail> {
    let mut text = Vec::from_slice(alloc, scenario.as_bytes())?;
    text.extend_from_slice(schedule.as_bytes())?;
    run(alloc, Some("check"), text.as_slice())
}

#[test]
fn checks_schedules(rt: HostRuntime) -> Result<(), Fail> {
    let rows = [
        ("schedule 1\nend 0\n", "ok\n", 0),
        ("schedule 1\nend 0", "schedule line 2: Unfinished\n", 7),
        ("schedule 1\nend 0\nx\n", "schedule line 3: Form\n", 7),
        (
            "schedule 1\ntick 1 -\nend 0\n",
            "schedule line 2: Order\n",
            7,
        ),
        ("", "schedule line 1: Unfinished\n", 7),
        ("schedule 1\nend 0\nend 0", "schedule line 3: Order\n", 7),
    ];
    for (schedule, want, status) in rows {
        let (got, sink) = check(rt.alloc(), IDLE, schedule)?;
        assert_eq!(rt; sink.written(), want.as_bytes());
        assert_eq!(rt; got, status);
    }
    Ok(())
}

#[test]
fn tells_altered_answers(rt: HostRuntime) -> Result<(), Fail> {
    let rows = [
        (
            "schedule 1\np0 t1 a:1 task.suspend done 0 0\np0 t1 a:2 task.resume done 14 0\n",
            "schedule line 3: Status\n",
        ),
        (
            "schedule 1\np0 t1 a:1 task.suspend done 0 0\np0 t1 a:2 task.suspend done 0 0\n",
            "schedule line 3: Order\n",
        ),
        (
            "schedule 1\np0 t1 a:1 task.suspend done 2 0\n",
            "schedule line 2: Form\n",
        ),
        (
            "schedule 1\np0 t1 a:1 task.suspend done 0 0\n",
            "schedule line 3: Unfinished\n",
        ),
    ];
    for (schedule, want) in rows {
        let (got, sink) = check(rt.alloc(), YIELDING, schedule)?;
        assert_eq!(rt; sink.written(), want.as_bytes());
        assert_eq!(rt; got, 7);
    }
    Ok(())
}

#[test]
fn refuses_scenarios_of_checks(rt: HostRuntime) -> Result<(), Fail> {
    let (got, sink) = run(
        rt.alloc(),
        Some("check"),
        b"rtems 1\ncluster 9\n---\nschedule 1\n".as_slice(),
    )?;
    assert_eq!(rt; sink.written(), b"scenario line 2: Range\n".as_slice());
    assert_eq!(rt; got, 2);
    // Without the line between them all is the scenario.
    let (got, sink) = run(rt.alloc(), Some("check"), SHORT.as_bytes())?;
    assert_eq!(rt; sink.written(), b"schedule line 1: Unfinished\n".as_slice());
    assert_eq!(rt; got, 7);
    Ok(())
}

#[test]
fn writes_an_empty_history(rt: HostRuntime) -> Result<(), Fail> {
    let scenario = read_scenario(rt.alloc(), ONE_TASK.as_bytes())?;
    let text = write_schedule(rt.alloc(), &scenario, &[])?;
    assert_eq!(rt; text.as_slice(), b"schedule 1\nlimit\n".as_slice());
    Ok(())
}

#[test]
fn refuses_large_texts(rt: HostRuntime) -> Result<(), Fail> {
    let text = vec![in rt.alloc(); b'#'; 1_048_577]?;
    let (status, sink) = run(rt.alloc(), Some("plan"), text.as_slice())?;
    assert_eq!(rt; sink.written(), b"scenario line 0: TooLarge\n".as_slice());
    assert_eq!(rt; status, 2);
    Ok(())
}

#[test]
fn tells_faults(rt: HostRuntime) -> Result<(), Fail> {
    let alloc = rt.alloc();
    let words = vec![in alloc; String::from_str(alloc, "plan")?]?;

    let text = Vec::from_slice(alloc, SHORT.as_bytes())?;
    let mut source = MemSource::new(text, 8, vec![in alloc; 2]?);
    let mut sink = SureSink::new(alloc);
    assert_eq!(rt;
        plain_top(alloc, words.as_slice(), &mut source, &mut sink),
        5
    );
    assert_eq!(rt; sink.written().len(), 0);

    let mut source = SureSource::new(Vec::from_slice(alloc, SHORT.as_bytes())?);
    let mut sink = MemSink::new(alloc, 4, vec![in alloc; 2]?);
    assert_eq!(rt;
        plain_top(alloc, words.as_slice(), &mut source, &mut sink),
        6
    );
    assert_eq!(rt; sink.written(), b"sche".as_slice());
    Ok(())
}
