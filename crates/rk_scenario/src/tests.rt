use crate::ScenarioError;
use crate::generator::generate;
use crate::read::read_scenario;
use rk_model::{Init, Name, Op, Order, Prio, Protocol, ScenarioWhy, SemKind, Target, Wish};
use std::alloc::Global;
use std::test::Fail;

const HEADER: ScenarioWhy = ScenarioWhy::Header;

const WORD: ScenarioWhy = ScenarioWhy::Word;

const NUMBER: ScenarioWhy = ScenarioWhy::Number;

const RANGE: ScenarioWhy = ScenarioWhy::Range;

const UNKNOWN: ScenarioWhy = ScenarioWhy::UnknownName;

const REPEATED: ScenarioWhy = ScenarioWhy::Repeated;

const TOO_MANY: ScenarioWhy = ScenarioWhy::TooMany;

const MISSING_END: ScenarioWhy = ScenarioWhy::MissingEnd;

const NOT_ASCII: ScenarioWhy = ScenarioWhy::NotAscii;

/// The front of a text that stands before its bodies: three lines.
const FRONT: &str = "rtems 1\ncluster 1\nticks 0\n";

/// How a text is refused, if it is.
fn refusal(alloc: Global, text: &[u8]) -> Option<ScenarioError> {
    match read_scenario(alloc, text) {
        Ok(_) => None,
        Err(error) => Some(error),
    }
}

/// How a text is refused, if it is, whose fifth line is this line of a body.
fn refusal_of_line(alloc: Global, line: &str) -> Result<Option<ScenarioError>, Fail> {
    let open = repeated(alloc, FRONT, "body b\n", 1, "")?;
    let text = repeated(alloc, open.as_str(), line, 1, "end\nbody c\nend\n")?;
    Ok(refusal(alloc, text.as_bytes()))
}

/// `head`, so many times `line`, and `tail`.
fn repeated(alloc: Global, head: &str, line: &str, count: u32, tail: &str) -> Result<String, Fail> {
    let mut text = String::from_str(alloc, head)?;
    for _ in 0..count {
        text.push_str(line)?;
    }
    text.push_str(tail)?;
    Ok(text)
}

#[test]
fn refuses_lines(rt: HostRuntime) {
    let rows = [
        ("", 1, HEADER),
        ("# none\n \n", 3, HEADER),
        ("rtems 2\n", 1, HEADER),
        ("rtems 1 1\n", 1, HEADER),
        ("\trtems 1\n", 1, NOT_ASCII),
        ("# \u{7f}\nrtems 1\n", 1, NOT_ASCII),
        ("rtems 1\nticks 0\n", 2, WORD),
        ("rtems 1\n\n# none\ncluster 1\nticks 1000001\n", 5, RANGE),
        ("rtems 1\ncluster 1\n# none", 4, MISSING_END),
    ];
    for (text, line, why) in rows {
        let want = Some(ScenarioError::Refused { line, why });
        assert_eq!(rt; refusal(rt.alloc(), text.as_bytes()), want, "{text}");
    }
}

#[test]
fn refuses_clusters(rt: HostRuntime) -> Result<(), Fail> {
    let rows = [
        ("cluster 0\n", 2, RANGE),
        ("cluster 9\n", 2, RANGE),
        ("cluster 4\ncluster 5\n", 3, TOO_MANY),
        ("cluster 8\ncluster 1\n", 3, TOO_MANY),
        (
            "cluster 1\ncluster 1\ncluster 1\ncluster 1\ncluster 1\n",
            6,
            TOO_MANY,
        ),
        ("cluster 1\nticks 0\ncluster 1\n", 4, WORD),
    ];
    for (tail, line, why) in rows {
        let text = repeated(rt.alloc(), "rtems 1\n", tail, 1, "")?;
        let want = Some(ScenarioError::Refused { line, why });
        assert_eq!(rt; refusal(rt.alloc(), text.as_bytes()), want, "{tail}");
    }
    Ok(())
}

#[test]
fn refuses_bodies_and_inits(rt: HostRuntime) -> Result<(), Fail> {
    let rows = [
        ("body b\nwork 1", 6, MISSING_END),
        ("body b\nwork 0\nend\n", 5, RANGE),
        ("body b\nwork 01\nend\n", 5, NUMBER),
        ("body b\nwork 1000001\nend\n", 5, RANGE),
        ("body b\nwork 1 1\nend\n", 5, WORD),
        ("body b\nend x\n", 5, WORD),
        ("body b\ntask.wake_after 4294967296\nend\n", 5, RANGE),
        (
            "body b\ntask.wake_after 99999999999999999999\nend\n",
            5,
            RANGE,
        ),
        ("body b\ntask.wake_after 0x0000001\nend\n", 5, NUMBER),
        ("body b\ntask.wake_after 0x0000000A\nend\n", 5, NUMBER),
        ("limit 0\n", 4, RANGE),
        ("limit 1000001\n", 4, RANGE),
        ("limit 5\nlimit 5\n", 5, WORD),
        ("body b\nend\nlimit 5\n", 6, WORD),
        ("body b\ngoto 0\nend\n", 5, RANGE),
        ("body b\ngoto 1\nend\n", 5, RANGE),
        ("body b\ngoto 2\nwork 1\nend\n", 5, RANGE),
        ("body b\nwork 1\ngoto 2\nend\n", 6, RANGE),
        ("body b\nwork 1\ngoto 1\ngoto 2\nend\n", 7, RANGE),
        ("body b\nwork 1\ngoto 4294967297\nend\n", 6, RANGE),
        ("body b\nwork 1\nend\nbody c\ngoto 1\nend\n", 8, RANGE),
        ("body b\ntask.suspend own\nend\n", 5, NUMBER),
        ("body b\ntask.resume 1a\nend\n", 5, NUMBER),
        ("body b\ntask.suspend\nend\n", 5, WORD),
        ("body b\ntask.resume 4294967296\nend\n", 5, RANGE),
        ("body B\nend\n", 4, WORD),
        ("body 1b\nend\n", 4, WORD),
        ("body bbbbbbbbbbbbbbbbb\nend\n", 4, WORD),
        ("body b\nend\nbody b\nend\n", 6, REPEATED),
        ("body b\nend\ninit AAAA 0 1 b\nbody c\nend\n", 7, WORD),
        ("body b\nend\ninit AAAA 0 1 c\n", 6, UNKNOWN),
        ("body b\nend\ninit AAA 0 1 b\n", 6, WORD),
        ("body b\nend\ninit AA-A 0 1 b\n", 6, WORD),
        ("body b\nend\ninit AAAA 1 1 b\n", 6, RANGE),
        ("body b\nend\ninit AAAA 0 0 b\n", 6, RANGE),
        ("body b\nend\ninit AAAA 0 256 b\n", 6, RANGE),
        ("body b\nend\ninit AAAA 0 1\n", 6, WORD),
    ];
    for (tail, line, why) in rows {
        let text = repeated(rt.alloc(), FRONT, tail, 1, "")?;
        let want = Some(ScenarioError::Refused { line, why });
        assert_eq!(rt; refusal(rt.alloc(), text.as_bytes()), want, "{tail}");
    }
    Ok(())
}

#[test]
fn refuses_lines_of_managers(rt: HostRuntime) -> Result<(), Fail> {
    let rows = [
        ("task.create AAAA 1\n", WORD),
        ("task.create AAAA 1 v0 v1\n", WORD),
        ("task.create AAAAA 1 v0\n", WORD),
        ("task.create -- 1 v0\n", WORD),
        ("task.create AAAA 4294967296 v0\n", RANGE),
        ("task.create AAAA x v0\n", NUMBER),
        ("task.create AAAA 1 v8\n", WORD),
        ("task.create AAAA 1 v\n", WORD),
        ("task.create AAAA 1 v00\n", WORD),
        ("task.create AAAA 1 V0\n", WORD),
        ("task.ident - v0\n", WORD),
        ("task.ident AAAAA v0\n", WORD),
        ("task.ident AAAA v8\n", WORD),
        ("task.ident AAAA\n", WORD),
        ("task.ident AAAA v0 v1\n", WORD),
        ("task.start v0\n", WORD),
        ("task.start v0 b b\n", WORD),
        ("task.start v8 b\n", NUMBER),
        ("task.start v0 c\n", UNKNOWN),
        ("task.set_priority v0 1\n", WORD),
        ("task.set_priority v0 1 v0 v0\n", WORD),
        ("task.set_priority v8 1 v0\n", NUMBER),
        ("task.set_priority v0 4294967296 v0\n", RANGE),
        ("task.set_priority v0 -1 v0\n", NUMBER),
        ("task.set_priority v0 1 v8\n", WORD),
        ("task.delete\n", WORD),
        ("task.delete v8\n", NUMBER),
        ("task.delete v0 v1\n", WORD),
        ("event.send v0\n", WORD),
        ("event.send v8 1\n", NUMBER),
        ("event.send v0 4294967296\n", RANGE),
        ("event.receive 1 any nowait\n", WORD),
        ("event.receive 1 any nowait v0 v1\n", WORD),
        ("event.receive 1 some 0 v0\n", WORD),
        ("event.receive 1 any never v0\n", NUMBER),
        ("event.receive 1 any 4294967296 v0\n", RANGE),
        ("event.receive 1 all nowait v8\n", WORD),
        ("barrier.create AAAA auto 1\n", WORD),
        ("barrier.create AAAA auto 1 v0 v1\n", WORD),
        ("barrier.create AAAAA auto 1 v0\n", WORD),
        ("barrier.create AAAA automatic 1 v0\n", WORD),
        ("barrier.create AAAA any 1 v0\n", WORD),
        ("barrier.create AAAA manual 4294967296 v0\n", RANGE),
        ("barrier.create AAAA manual 0 v8\n", WORD),
        ("barrier.ident - v0\n", WORD),
        ("barrier.ident AAAA v8\n", WORD),
        ("barrier.ident AAAA\n", WORD),
        ("barrier.wait v0\n", WORD),
        ("barrier.wait v8 1\n", NUMBER),
        ("barrier.wait v0 nowait\n", NUMBER),
        ("barrier.wait v0 4294967296\n", RANGE),
        ("barrier.release v0\n", WORD),
        ("barrier.release v8 v0\n", NUMBER),
        ("barrier.release v0 1\n", WORD),
        ("barrier.delete\n", WORD),
        ("barrier.delete v8\n", NUMBER),
        ("barrier.delete v0 v1\n", WORD),
        ("part.create AAAA 0 64 8\n", WORD),
        ("part.create AAAA 0 64 8 v0 v1\n", WORD),
        ("part.create AAAAA 0 64 8 v0\n", WORD),
        ("part.create AAAA v0 64 8 v0\n", NUMBER),
        ("part.create AAAA 0 4294967296 8 v0\n", RANGE),
        ("part.create AAAA 0 64 x v0\n", NUMBER),
        ("part.create AAAA 0 64 8 v8\n", WORD),
        ("part.ident - v0\n", WORD),
        ("part.ident AAAA v8\n", WORD),
        ("part.ident AAAA\n", WORD),
        ("part.get v0\n", WORD),
        ("part.get v8 v0\n", NUMBER),
        ("part.get v0 1\n", WORD),
        ("part.return v0\n", WORD),
        ("part.return v0 self\n", NUMBER),
        ("part.return v0 v8\n", NUMBER),
        ("part.return v0 4294967296\n", RANGE),
        ("part.delete\n", WORD),
        ("part.delete v8\n", NUMBER),
        ("part.delete v0 v1\n", WORD),
        ("period.create AAAA\n", WORD),
        ("period.create AAAA v0 v1\n", WORD),
        ("period.create AAAAA v0\n", WORD),
        ("period.create AAAA v8\n", WORD),
        ("period.ident - v0\n", WORD),
        ("period.ident AAAA\n", WORD),
        ("period.ident AAAA v8\n", WORD),
        ("period.period v0\n", WORD),
        ("period.period v8 1\n", NUMBER),
        ("period.period v0 v1\n", NUMBER),
        ("period.period v0 nowait\n", NUMBER),
        ("period.period v0 4294967296\n", RANGE),
        ("period.cancel\n", WORD),
        ("period.cancel v8\n", NUMBER),
        ("period.cancel v0 v1\n", WORD),
        ("period.delete\n", WORD),
        ("period.delete v8\n", NUMBER),
        ("period.delete v0 v1\n", WORD),
    ];
    for (row, why) in rows {
        let want = Some(ScenarioError::Refused { line: 5, why });
        assert_eq!(rt; refusal_of_line(rt.alloc(), row)?, want, "{row}");
    }
    Ok(())
}

#[test]
fn refuses_lines_of_semaphores(rt: HostRuntime) -> Result<(), Fail> {
    let rows = [
        ("sem.create AAAA 1 counting fifo none 0\n", WORD),
        ("sem.create AAAA 1 counting fifo none v0\n", WORD),
        ("sem.create AAAA 1 counting fifo none 0 v0 v1\n", WORD),
        ("sem.create AAAAA 1 counting fifo none 0 v0\n", WORD),
        ("sem.create AAAA x counting fifo none 0 v0\n", NUMBER),
        (
            "sem.create AAAA 4294967296 counting fifo none 0 v0\n",
            RANGE,
        ),
        ("sem.create AAAA 1 mutex fifo none 0 v0\n", WORD),
        ("sem.create AAAA 1 fifo counting none 0 v0\n", WORD),
        ("sem.create AAAA 1 Simple fifo none 0 v0\n", WORD),
        ("sem.create AAAA 1 binary lifo none 0 v0\n", WORD),
        ("sem.create AAAA 1 binary prio none 0 v0\n", WORD),
        ("sem.create AAAA 1 binary priority Inherit 0 v0\n", WORD),
        ("sem.create AAAA 1 binary priority ceilings 1 v0\n", WORD),
        ("sem.create AAAA 1 binary priority mrsp 1 v0\n", WORD),
        ("sem.create AAAA 1 binary priority - 0 v0\n", WORD),
        (
            "sem.create AAAA 1 binary priority none 4294967296 v0\n",
            RANGE,
        ),
        ("sem.create AAAA 1 binary priority none 0 v8\n", WORD),
        ("sem.ident - v0\n", WORD),
        ("sem.ident AAAA\n", WORD),
        ("sem.ident AAAA v8\n", WORD),
        ("sem.obtain v0\n", WORD),
        ("sem.obtain v8 0\n", NUMBER),
        ("sem.obtain v0 v1\n", NUMBER),
        ("sem.obtain v0 4294967296\n", RANGE),
        ("sem.release\n", WORD),
        ("sem.release v8\n", NUMBER),
        ("sem.release v0 v1\n", WORD),
        ("sem.flush\n", WORD),
        ("sem.flush v8\n", NUMBER),
        ("sem.flush v0 v1\n", WORD),
        ("sem.delete\n", WORD),
        ("sem.delete v8\n", NUMBER),
        ("sem.delete v0 v1\n", WORD),
    ];
    for (row, why) in rows {
        let want = Some(ScenarioError::Refused { line: 5, why });
        assert_eq!(rt; refusal_of_line(rt.alloc(), row)?, want, "{row}");
    }
    Ok(())
}

#[test]
fn refuses_lines_with_clusters(rt: HostRuntime) -> Result<(), Fail> {
    let rows = [
        ("task.get_priority self 0\n", WORD),
        ("task.get_priority self 0 v0 v1\n", WORD),
        ("task.get_priority v8 0 v0\n", NUMBER),
        ("task.get_priority self v0 v0\n", NUMBER),
        ("task.get_priority self 00 v8\n", NUMBER),
        ("task.get_priority 4294967296 x v8\n", RANGE),
        ("task.get_priority self 1 v0\n", RANGE),
        ("task.get_priority self 256 v8\n", RANGE),
        ("task.get_priority self 4294967296 v0\n", RANGE),
        ("task.get_priority self 0 v8\n", WORD),
        ("sem.set_priority v0 0 1\n", WORD),
        ("sem.set_priority v0 0 1 v0 v1\n", WORD),
        ("sem.set_priority v8 0 1 v0\n", NUMBER),
        ("sem.set_priority v0 - x v0\n", NUMBER),
        ("sem.set_priority v0 1 x v0\n", RANGE),
        ("sem.set_priority v0 0 v1 v0\n", NUMBER),
        ("sem.set_priority v0 0 4294967296 v0\n", RANGE),
        ("sem.set_priority v0 0 1 v8\n", WORD),
    ];
    for (row, why) in rows {
        let want = Some(ScenarioError::Refused { line: 5, why });
        assert_eq!(rt; refusal_of_line(rt.alloc(), row)?, want, "{row}");
    }
    Ok(())
}

#[test]
fn counts_lines_and_bytes(rt: HostRuntime) -> Result<(), Fail> {
    let alloc = rt.alloc();
    let open = repeated(alloc, FRONT, "body b\n", 1, "")?;
    let whole = repeated(alloc, open.as_str(), "end\n", 1, "")?;
    let rows = [
        (open.as_str(), "work 1\n", 1000, "end\n", None),
        (open.as_str(), "work 1\n", 1001, "end\n", Some(1005)),
        (whole.as_str(), "init AAAA 0 1 b\n", 64, "", None),
        (whole.as_str(), "init AAAA 0 1 b\n", 65, "", Some(70)),
        (FRONT, "#", 1_048_550, "", None),
        (FRONT, "#", 1_048_551, "", Some(0)),
    ];
    for (head, line, count, tail, refused_at) in rows {
        let text = repeated(alloc, head, line, count, tail)?;
        let want = refused_at.map(|line| ScenarioError::Refused {
            line,
            why: if line == 0 {
                ScenarioWhy::TooLarge
            } else {
                TOO_MANY
            },
        });
        assert_eq!(rt;
            refusal(alloc, text.as_bytes()),
            want,
            "{count} times {line}"
        );
    }
    Ok(())
}

#[test]
fn counts_bodies(rt: HostRuntime) -> Result<(), Fail> {
    let alloc = rt.alloc();
    let mut text = String::from_str(alloc, FRONT)?;
    for number in 0..32u32 {
        text.push_str("body b")?;
        text.push_str(number.to_string(alloc)?.as_str())?;
        text.push_str("\nend\n")?;
    }
    assert_eq!(rt; refusal(alloc, text.as_bytes()), None);
    text.push_str("body c\nend\n")?;
    let want = Some(ScenarioError::Refused {
        line: 68,
        why: TOO_MANY,
    });
    assert_eq!(rt; refusal(alloc, text.as_bytes()), want);
    Ok(())
}

#[test]
fn reads_lines_of_bodies(rt: HostRuntime) -> Result<(), Fail> {
    let name = Name { bits: 0x545f_3161 };
    let rows = [
        ("work 1000000\n", Op::Work(1_000_000)),
        ("# none\n\n  work   0x00000007 \n", Op::Work(7)),
        ("goto 0x00000001\n", Op::Goto(1)),
        ("task.create T_1a 5 v0\n", Op::TaskCreate(name, 5, 0)),
        (
            "task.create - 0xffffffff v7\n",
            Op::TaskCreate(Name { bits: 0 }, 4_294_967_295, 7),
        ),
        ("task.ident T_1a v3\n", Op::TaskIdent(name, 3)),
        ("task.start v3 a\n", Op::TaskStart(Target::Var(3), 0)),
        ("task.start self b\n", Op::TaskStart(Target::Own, 1)),
        ("task.suspend self\n", Op::TaskSuspend(Target::Own)),
        (
            "task.resume 0x0a010001\n",
            Op::TaskResume(Target::Given(0x0a01_0001)),
        ),
        (
            "task.set_priority v3 0 v1\n",
            Op::TaskSetPriority(Target::Var(3), 0, 1),
        ),
        (
            "task.get_priority self 0 v1\n",
            Op::TaskGetPriority(Target::Own, 0, 1),
        ),
        ("task.delete 0\n", Op::TaskDelete(Target::Given(0))),
        (
            "task.wake_after 4294967295\n",
            Op::TaskWakeAfter(4_294_967_295),
        ),
        ("event.send self 0\n", Op::EventSend(Target::Own, 0)),
        (
            "event.send v2 0xffffffff\n",
            Op::EventSend(Target::Var(2), 4_294_967_295),
        ),
        (
            "event.receive 5 any nowait v0\n",
            Op::EventReceive(5, false, Wish::NoWait, 0),
        ),
        (
            "event.receive 4294967295 all 0 v7\n",
            Op::EventReceive(4_294_967_295, true, Wish::Limit(0), 7),
        ),
        (
            "event.receive 0 all 0xffffffff v1\n",
            Op::EventReceive(0, true, Wish::Limit(4_294_967_295), 1),
        ),
        (
            "sem.create T_1a 4294967295 counting fifo none 0 v0\n",
            Op::SemCreate(
                name,
                4_294_967_295,
                SemKind::Counting,
                Order::Fifo,
                Protocol::NoProtocol,
                0,
                0,
            ),
        ),
        (
            "sem.create - 0 simple priority none 4294967295 v7\n",
            Op::SemCreate(
                Name { bits: 0 },
                0,
                SemKind::Simple,
                Order::Priority,
                Protocol::NoProtocol,
                4_294_967_295,
                7,
            ),
        ),
        (
            "sem.create T_1a 1 binary priority inherit 2 v3\n",
            Op::SemCreate(
                name,
                1,
                SemKind::Binary,
                Order::Priority,
                Protocol::Inherit,
                2,
                3,
            ),
        ),
        (
            "sem.create T_1a 0 binary fifo ceiling 255 v4\n",
            Op::SemCreate(
                name,
                0,
                SemKind::Binary,
                Order::Fifo,
                Protocol::Ceiling,
                255,
                4,
            ),
        ),
        ("sem.ident T_1a v4\n", Op::SemIdent(name, 4)),
        (
            "sem.obtain v1 nowait\n",
            Op::SemObtain(Target::Var(1), Wish::NoWait),
        ),
        (
            "sem.obtain 0x1a010001 0xffffffff\n",
            Op::SemObtain(Target::Given(0x1a01_0001), Wish::Limit(4_294_967_295)),
        ),
        ("sem.release self\n", Op::SemRelease(Target::Own)),
        ("sem.flush v2\n", Op::SemFlush(Target::Var(2))),
        ("sem.delete v3\n", Op::SemDelete(Target::Var(3))),
        (
            "sem.set_priority v3 0 4294967295 v1\n",
            Op::SemSetPriority(Target::Var(3), 0, 4_294_967_295, 1),
        ),
        (
            "barrier.create T_1a auto 4294967295 v0\n",
            Op::BarrierCreate(name, true, 4_294_967_295, 0),
        ),
        (
            "barrier.create - manual 0 v7\n",
            Op::BarrierCreate(Name { bits: 0 }, false, 0, 7),
        ),
        ("barrier.ident T_1a v4\n", Op::BarrierIdent(name, 4)),
        ("barrier.wait v1 0\n", Op::BarrierWait(Target::Var(1), 0)),
        (
            "barrier.wait 0x22010001 0xffffffff\n",
            Op::BarrierWait(Target::Given(0x2201_0001), 4_294_967_295),
        ),
        (
            "barrier.release v1 v2\n",
            Op::BarrierRelease(Target::Var(1), 2),
        ),
        ("barrier.delete v3\n", Op::BarrierDelete(Target::Var(3))),
        (
            "part.create T_1a 0x10000000 4294967295 64 v0\n",
            Op::PartCreate(name, 0x1000_0000, 4_294_967_295, 64, 0),
        ),
        (
            "part.create - 0 1 2 v7\n",
            Op::PartCreate(Name { bits: 0 }, 0, 1, 2, 7),
        ),
        ("part.ident T_1a v4\n", Op::PartIdent(name, 4)),
        ("part.get v1 v2\n", Op::PartGet(Target::Var(1), 2)),
        (
            "part.return self v2\n",
            Op::PartReturn(Target::Own, Target::Var(2)),
        ),
        (
            "part.return v1 0xffffffff\n",
            Op::PartReturn(Target::Var(1), Target::Given(4_294_967_295)),
        ),
        ("part.delete v3\n", Op::PartDelete(Target::Var(3))),
        ("period.create T_1a v0\n", Op::PeriodCreate(name, 0)),
        (
            "period.create - v7\n",
            Op::PeriodCreate(Name { bits: 0 }, 7),
        ),
        ("period.ident T_1a v4\n", Op::PeriodIdent(name, 4)),
        ("period.period v1 0\n", Op::PeriodPeriod(Target::Var(1), 0)),
        (
            "period.period 0x42010001 0xffffffff\n",
            Op::PeriodPeriod(Target::Given(0x4201_0001), 4_294_967_295),
        ),
        ("period.cancel self\n", Op::PeriodCancel(Target::Own)),
        ("period.delete v3\n", Op::PeriodDelete(Target::Var(3))),
    ];
    let open = repeated(rt.alloc(), FRONT, "body a\nend\nbody b\nwork 1\n", 1, "")?;
    for (line, op) in rows {
        let text = repeated(rt.alloc(), open.as_str(), line, 1, "end\n")?;
        let scenario = read_scenario(rt.alloc(), text.as_bytes())?;
        let body = scenario.bodies.get(1).ok_or("a body")?;
        assert_eq!(rt; body.lines.as_slice(), [Op::Work(1), op].as_slice());
    }
    Ok(())
}

#[test]
fn reads_numbers_of_clusters(rt: HostRuntime) -> Result<(), Fail> {
    let open = "rtems 1\ncluster 2\ncluster 2\ncluster 2\ncluster 2\nticks 0\nbody b\n";
    let rows = [
        (
            "task.get_priority v1 3 v7\n",
            Op::TaskGetPriority(Target::Var(1), 3, 7),
        ),
        (
            "task.get_priority 0 0x00000002 v0\n",
            Op::TaskGetPriority(Target::Given(0), 2, 0),
        ),
        (
            "sem.set_priority v1 3 0 v7\n",
            Op::SemSetPriority(Target::Var(1), 3, 0, 7),
        ),
    ];
    for (line, op) in rows {
        let text = repeated(rt.alloc(), open, line, 1, "end\n")?;
        let scenario = read_scenario(rt.alloc(), text.as_bytes())?;
        let body = scenario.bodies.get(0).ok_or("a body")?;
        assert_eq!(rt; body.lines.as_slice(), [op].as_slice());
    }
    let text = repeated(
        rt.alloc(),
        open,
        "task.get_priority self 4 v0\n",
        1,
        "end\n",
    )?;
    let want = Some(ScenarioError::Refused {
        line: 8,
        why: RANGE,
    });
    assert_eq!(rt; refusal(rt.alloc(), text.as_bytes()), want);
    Ok(())
}

#[test]
fn reads_the_lines_around_bodies(rt: HostRuntime) -> Result<(), Fail> {
    let text = "rtems 1\ncluster 1\ncluster 7\nticks 1000000\nlimit 1\n\
                body b_1\nend\ninit T_1a 1 255 b_1\ninit aaaa 0 0x00000001 b_1";
    let scenario = read_scenario(rt.alloc(), text.as_bytes())?;
    assert_eq!(rt; scenario.clusters.as_slice(), [1, 7].as_slice());
    assert_eq!(rt; (scenario.horizon, scenario.limit), (1_000_000, 1));
    assert_eq!(rt; scenario.bodies.len(), 1);
    let body = scenario.bodies.get(0).ok_or("a body")?;
    assert_eq!(rt; body.name.as_slice(), b"b_1".as_slice());
    let inits = [
        Init {
            name: Name { bits: 0x545f_3161 },
            cluster: 1,
            prio: Prio::new(255),
            body: 0,
        },
        Init {
            name: Name { bits: 0x6161_6161 },
            cluster: 0,
            prio: Prio::new(1),
            body: 0,
        },
    ];
    assert_eq!(rt; scenario.inits.as_slice(), inits.as_slice());
    Ok(())
}

#[test]
fn has_a_limit_without_one(rt: HostRuntime) -> Result<(), Fail> {
    let text = "rtems 1\ncluster 2\ncluster 2\ncluster 2\ncluster 2\nticks 0\n";
    let scenario = read_scenario(rt.alloc(), text.as_bytes())?;
    assert_eq!(rt; scenario.clusters.as_slice(), [2, 2, 2, 2].as_slice());
    assert_eq!(rt; scenario.limit, 200_000);
    Ok(())
}

/// The FNV-1a hash of bytes, in 64 bits.
fn hash(bytes: &[u8]) -> u64 {
    let mut sum: u64 = 14_695_981_039_346_656_037;
    for byte in bytes {
        sum = (sum ^ u64::from(*byte)).wrapping_mul(1_099_511_628_211);
    }
    sum
}

#[test]
fn generates_the_load_of_a_number(rt: HostRuntime) -> Result<(), Fail> {
    let rows = [
        (0, 5604, 682_599_130_653_035_397),
        (1, 5603, 10_630_174_446_488_274_026),
        (2, 5598, 2_136_345_934_010_764_558),
        (7, 5600, 16_747_796_412_022_525_281),
        (1000, 5605, 16_518_924_659_421_925_653),
        (4_294_967_295, 5600, 17_257_968_218_264_821_769),
    ];
    for (number, length, sum) in rows {
        let text = generate(rt.alloc(), number)?;
        assert_eq!(rt; text.len(), length, "{number}");
        assert_eq!(rt; hash(text.as_slice()), sum, "{number}");
    }
    Ok(())
}
