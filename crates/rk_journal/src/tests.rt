ghost use Rattle.std.specs.Prelude.{◌≡◌, IsSome};
ghost use Rattle.rk_model.specs.Keys.{seat_key};
ghost use Rattle.rk_journal.specs.MarkRegisters.{mark_at, AreOf};

use crate::{
    Appended, Held, Journal, JournalState, Opening, append, close_journal, meet, note, open_journal,
};
use rk_model::keys::{FIRST_SEAT, KEYS};
use rk_model::{Entry, NoMemory, What};
use std::test::Fail;

/// Appends an entry of the clock, whose mark is held before and after.
fn append_of_clock(journal: &mut Journal, what: What, held: &mut Held) -> Appended
    requires of { AreOf journal.old.opening held.old }
    requires clock { IsSome (mark_at held.old (seat_key 8)) }
    ensures opening { journal.new.opening ≡ journal.old.opening }
    ensures of { AreOf journal.new.opening held.new }
    ensures clock { IsSome (mark_at held.new (seat_key 8)) }
{
    append(journal, Entry::of_clock(what), held)
}

#[test]
fn each_mark_is_taken_and_put_back(rt: HostRuntime) -> Result<(), Fail> {
    let Opening {
        journal: _,
        mut marks,
    } = open_journal(rt.alloc(), 3).map_err(|_: NoMemory| "memory")?;
    for key in 0..20u8 {
        let is_key = usize::from(key) < KEYS;
        assert_eq!(rt; marks.has(key), is_key);
        match marks.take(key) {
            Some(mark) => {
                assert_eq!(rt; is_key, true);
                assert_eq!(rt; mark.key(), key);
                assert_eq!(rt; marks.has(key), false);
                marks.put(mark);
                assert_eq!(rt; marks.has(key), true);
            }
            None => assert_eq!(rt; is_key, false),
        }
    }
    Ok(())
}

#[test]
fn new_register_has_no_mark(rt: HostRuntime) -> Result<(), Fail> {
    let mut held = Held::new();
    for key in 0..20u8 {
        assert_eq!(rt; held.has(key), false);
        assert_eq!(rt; held.take(key).is_none(), true);
    }
    Ok(())
}

#[test]
fn history_is_full_at_its_limit(rt: HostRuntime) -> Result<(), Fail> {
    let Opening {
        mut journal,
        marks: mut held,
    } = open_journal(rt.alloc(), 1).map_err(|_: NoMemory| "memory")?;
    assert_eq!(rt; journal.state(), JournalState::Open);
    assert_eq!(rt; journal.count(), 0);
    assert_eq!(rt;
        append_of_clock(&mut journal, What::Tick, &mut held),
        Appended::Placed(0)
    );
    assert_eq!(rt; journal.state(), JournalState::Full);
    assert_eq!(rt; journal.count(), 1);
    assert_eq!(rt;
        append_of_clock(&mut journal, What::End, &mut held),
        Appended::Full
    );
    let history = close_journal(journal);
    assert_eq!(rt; history.entries().len(), 1);
    assert_eq!(rt; history.entries()[0].what, What::Tick);
    Ok(())
}

#[test]
fn history_at_its_limit_that_ends_with_end_is_over(rt: HostRuntime) -> Result<(), Fail> {
    let Opening {
        mut journal,
        marks: mut held,
    } = open_journal(rt.alloc(), 2).map_err(|_: NoMemory| "memory")?;
    assert_eq!(rt;
        append_of_clock(&mut journal, What::Tick, &mut held),
        Appended::Placed(0)
    );
    assert_eq!(rt;
        append_of_clock(&mut journal, What::End, &mut held),
        Appended::Placed(1)
    );
    assert_eq!(rt; journal.state(), JournalState::Over);
    assert_eq!(rt;
        append_of_clock(&mut journal, What::Tick, &mut held),
        Appended::Over
    );
    let history = close_journal(journal);
    assert_eq!(rt; history.entries().len(), 2);
    assert_eq!(rt; history.entries()[1].what, What::End);
    Ok(())
}

#[test]
fn history_without_entries_is_full_at_limit_0(rt: HostRuntime) -> Result<(), Fail> {
    let Opening {
        mut journal,
        marks: mut held,
    } = open_journal(rt.alloc(), 0).map_err(|_: NoMemory| "memory")?;
    assert_eq!(rt; journal.state(), JournalState::Full);
    assert_eq!(rt;
        append_of_clock(&mut journal, What::Tick, &mut held),
        Appended::Full
    );
    assert_eq!(rt; close_journal(journal).entries().len(), 0);
    Ok(())
}

#[test]
fn mark_that_is_not_held_meets_between_appends(rt: HostRuntime) -> Result<(), Fail> {
    let Opening {
        mut journal,
        marks: mut held,
    } = open_journal(rt.alloc(), 3).map_err(|_: NoMemory| "memory")?;
    let Some(mut part) = held.take(0) else {
        return Err("no mark".into());
    };
    meet(&mut journal, &mut part);
    assert_eq!(rt;
        append_of_clock(&mut journal, What::Tick, &mut held),
        Appended::Placed(0)
    );
    meet(&mut journal, &mut part);
    let _front = note(&mut journal);
    assert_eq!(rt;
        append_of_clock(&mut journal, What::End, &mut held),
        Appended::Placed(1)
    );
    meet(&mut journal, &mut part);
    assert_eq!(rt; part.key(), 0);
    assert_eq!(rt; held.has(0), false);
    assert_eq!(rt; held.has(FIRST_SEAT), true);
    assert_eq!(rt; close_journal(journal).entries().len(), 2);
    Ok(())
}
