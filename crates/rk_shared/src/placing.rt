//! The append of an entry by the seat that made it.
ghost use Rattle.std.specs.Prelude.{◌≡◌};
ghost use Rattle.rk_model.specs.Keys.{seat_key};
ghost use Rattle.rk_journal.specs.declared.journal.JournalState.TheVariants.{Open};
ghost use Rattle.rk_journal.specs.MarkRegisters.{AreOf};
ghost use Rattle.rk_journal.specs.JournalAnswers.{state_of};
ghost use Rattle.rk_shared.specs.Keeps.{AreOfParts, IsPlaced};

use crate::hint::LengthHint;
use rk_journal::{Journal, Mark, Marks, append};
use rk_model::Entry;

/// Appends an entry to a history that may go on, under the marks of all parts and that of the entry's
/// seat, which has then seen the whole history.
pub(crate) fn place(
    journal: &mut Journal,
    marks: &mut Marks,
    hint: &LengthHint,
    entry: Entry,
    mark: Mark,
) -> Mark
    requires open { state_of journal.old ≡ Open }
    requires opening { (mark.opening ≡ journal.old.opening) × AreOf journal.old.opening marks.old }
    requires parts { AreOfParts marks.old }
    requires key { mark.key ≡ seat_key entry.seat }
    ensures journal { IsPlaced entry journal.old journal.new }
    ensures opening { AreOf journal.old.opening marks.new }
    ensures parts { AreOfParts marks.new }
    ensures mark { result ≡ record { opening = mark.opening; front = journal.new.log; key = mark.key } }
{
    let key = mark.key();
    marks.put(mark);
    append(journal, entry, marks);
    hint.set(journal.count());
    let Some(mark) = marks.take(key) else {
        unreachable!()
    };
    mark
}
