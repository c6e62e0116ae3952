ghost use Rattle.std.specs.Prelude.{◌≡◌};
ghost use Rattle.rk_model.specs.Text.Forms.{word_of, form_from, form_in};

use crate::numbers::Name;
use crate::scenario::{Op, Target, Wish};
use crate::semaphore::{Protocol, SemKind};
use crate::waiting::Order;

/// A line of each form. What its operands are is of no account.
pub const FORMS: &[Op] = &[
    Op::Work(1),
    Op::Goto(1),
    Op::TaskCreate(Name { bits: 0 }, 0, 0),
    Op::TaskIdent(Name { bits: 0 }, 0),
    Op::TaskStart(Target::Own, 0),
    Op::TaskSuspend(Target::Own),
    Op::TaskResume(Target::Own),
    Op::TaskSetPriority(Target::Own, 0, 0),
    Op::TaskGetPriority(Target::Own, 0, 0),
    Op::TaskDelete(Target::Own),
    Op::TaskWakeAfter(0),
    Op::EventSend(Target::Own, 0),
    Op::EventReceive(0, false, Wish::NoWait, 0),
    Op::SemCreate(
        Name { bits: 0 },
        0,
        SemKind::Counting,
        Order::Fifo,
        Protocol::NoProtocol,
        0,
        0,
    ),
    Op::SemIdent(Name { bits: 0 }, 0),
    Op::SemObtain(Target::Own, Wish::NoWait),
    Op::SemRelease(Target::Own),
    Op::SemFlush(Target::Own),
    Op::SemDelete(Target::Own),
    Op::SemSetPriority(Target::Own, 0, 0, 0),
    Op::BarrierCreate(Name { bits: 0 }, false, 0, 0),
    Op::BarrierIdent(Name { bits: 0 }, 0),
    Op::BarrierWait(Target::Own, 0),
    Op::BarrierRelease(Target::Own, 0),
    Op::BarrierDelete(Target::Own),
    Op::PartCreate(Name { bits: 0 }, 0, 0, 0, 0),
    Op::PartIdent(Name { bits: 0 }, 0),
    Op::PartGet(Target::Own, 0),
    Op::PartReturn(Target::Own, Target::Given(0)),
    Op::PartDelete(Target::Own),
    Op::PeriodCreate(Name { bits: 0 }, 0),
    Op::PeriodIdent(Name { bits: 0 }, 0),
    Op::PeriodPeriod(Target::Own, 0),
    Op::PeriodCancel(Target::Own),
    Op::PeriodDelete(Target::Own),
];

impl Op {
    /// The first word of its line.
    pub fn word(self) -> &'static str
        ensures { result.now ≡ word_of self }
    {
        match self {
            Op::Work(_) => "work",
            Op::Goto(_) => "goto",
            Op::TaskCreate(_, _, _) => "task.create",
            Op::TaskIdent(_, _) => "task.ident",
            Op::TaskStart(_, _) => "task.start",
            Op::TaskSuspend(_) => "task.suspend",
            Op::TaskResume(_) => "task.resume",
            Op::TaskSetPriority(_, _, _) => "task.set_priority",
            Op::TaskGetPriority(_, _, _) => "task.get_priority",
            Op::TaskDelete(_) => "task.delete",
            Op::TaskWakeAfter(_) => "task.wake_after",
            Op::EventSend(_, _) => "event.send",
            Op::EventReceive(_, _, _, _) => "event.receive",
            Op::SemCreate(_, _, _, _, _, _, _) => "sem.create",
            Op::SemIdent(_, _) => "sem.ident",
            Op::SemObtain(_, _) => "sem.obtain",
            Op::SemRelease(_) => "sem.release",
            Op::SemFlush(_) => "sem.flush",
            Op::SemDelete(_) => "sem.delete",
            Op::SemSetPriority(_, _, _, _) => "sem.set_priority",
            Op::BarrierCreate(_, _, _, _) => "barrier.create",
            Op::BarrierIdent(_, _) => "barrier.ident",
            Op::BarrierWait(_, _) => "barrier.wait",
            Op::BarrierRelease(_, _) => "barrier.release",
            Op::BarrierDelete(_) => "barrier.delete",
            Op::PartCreate(_, _, _, _, _) => "part.create",
            Op::PartIdent(_, _) => "part.ident",
            Op::PartGet(_, _) => "part.get",
            Op::PartReturn(_, _) => "part.return",
            Op::PartDelete(_) => "part.delete",
            Op::PeriodCreate(_, _) => "period.create",
            Op::PeriodIdent(_, _) => "period.ident",
            Op::PeriodPeriod(_, _) => "period.period",
            Op::PeriodCancel(_) => "period.cancel",
            Op::PeriodDelete(_) => "period.delete",
        }
    }

    /// A line of the form that has this first word.
    #[tactic(auto, unfolding(crate::specs::Text::Forms::form_in))]
    pub fn of_word(word: &[u8]) -> Option<Op>
        ensures { result ≡ form_in word.now }
    {
        find(FORMS, word)
    }
}

/// The first of these that has the first word.
fn find(forms: &[Op], word: &[u8]) -> Option<Op>
    ensures { result ≡ form_from forms.now word.now }
{
    for form in forms {
        if form.word().as_bytes() == word {
            return Some(*form);
        }
    }
    None
}
