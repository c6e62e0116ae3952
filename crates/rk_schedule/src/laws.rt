//! Laws of schedules: the contract of each function is a law, and calling it does nothing.

ghost use Rattle.rk_schedule.specs.ScheduleLaws.{OneHistory, OneAnswer, EachLineHasAForm};

/// A schedule is that of one legal history.
pub fn a_schedule_has_one_history()
    ensures { OneHistory }
{}

/// Bytes have one fault, or they are the schedule of a finished history, and then they have none.
pub fn bytes_have_one_fault_or_none()
    ensures { OneAnswer }
{}

/// Each line of a schedule has a form of lines: the forms refuse no line that a schedule may have.
pub fn each_line_of_a_schedule_has_a_form()
    ensures { EachLineHasAForm }
{}
