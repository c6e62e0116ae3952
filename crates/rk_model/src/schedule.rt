/// What is wrong with a line of a schedule.
#[derive(Clone, Copy, Debug, PartialEq, Eq)]
pub enum ScheduleWhy {
    /// The line is of no form.
    Form,
    /// It differs from the line of the directive that is next there, and only in what that answers.
    Status,
    /// It can't come there.
    Order,
    /// There is no such line.
    Unfinished,
}
