//! What directives of all classes of objects share: looking for, making, naming and removing one.

ghost use Rattle.std.specs.Prelude.{◌≡◌, ◌≤◌, IfOk, None, true};
ghost use Rattle.rk_model.specs.declared.limits.TheConstants.{MOST_OBJECTS};
ghost use Rattle.rk_model.specs.Names.{names_of, lives};
ghost use Rattle.rk_model.specs.State.{Plain};
ghost use Rattle.rk_model.specs.Directives.Objects.{bits_of, ident, without_object};
ghost use Rattle.rk_directives.specs.Does.{Creates, IsFirst, Tells, with_table};
ghost use Rattle.rk_parts.specs.Joined.{lent};

use crate::outcomes::{done, value_in};
use rk_model::{Answer, Class, Id, Name, Status, Target, ThreadIx};
use rk_parts::lent::thread_of;
use rk_parts::parts::ClusterPart;
use rk_parts::table::Table;

/// The bits of an id that a caller gives.
pub(crate) fn bits_of(clusters: &[ClusterPart], caller: ThreadIx, id: Target) -> u32
    ensures { result ≡ bits_of (lent clusters.now) caller id }
{
    match id {
        Target::Var(var) => value_in(thread_of(clusters, caller), var),
        Target::Own => Id::of(Class::Task, u16::from(caller.at())).bits,
        Target::Given(bits) => bits,
    }
}

/// Gives the first free index of a class to an object of this name, unless the name is 0, the
/// operands are refused, or 64 objects of the class live; then it answers the status of the
/// refusal.
pub(crate) fn create(
    table: &mut Table,
    class: Class,
    name: Name,
    refusal: Option<Status>,
) -> Result<u16, Status>
    ensures made { (k : Plain) → Creates (with_table k table.old) class name.bits refusal result (with_table k table.new) }
    ensures first { IfOk result (λ index. IsFirst index (names_of class table.old).free) }
    ensures accepted { IfOk result (λ index. refusal ≡ None) }
    ensures within { IfOk result (λ index. (1 ≤ index) × (index ≤ MOST_OBJECTS)) }
{
    if name.bits == 0 {
        return Err(Status::InvalidName);
    }
    if let Some(status) = refusal {
        return Err(status);
    }
    match table.make(class, name) {
        None => Err(Status::TooMany),
        Some(index) => Ok(index),
    }
}

/// Answers the id of the live object of least index of a class that has the name. It refuses with
/// `INVALID_NAME` where there is none.
pub(crate) fn ident(table: &Table, class: Class, name: Name) -> Answer
    ensures { (k : Plain) → Tells (ident (with_table k table.now) class name.bits) result (with_table k table.now) }
{
    match table.find(class, name) {
        None => Answer::Refused(Status::InvalidName),
        Some(index) => done(Id::of(class, index).bits),
    }
}

/// Takes the name of an object away, whose index is free from then on.
pub(crate) fn remove(table: &mut Table, class: Class, index: u16)
    requires { lives (names_of class table.old) index ≡ true }
    ensures { (k : Plain) → with_table k table.new ≡ without_object (with_table k table.old) class index }
{
    table.give_back(class, index);
}
