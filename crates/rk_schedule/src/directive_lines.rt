//! The lines of directives.

ghost use Rattle.std.specs.Prelude.{◌≡◌, ◌++◌, OnOk, slice_get};
ghost use Rattle.rk_model.specs.declared.entry.What.TheVariants.{Call, Return};
ghost use Rattle.rk_model.specs.Text.Schedules.{exit_word, first_word, name_in, seat_text, place_text, call_text, reply_text, answer_text, directive_line};

use crate::pieces::{push_bytes, push_decimal, push_hex, push_text};
use rk_model::{Entry, NoMemory, Op, Scenario, Status, What};

/// Adds the word of a task's exit.
#[tactic(auto, unfolding(rk_model::specs::Text::Schedules::exit_word))]
fn push_exit(out: &mut Vec<u8>) -> Result<(), NoMemory>
    ensures { OnOk result (out.new.items ≡ out.old.items ++ exit_word) }
{
    push_text(out, "task.exit")
}

/// Adds the word of a directive.
fn push_word(out: &mut Vec<u8>, op: Option<Op>) -> Result<(), NoMemory>
    ensures { OnOk result (out.new.items ≡ out.old.items ++ first_word op) }
{
    match op {
        None => push_exit(out),
        Some(op) => push_text(out, op.word()),
    }
}

/// Adds the name of a body.
fn push_name(out: &mut Vec<u8>, scenario: &Scenario, body: u8) -> Result<(), NoMemory>
    ensures { OnOk result (out.new.items ≡ out.old.items ++ name_in (slice_get scenario.now.bodies body)) }
{
    match scenario.bodies.get(body as usize) {
        None => Ok(()),
        Some(found) => push_bytes(out, found.name.as_slice()),
    }
}

/// Adds the processor and the task of a directive.
#[tactic(auto, unfolding(rk_model::specs::Text::Schedules::seat_text))]
fn push_seat(out: &mut Vec<u8>, entry: &Entry) -> Result<(), NoMemory>
    ensures { OnOk result (out.new.items ≡ out.old.items ++ seat_text entry.now) }
{
    push_text(out, "p")?;
    push_decimal(out, u64::from(entry.seat))?;
    push_text(out, " t")?;
    push_decimal(out, u64::from(entry.task))?;
    push_text(out, " ")
}

/// Adds the body and the line of a directive.
#[tactic(auto, unfolding(rk_model::specs::Text::Schedules::place_text))]
fn push_place(out: &mut Vec<u8>, scenario: &Scenario, entry: &Entry) -> Result<(), NoMemory>
    ensures { OnOk result (out.new.items ≡ out.old.items ++ place_text scenario.now entry.now) }
{
    push_name(out, scenario, entry.body)?;
    push_text(out, ":")?;
    push_decimal(out, u64::from(entry.line))?;
    push_text(out, " ")
}

/// Adds which directive it is.
#[tactic(auto, unfolding(rk_model::specs::Text::Schedules::call_text))]
pub(crate) fn push_call(
    out: &mut Vec<u8>,
    scenario: &Scenario,
    entry: &Entry,
) -> Result<(), NoMemory>
    ensures { OnOk result (out.new.items ≡ out.old.items ++ call_text scenario.now entry.now) }
{
    push_seat(out, entry)?;
    push_place(out, scenario, entry)?;
    push_word(out, scenario.op_at(entry.body, entry.line))
}

/// Adds the code of a status and an out number.
#[tactic(auto, unfolding(rk_model::specs::Text::Schedules::reply_text))]
fn push_reply(out: &mut Vec<u8>, status: u8, number: u32) -> Result<(), NoMemory>
    ensures { OnOk result (out.new.items ≡ out.old.items ++ reply_text status number) }
{
    push_decimal(out, u64::from(status))?;
    push_bytes(out, b" ".as_slice())?;
    push_hex(out, u64::from(number))
}

/// Adds the answer of a directive that was done with SUCCESSFUL, in few pieces: it is the most usual one.
fn push_done(out: &mut Vec<u8>, number: u32) -> Result<(), NoMemory>
    ensures { OnOk result (out.new.items ≡ out.old.items ++ answer_text Call 0 number) }
{
    if number == 0 {
        push_text(out, " done 0 0")
    } else {
        push_text(out, " done 0 ")?;
        push_hex(out, u64::from(number))
    }
}

/// Adds the answer of a directive that came back with SUCCESSFUL, in few pieces.
fn push_back(out: &mut Vec<u8>, number: u32) -> Result<(), NoMemory>
    ensures { OnOk result (out.new.items ≡ out.old.items ++ answer_text Return 0 number) }
{
    if number == 0 {
        push_text(out, " back 0 0")
    } else {
        push_text(out, " back 0 ")?;
        push_hex(out, u64::from(number))
    }
}

/// Adds what stands behind the directive's word.
#[tactic(auto, unfolding(rk_model::specs::Text::Schedules::answer_text))]
fn push_answer(out: &mut Vec<u8>, what: What, status: u8, number: u32) -> Result<(), NoMemory>
    ensures { OnOk result (out.new.items ≡ out.old.items ++ answer_text what status number) }
{
    match what {
        What::Call => {
            if status == 0 {
                push_done(out, number)
            } else if status == Status::Waits.code() {
                push_text(out, " waits")
            } else {
                push_text(out, " done ")?;
                push_reply(out, status, number)
            }
        }
        What::Return => {
            if status == 0 {
                push_back(out, number)
            } else {
                push_text(out, " back ")?;
                push_reply(out, status, number)
            }
        }
        What::Tick | What::End => Ok(()),
    }
}

/// Adds the line of a directive.
pub(crate) fn push_directive(
    out: &mut Vec<u8>,
    scenario: &Scenario,
    entry: &Entry,
) -> Result<(), NoMemory>
    ensures { OnOk result (out.new.items ≡ out.old.items ++ directive_line scenario.now entry.now) }
{
    push_call(out, scenario, entry)?;
    push_answer(out, entry.what, entry.status, entry.out)
}
