//! The forms of a schedule's lines.

ghost use Rattle.std.specs.Prelude.{◌≡◌, ◌∷◌, [], IfOk, length};
ghost use Rattle.std.specs.List.{list_all, list_any};
ghost use Rattle.std.specs.Str.{bytes_eq};
ghost use Rattle.std.specs.Fmt.{decimal};
ghost use Rattle.rk_model.specs.Status.{status_code};
ghost use Rattle.rk_model.specs.Text.Schedules.{exit_word, is_directive};
ghost use Rattle.rk_model.specs.Text.ScheduleForms.{is_directive_form, is_directive_word, is_status, is_answer, is_call, is_view, is_tick, is_period, is_number, is_word, is_line, are_line, has_form, is_decimal};

use crate::words::{is_decimal, is_hexadecimal, is_lettered, is_place};
use rk_model::words::{Word, spaced};
use rk_model::{NoMemory, Op, STATUSES, Status};
use std::alloc::Global;

/// Whether a line is a directive.
fn is_directive(op: Op) -> bool
    ensures { result ≡ is_directive op }
{
    !matches!(op, Op::Work(_) | Op::Goto(_))
}

/// Whether a word is that of a directive, or of the exit.
#[tactic(auto, unfolding(rk_model::specs::Text::ScheduleForms::is_directive_word, rk_model::specs::Text::Schedules::exit_word))]
fn is_directive_word(word: &[u8]) -> bool
    ensures { result ≡ is_directive_word word.now }
{
    if word == b"task.exit".as_slice() {
        return true;
    }
    match Op::of_word(word) {
        None => false,
        Some(op) => is_directive(op),
    }
}

/// The number of a status of RTEMS, in decimal digits.
#[tactic(auto, using(crate::proofs::StatusLemmas::written_is))]
fn status_text(status: Status) -> &'static str
    ensures { result.now ≡ decimal (status_code status) }
{
    match status {
        Status::Successful => "0",
        Status::TaskExitted => "1",
        Status::InvalidName => "3",
        Status::InvalidId => "4",
        Status::TooMany => "5",
        Status::Timeout => "6",
        Status::ObjectWasDeleted => "7",
        Status::InvalidSize => "8",
        Status::InvalidAddress => "9",
        Status::InvalidNumber => "10",
        Status::NotDefined => "11",
        Status::ResourceInUse => "12",
        Status::Unsatisfied => "13",
        Status::IncorrectState => "14",
        Status::AlreadySuspended => "15",
        Status::InvalidPriority => "19",
        Status::NotOwnerOfResource => "23",
        Status::Waits => "255",
    }
}

/// Whether a word is the number of one of these statuses.
fn is_status_of(statuses: &[Status], word: &[u8]) -> bool
    ensures { result ≡ list_any (λ status. bytes_eq word.now (decimal (status_code status))) statuses.now }
{
    for status in statuses {
        if word == status_text(*status).as_bytes() {
            return true;
        }
    }
    false
}

/// Whether a word is the number of a status of RTEMS.
#[tactic(auto, unfolding(rk_model::specs::Text::ScheduleForms::is_status))]
fn is_status(word: &[u8]) -> bool
    ensures { result ≡ is_status word.now }
{
    is_status_of(STATUSES, word)
}

/// Whether the words are what a directive answers.
#[tactic(auto, unfolding(rk_model::specs::Text::ScheduleForms::is_answer))]
fn is_answer(words: &[Word]) -> bool
    ensures { result ≡ is_answer words.now }
{
    match words {
        [how] => how.as_slice() == b"waits".as_slice(),
        [how, status, out] => {
            (how.as_slice() == b"done".as_slice() || how.as_slice() == b"back".as_slice())
                && is_status(status.as_slice())
                && is_hexadecimal(out.as_slice())
        }
        _ => false,
    }
}

/// Whether the words are those of a directive's line behind the first.
#[tactic(auto, unfolding(rk_model::specs::Text::ScheduleForms::is_call))]
fn is_call(words: &[Word]) -> bool
    ensures { result ≡ is_call words.now }
{
    match words {
        [task, place, word, answer @ ..] => {
            is_lettered(b't', task.as_slice())
                && is_place(place.as_slice())
                && is_directive_word(word.as_slice())
                && is_answer(answer)
        }
        _ => false,
    }
}

/// Whether a word is what a processor did.
fn is_view(word: &Word) -> bool
    ensures { result ≡ is_view word.now }
{
    word.as_slice() == b"-".as_slice()
        || is_lettered(b't', word.as_slice())
        || is_lettered(b's', word.as_slice())
}

/// Whether each word is what a processor did.
fn are_views(words: &[Word]) -> bool
    ensures { result ≡ list_all is_view words.now }
{
    words.iter().all(|word| is_view(word))
}

/// Whether the words are those of a tick's line behind the first, with so many processors.
#[tactic(auto, unfolding(rk_model::specs::Text::ScheduleForms::is_tick))]
fn is_tick(cpus: u8, words: &[Word]) -> bool
    ensures { result ≡ is_tick cpus words.now }
{
    match words {
        [] => false,
        [number, views @ ..] => {
            is_decimal(number.as_slice()) && views.len() == cpus as usize && are_views(views)
        }
    }
}

/// Whether each word is a decimal number.
fn are_numbers(words: &[Word]) -> bool
    ensures { result ≡ list_all is_decimal words.now }
{
    words.iter().all(|word| is_decimal(word.as_slice()))
}

/// Whether the words are those of a period's line behind the first.
#[tactic(auto, unfolding(rk_model::specs::Text::ScheduleForms::is_period))]
fn is_period(words: &[Word]) -> bool
    ensures { result ≡ is_period words.now }
{
    match words {
        [] => false,
        [id, numbers @ ..] => {
            is_hexadecimal(id.as_slice()) && numbers.len() == 8 && are_numbers(numbers)
        }
    }
}

/// Whether there is one word, a decimal number.
#[tactic(auto, unfolding(rk_model::specs::Text::ScheduleForms::is_number))]
fn is_number(words: &[Word]) -> bool
    ensures { result ≡ is_number words.now }
{
    match words {
        [number] => is_decimal(number.as_slice()),
        _ => false,
    }
}

/// Whether there is one word, and it is this one.
#[tactic(auto, unfolding(rk_model::specs::Text::ScheduleForms::is_word))]
fn is_word(wanted: &[u8], words: &[Word]) -> bool
    ensures { result ≡ is_word wanted.now words.now }
{
    match words {
        [word] => word.as_slice() == wanted,
        _ => false,
    }
}

/// Whether the words are those of a line, with so many processors.
#[tactic(auto, unfolding(rk_model::specs::Text::ScheduleForms::is_line))]
fn is_line(cpus: u8, first: &[u8], words: &[Word]) -> bool
    ensures { result ≡ is_line cpus first.now words.now }
{
    if first == b"tick".as_slice() {
        is_tick(cpus, words)
    } else if first == b"period".as_slice() {
        is_period(words)
    } else if first == b"end".as_slice() {
        is_number(words)
    } else if first == b"limit".as_slice() {
        words.len() < 1
    } else if first == b"schedule".as_slice() {
        is_word(b"1".as_slice(), words)
    } else {
        is_lettered(b'p', first) && is_call(words)
    }
}

/// Whether the words are those of a line, with so many processors.
fn are_line(cpus: u8, words: &[Word]) -> bool
    ensures { result ≡ are_line cpus words.now }
{
    match words {
        [] => false,
        [first, more @ ..] => is_line(cpus, first.as_slice(), more),
    }
}

/// Whether a line is of a form of a schedule's lines, where there are so many processors.
///
/// # Errors
///
/// `NoMemory` where there is no memory for the line's words.
#[tactic(auto, unfolding(rk_model::specs::Text::ScheduleForms::has_form))]
pub(crate) fn has_form(alloc: Global, cpus: u8, line: &[u8]) -> Result<bool, NoMemory>
    ensures { IfOk result (λ has. has ≡ has_form cpus line.now) }
{
    let words = spaced(alloc, line)?;
    Ok(are_line(cpus, words.as_slice()))
}
