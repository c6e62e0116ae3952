ghost use Rattle.std.specs.Prelude.{◌≡◌, ◌<◌, ◌≤◌, ◌∷◌, [], length};
ghost use Rattle.rk_model.specs.declared.limits.TheConstants.{MOST_CLUSTERS, MOST_LINES};
ghost use Rattle.rk_model.specs.Text.Forms.{form_of};
ghost use Rattle.rk_model.specs.Text.Reading.{known_at, op_line, line_like, form_line};

use crate::operands::{
    address_operand, any_operand, cluster_operand, goto_operand, id_operand, kind_operand,
    mode_operand, name_operand, name0_operand, number_operand, order_operand, protocol_operand,
    semaphore_kind_operand, start_operand, var_operand, wish_operand,
};
use rk_model::limits::MOST_TICKS;
use rk_model::words::Word;
use rk_model::{Body, Op, Scenario, ScenarioWhy};

/// What a line of an open body stands for behind the lines that this has so far, by its words.
/// `scenario` is what has been read of the scenario, with the bodies in front of the open one.
#[tactic(auto, unfolding(rk_model::specs::Text::Reading::op_line))]
pub(crate) fn read_op(scenario: &Scenario, body: &Body, words: &[Word]) -> Result<Op, ScenarioWhy>
    requires clusters { length scenario.now.clusters ≤ MOST_CLUSTERS }
    requires bodies { length scenario.now.bodies ≤ 255 }
    requires lines { length body.now.lines ≤ MOST_LINES }
    ensures { result ≡ op_line (known_at scenario.now body.now) words.now }
{
    match words {
        [] => Err(ScenarioWhy::Word),
        [first, operands @ ..] => match Op::of_word(first.as_slice()) {
            None => Err(ScenarioWhy::Word),
            Some(form) => read_form(scenario, body, form, operands),
        },
    }
}

/// What a line of the form of this one stands for, by the words behind it.
#[tactic(auto, unfolding(rk_model::specs::Text::Reading::form_line))]
fn read_form(
    scenario: &Scenario,
    body: &Body,
    form: Op,
    operands: &[Word],
) -> Result<Op, ScenarioWhy>
    requires clusters { length scenario.now.clusters ≤ MOST_CLUSTERS }
    requires bodies { length scenario.now.bodies ≤ 255 }
    requires lines { length body.now.lines ≤ MOST_LINES }
    ensures { result ≡ form_line (known_at scenario.now body.now) (form_of form) operands.now }
{
    match operands {
        [a] => read_one(scenario, body, form, a.as_slice()),
        [a, b] => read_two(scenario, body, form, a.as_slice(), b.as_slice()),
        [a, b, c] => read_three(
            scenario,
            body,
            form,
            a.as_slice(),
            b.as_slice(),
            c.as_slice(),
        ),
        [_, _, _, _, ..] => read_long_form(scenario, body, form, operands),
        _ => Err(ScenarioWhy::Word),
    }
}

/// What a line of the form of this one stands for, by the words behind it, of which there are more
/// than three.
#[tactic(auto, unfolding(rk_model::specs::Text::Reading::form_line))]
fn read_long_form(
    scenario: &Scenario,
    body: &Body,
    form: Op,
    operands: &[Word],
) -> Result<Op, ScenarioWhy>
    requires clusters { length scenario.now.clusters ≤ MOST_CLUSTERS }
    requires bodies { length scenario.now.bodies ≤ 255 }
    requires lines { length body.now.lines ≤ MOST_LINES }
    requires many { 3 < length operands.now }
    ensures { result ≡ form_line (known_at scenario.now body.now) (form_of form) operands.now }
{
    match operands {
        [a, b, c, d] => read_four(
            scenario,
            body,
            form,
            a.as_slice(),
            b.as_slice(),
            c.as_slice(),
            d.as_slice(),
        ),
        [a, b, c, d, e] => read_five(
            scenario,
            body,
            form,
            a.as_slice(),
            b.as_slice(),
            c.as_slice(),
            d.as_slice(),
            e.as_slice(),
        ),
        [a, b, c, d, e, f, g] => read_seven(
            scenario,
            body,
            form,
            a.as_slice(),
            b.as_slice(),
            c.as_slice(),
            d.as_slice(),
            e.as_slice(),
            f.as_slice(),
            g.as_slice(),
        ),
        _ => Err(ScenarioWhy::Word),
    }
}

/// What a line of the form of this one with one operand stands for.
#[tactic(auto, unfolding(rk_model::specs::Text::Reading::form_line, rk_model::specs::Text::Reading::operand_of))]
fn read_one(scenario: &Scenario, body: &Body, form: Op, a: &[u8]) -> Result<Op, ScenarioWhy>
    requires clusters { length scenario.now.clusters ≤ MOST_CLUSTERS }
    requires bodies { length scenario.now.bodies ≤ 255 }
    requires lines { length body.now.lines ≤ MOST_LINES }
    ensures { result ≡ form_line (known_at scenario.now body.now) (form_of form) (a.now ∷ []) }
{
    match form {
        Op::Work(_) => Ok(Op::Work(number_operand(1, MOST_TICKS, a)?)),
        Op::Goto(_) => Ok(Op::Goto(goto_operand(body.lines.as_slice(), a)?)),
        Op::TaskSuspend(_) => Ok(Op::TaskSuspend(id_operand(a)?)),
        Op::TaskResume(_) => Ok(Op::TaskResume(id_operand(a)?)),
        Op::TaskDelete(_) => Ok(Op::TaskDelete(id_operand(a)?)),
        Op::TaskWakeAfter(_) => Ok(Op::TaskWakeAfter(any_operand(a)?)),
        Op::SemRelease(_) => Ok(Op::SemRelease(id_operand(a)?)),
        Op::SemFlush(_) => Ok(Op::SemFlush(id_operand(a)?)),
        Op::SemDelete(_) => Ok(Op::SemDelete(id_operand(a)?)),
        Op::BarrierDelete(_) => Ok(Op::BarrierDelete(id_operand(a)?)),
        Op::PartDelete(_) => Ok(Op::PartDelete(id_operand(a)?)),
        Op::PeriodCancel(_) => Ok(Op::PeriodCancel(id_operand(a)?)),
        Op::PeriodDelete(_) => Ok(Op::PeriodDelete(id_operand(a)?)),
        _ => Err(ScenarioWhy::Word),
    }
}

/// What a line of the form of this one with two operands stands for.
#[tactic(auto, unfolding(rk_model::specs::Text::Reading::form_line, rk_model::specs::Text::Reading::operand_of))]
fn read_two(
    scenario: &Scenario,
    body: &Body,
    form: Op,
    a: &[u8],
    b: &[u8],
) -> Result<Op, ScenarioWhy>
    requires clusters { length scenario.now.clusters ≤ MOST_CLUSTERS }
    requires bodies { length scenario.now.bodies ≤ 255 }
    requires lines { length body.now.lines ≤ MOST_LINES }
    ensures { result ≡ form_line (known_at scenario.now body.now) (form_of form) (a.now ∷ b.now ∷ []) }
{
    match form {
        Op::TaskIdent(_, _) => Ok(Op::TaskIdent(name_operand(a)?, var_operand(b)?)),
        Op::TaskStart(_, _) => Ok(Op::TaskStart(id_operand(a)?, start_operand(scenario, body, b)?)),
        Op::EventSend(_, _) => Ok(Op::EventSend(id_operand(a)?, any_operand(b)?)),
        Op::SemIdent(_, _) => Ok(Op::SemIdent(name_operand(a)?, var_operand(b)?)),
        Op::SemObtain(_, _) => Ok(Op::SemObtain(id_operand(a)?, wish_operand(b)?)),
        Op::BarrierIdent(_, _) => Ok(Op::BarrierIdent(name_operand(a)?, var_operand(b)?)),
        Op::BarrierWait(_, _) => Ok(Op::BarrierWait(id_operand(a)?, any_operand(b)?)),
        Op::BarrierRelease(_, _) => Ok(Op::BarrierRelease(id_operand(a)?, var_operand(b)?)),
        Op::PartIdent(_, _) => Ok(Op::PartIdent(name_operand(a)?, var_operand(b)?)),
        Op::PartGet(_, _) => Ok(Op::PartGet(id_operand(a)?, var_operand(b)?)),
        Op::PartReturn(_, _) => Ok(Op::PartReturn(id_operand(a)?, address_operand(b)?)),
        Op::PeriodCreate(_, _) => Ok(Op::PeriodCreate(name0_operand(a)?, var_operand(b)?)),
        Op::PeriodIdent(_, _) => Ok(Op::PeriodIdent(name_operand(a)?, var_operand(b)?)),
        Op::PeriodPeriod(_, _) => Ok(Op::PeriodPeriod(id_operand(a)?, any_operand(b)?)),
        _ => Err(ScenarioWhy::Word),
    }
}

/// What a line of the form of this one with three operands stands for.
#[tactic(auto, unfolding(rk_model::specs::Text::Reading::form_line, rk_model::specs::Text::Reading::operand_of))]
fn read_three(
    scenario: &Scenario,
    body: &Body,
    form: Op,
    a: &[u8],
    b: &[u8],
    c: &[u8],
) -> Result<Op, ScenarioWhy>
    requires clusters { length scenario.now.clusters ≤ MOST_CLUSTERS }
    requires bodies { length scenario.now.bodies ≤ 255 }
    requires lines { length body.now.lines ≤ MOST_LINES }
    ensures { result ≡ form_line (known_at scenario.now body.now) (form_of form) (a.now ∷ b.now ∷ c.now ∷ []) }
{
    match form {
        Op::TaskCreate(_, _, _) => Ok(Op::TaskCreate(
            name0_operand(a)?,
            any_operand(b)?,
            var_operand(c)?,
        )),
        Op::TaskSetPriority(_, _, _) => Ok(Op::TaskSetPriority(
            id_operand(a)?,
            any_operand(b)?,
            var_operand(c)?,
        )),
        Op::TaskGetPriority(_, _, _) => Ok(Op::TaskGetPriority(
            id_operand(a)?,
            cluster_operand(scenario.clusters.len(), b)?,
            var_operand(c)?,
        )),
        _ => Err(ScenarioWhy::Word),
    }
}

/// What a line of the form of this one with four operands stands for.
#[tactic(auto, unfolding(rk_model::specs::Text::Reading::form_line, rk_model::specs::Text::Reading::operand_of))]
fn read_four(
    scenario: &Scenario,
    body: &Body,
    form: Op,
    a: &[u8],
    b: &[u8],
    c: &[u8],
    d: &[u8],
) -> Result<Op, ScenarioWhy>
    requires clusters { length scenario.now.clusters ≤ MOST_CLUSTERS }
    requires bodies { length scenario.now.bodies ≤ 255 }
    requires lines { length body.now.lines ≤ MOST_LINES }
    ensures { result ≡ form_line (known_at scenario.now body.now) (form_of form) (a.now ∷ b.now ∷ c.now ∷ d.now ∷ []) }
{
    match form {
        Op::EventReceive(_, _, _, _) => Ok(Op::EventReceive(
            any_operand(a)?,
            mode_operand(b)?,
            wish_operand(c)?,
            var_operand(d)?,
        )),
        Op::SemSetPriority(_, _, _, _) => Ok(Op::SemSetPriority(
            id_operand(a)?,
            cluster_operand(scenario.clusters.len(), b)?,
            any_operand(c)?,
            var_operand(d)?,
        )),
        Op::BarrierCreate(_, _, _, _) => Ok(Op::BarrierCreate(
            name0_operand(a)?,
            kind_operand(b)?,
            any_operand(c)?,
            var_operand(d)?,
        )),
        _ => Err(ScenarioWhy::Word),
    }
}

/// What a line of the form of this one with five operands stands for.
#[tactic(auto, unfolding(rk_model::specs::Text::Reading::form_line, rk_model::specs::Text::Reading::operand_of))]
fn read_five(
    scenario: &Scenario,
    body: &Body,
    form: Op,
    a: &[u8],
    b: &[u8],
    c: &[u8],
    d: &[u8],
    e: &[u8],
) -> Result<Op, ScenarioWhy>
    requires clusters { length scenario.now.clusters ≤ MOST_CLUSTERS }
    requires bodies { length scenario.now.bodies ≤ 255 }
    requires lines { length body.now.lines ≤ MOST_LINES }
    ensures { result ≡ form_line (known_at scenario.now body.now) (form_of form) (a.now ∷ b.now ∷ c.now ∷ d.now ∷ e.now ∷ []) }
{
    match form {
        Op::PartCreate(_, _, _, _, _) => Ok(Op::PartCreate(
            name0_operand(a)?,
            any_operand(b)?,
            any_operand(c)?,
            any_operand(d)?,
            var_operand(e)?,
        )),
        _ => Err(ScenarioWhy::Word),
    }
}

/// What a line of the form of this one with seven operands stands for.
#[tactic(auto, unfolding(rk_model::specs::Text::Reading::form_line, rk_model::specs::Text::Reading::operand_of))]
fn read_seven(
    scenario: &Scenario,
    body: &Body,
    form: Op,
    a: &[u8],
    b: &[u8],
    c: &[u8],
    d: &[u8],
    e: &[u8],
    f: &[u8],
    g: &[u8],
) -> Result<Op, ScenarioWhy>
    requires clusters { length scenario.now.clusters ≤ MOST_CLUSTERS }
    requires bodies { length scenario.now.bodies ≤ 255 }
    requires lines { length body.now.lines ≤ MOST_LINES }
    ensures { result ≡ form_line (known_at scenario.now body.now) (form_of form) (a.now ∷ b.now ∷ c.now ∷ d.now ∷ e.now ∷ f.now ∷ g.now ∷ []) }
{
    match form {
        Op::SemCreate(_, _, _, _, _, _, _) => Ok(Op::SemCreate(
            name0_operand(a)?,
            any_operand(b)?,
            semaphore_kind_operand(c)?,
            order_operand(d)?,
            protocol_operand(e)?,
            any_operand(f)?,
            var_operand(g)?,
        )),
        _ => Err(ScenarioWhy::Word),
    }
}
