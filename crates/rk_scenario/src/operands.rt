ghost use Rattle.std.specs.Prelude.{◌≡◌, ◌<◌, ◌≤◌, ◌+◌, ◌*◌, ◌^◌, length, min, slice_get, codes, IfSome, IfOk, None, Err};
ghost use Rattle.std.specs.Option.{option_map};
ghost use Rattle.rk_model.specs.declared.limits.TheConstants.{MOST_LINES};
ghost use Rattle.rk_model.specs.Text.Words.{digit_value, digit_below, value_from, decimal_of, number_of, name_of, var_of, is_name_byte};
ghost use Rattle.rk_model.specs.Text.Scenarios.{body_of, body_known, body_from, is_named, may_be_target, is_target};
ghost use Rattle.rk_model.specs.Text.Reading.{body_told, known_at, number_operand, cluster_operand, var_operand, given_operand, fixed_operand, id_operand, address_operand, goto_operand, name_operand, name0_operand, body_operand, start_operand, either_operand, wish_operand, semaphore_kind_operand, order_operand, protocol_operand};

use rk_model::words::is_body_name;
use rk_model::{Body, Name, Op, Order, Protocol, Scenario, ScenarioWhy, SemKind, Target, Wish};

/// Greater than every number that a line may have. Numbers of any length are read, and greater
/// ones are given as this.
const BEYOND: u64 = 4_294_967_296;

/// The number that a word spells, or `BEYOND` where it is greater.
#[tactic(auto, unfolding(rk_model::specs::Text::Words::number_of))]
fn number(word: &[u8]) -> Option<u64>
    ensures { result ≡ option_map (min 4294967296) (number_of word.now) }
{
    match word {
        [b'0', b'x', digits @ ..] if digits.len() == 8 => value(16, digits),
        _ => decimal(word),
    }
}

/// The number that a word spells in decimal digits, or `BEYOND` where it is greater.
#[tactic(auto, unfolding(rk_model::specs::Text::Words::decimal_of))]
fn decimal(word: &[u8]) -> Option<u64>
    ensures { result ≡ option_map (min 4294967296) (decimal_of word.now) }
{
    match word {
        [] => None,
        [b'0', _, ..] => None,
        _ => value(10, word),
    }
}

/// The value of digits, or `BEYOND` where it is greater.
fn value(base: u64, digits: &[u8]) -> Option<u64>
    requires low { 1 ≤ base }
    requires high { base ≤ 16 }
    ensures { result ≡ option_map (min 4294967296) (value_from base 0 digits.now) }
{
    let mut value: u64 = 0;
    for byte in digits {
        match digit(base, *byte) {
            None => return None,
            Some(digit) => value = (base * value + digit).min(BEYOND),
        }
    }
    Some(value)
}

/// The value of a digit of a base.
fn digit(base: u64, byte: u8) -> Option<u64>
    ensures value { result ≡ digit_below base (digit_value byte) }
    ensures small { IfSome result (λ d. d < base) }
{
    let digit = match byte {
        b'0'..=b'9' => u64::from(byte - b'0'),
        b'a'..=b'f' => u64::from(byte - 87),
        _ => return None,
    };
    if digit < base { Some(digit) } else { None }
}

/// The number that a word spells, where it is from `least` to `most`.
#[tactic(auto, unfolding(rk_model::specs::Text::Reading::number_operand))]
pub(crate) fn number_operand(least: u32, most: u32, word: &[u8]) -> Result<u32, ScenarioWhy>
    ensures value { result ≡ number_operand least most word.now }
    ensures low { IfOk result (λ n. least ≤ n) }
    ensures high { IfOk result (λ n. n ≤ most) }
{
    match number(word) {
        Some(number) if u64::from(least) <= number && number <= u64::from(most) => {
            Ok(number as u32)
        }
        Some(_) => Err(ScenarioWhy::Range),
        None => Err(ScenarioWhy::Number),
    }
}

/// Any number of 32 bits that a word spells.
pub(crate) fn any_operand(word: &[u8]) -> Result<u32, ScenarioWhy>
    ensures { result ≡ number_operand 0 4294967295 word.now }
{
    number_operand(0, u32::MAX, word)
}

/// The number of a cluster, of which there are `count`.
#[tactic(auto, unfolding(rk_model::specs::Text::Reading::cluster_operand))]
pub(crate) fn cluster_operand(count: usize, word: &[u8]) -> Result<u8, ScenarioWhy>
    requires { count ≤ 256 }
    ensures { result ≡ cluster_operand count word.now }
{
    match number(word) {
        Some(number) if number < count as u64 => Ok(number as u8),
        Some(_) => Err(ScenarioWhy::Range),
        None => Err(ScenarioWhy::Number),
    }
}

/// The number of the variable that a word spells: `v0` to `v7`.
#[tactic(auto, unfolding(rk_model::specs::Text::Words::var_of))]
fn variable(word: &[u8]) -> Option<u8>
    ensures { result ≡ var_of word.now }
{
    match word {
        [b'v', digit @ b'0'..=b'7'] => Some(*digit - b'0'),
        _ => None,
    }
}

/// The number of the variable that a word spells.
#[tactic(auto, unfolding(rk_model::specs::Text::Reading::var_operand))]
pub(crate) fn var_operand(word: &[u8]) -> Result<u8, ScenarioWhy>
    ensures { result ≡ var_operand word.now }
{
    match variable(word) {
        Some(var) => Ok(var),
        None => Err(ScenarioWhy::Word),
    }
}

/// An ID: a variable, `self`, or a number of 32 bits.
#[tactic(auto, unfolding(rk_model::specs::Text::Reading::id_operand))]
pub(crate) fn id_operand(word: &[u8]) -> Result<Target, ScenarioWhy>
    ensures { result ≡ id_operand word.now }
{
    match variable(word) {
        Some(var) => Ok(Target::Var(var)),
        None => fixed_operand(word),
    }
}

/// An ID that is no variable: `self`, or a number of 32 bits.
#[tactic(auto, unfolding(rk_model::specs::Text::Reading::fixed_operand))]
fn fixed_operand(word: &[u8]) -> Result<Target, ScenarioWhy>
    ensures { result ≡ fixed_operand word.now }
{
    if word == b"self".as_slice() {
        Ok(Target::Own)
    } else {
        given_operand(word)
    }
}

/// An ID or an address that is a number of 32 bits.
fn given_operand(word: &[u8]) -> Result<Target, ScenarioWhy>
    ensures { result ≡ given_operand word.now }
{
    let bits = any_operand(word)?;
    Ok(Target::Given(bits))
}

/// An ADDRESS: a variable, or a number of 32 bits.
#[tactic(auto, unfolding(rk_model::specs::Text::Reading::address_operand))]
pub(crate) fn address_operand(word: &[u8]) -> Result<Target, ScenarioWhy>
    ensures { result ≡ address_operand word.now }
{
    match variable(word) {
        Some(var) => Ok(Target::Var(var)),
        None => given_operand(word),
    }
}

/// The second of two words, as true, or the first.
#[tactic(auto, unfolding(rk_model::specs::Text::Reading::either_operand))]
fn either_operand(first: &[u8], second: &[u8], word: &[u8]) -> Result<bool, ScenarioWhy>
    ensures { result ≡ either_operand first.now second.now word.now }
{
    if word == second {
        Ok(true)
    } else if word == first {
        Ok(false)
    } else {
        Err(ScenarioWhy::Word)
    }
}

/// Which events of a set: `all`, as true, or `any`.
pub(crate) fn mode_operand(word: &[u8]) -> Result<bool, ScenarioWhy>
    ensures { result ≡ either_operand (codes "any") (codes "all") word.now }
{
    either_operand(b"any".as_slice(), b"all".as_slice(), word)
}

/// Which kind of barrier: `auto`, as true, or `manual`.
pub(crate) fn kind_operand(word: &[u8]) -> Result<bool, ScenarioWhy>
    ensures { result ≡ either_operand (codes "manual") (codes "auto") word.now }
{
    either_operand(b"manual".as_slice(), b"auto".as_slice(), word)
}

/// A WISH: `nowait`, or a number of ticks.
#[tactic(auto, unfolding(rk_model::specs::Text::Reading::wish_operand))]
pub(crate) fn wish_operand(word: &[u8]) -> Result<Wish, ScenarioWhy>
    ensures { result ≡ wish_operand word.now }
{
    if word == b"nowait".as_slice() {
        Ok(Wish::NoWait)
    } else {
        let ticks = any_operand(word)?;
        Ok(Wish::Limit(ticks))
    }
}

/// The kind of a semaphore: `counting`, `simple` or `binary`.
#[tactic(auto, unfolding(rk_model::specs::Text::Reading::semaphore_kind_operand))]
pub(crate) fn semaphore_kind_operand(word: &[u8]) -> Result<SemKind, ScenarioWhy>
    ensures { result ≡ semaphore_kind_operand word.now }
{
    if word == b"counting".as_slice() {
        Ok(SemKind::Counting)
    } else if word == b"simple".as_slice() {
        Ok(SemKind::Simple)
    } else if word == b"binary".as_slice() {
        Ok(SemKind::Binary)
    } else {
        Err(ScenarioWhy::Word)
    }
}

/// The order in which a semaphore's queue serves: `fifo` or `priority`.
#[tactic(auto, unfolding(rk_model::specs::Text::Reading::order_operand))]
pub(crate) fn order_operand(word: &[u8]) -> Result<Order, ScenarioWhy>
    ensures { result ≡ order_operand word.now }
{
    if word == b"fifo".as_slice() {
        Ok(Order::Fifo)
    } else if word == b"priority".as_slice() {
        Ok(Order::Priority)
    } else {
        Err(ScenarioWhy::Word)
    }
}

/// The protocol of a semaphore: `none`, `inherit` or `ceiling`. `mrsp` isn't built yet.
#[tactic(auto, unfolding(rk_model::specs::Text::Reading::protocol_operand))]
pub(crate) fn protocol_operand(word: &[u8]) -> Result<Protocol, ScenarioWhy>
    ensures { result ≡ protocol_operand word.now }
{
    if word == b"none".as_slice() {
        Ok(Protocol::NoProtocol)
    } else if word == b"inherit".as_slice() {
        Ok(Protocol::Inherit)
    } else if word == b"ceiling".as_slice() {
        Ok(Protocol::Ceiling)
    } else {
        Err(ScenarioWhy::Word)
    }
}

/// Whether a goto may lead to what stands at a line.
fn may_be_target(op: Option<Op>) -> bool
    ensures { result ≡ may_be_target op }
{
    match op {
        None => false,
        Some(Op::Goto(_)) => false,
        Some(_) => true,
    }
}

/// The line of an index among earlier ones.
fn line_at(earlier: &[Op], index: usize) -> Option<Op>
    ensures { result ≡ slice_get earlier.now index }
{
    earlier.get(index).copied()
}

/// Whether a number is that, from 1, of one of these earlier lines that isn't a goto.
fn is_target(earlier: &[Op], number: u64) -> bool
    ensures { result ≡ is_target earlier.now number }
{
    if number == 0 {
        false
    } else {
        may_be_target(line_at(earlier, number as usize - 1))
    }
}

/// The number that a word spells of one of these earlier lines that isn't a goto.
#[tactic(auto, unfolding(rk_model::specs::Text::Reading::goto_operand))]
pub(crate) fn goto_operand(earlier: &[Op], word: &[u8]) -> Result<u32, ScenarioWhy>
    requires { length earlier.now ≤ MOST_LINES }
    ensures { result ≡ goto_operand earlier.now word.now }
{
    match number(word) {
        Some(number) if is_target(earlier, number) => Ok(number as u32),
        Some(_) => Err(ScenarioWhy::Range),
        None => Err(ScenarioWhy::Number),
    }
}

/// Whether a byte may stand in a name of an object.
fn is_name_byte(byte: u8) -> bool
    ensures { result ≡ is_name_byte byte }
{
    matches!(byte, b'a'..=b'z' | b'A'..=b'Z' | b'0'..=b'9' | b'_')
}

/// The name of an object that a word spells.
#[tactic(auto, unfolding(rk_model::specs::Text::Words::name_of, rk_model::specs::Text::Reading::name_operand))]
pub(crate) fn name_operand(word: &[u8]) -> Result<Name, ScenarioWhy>
    ensures { result ≡ name_operand word.now }
{
    match word {
        [a, b, c, d]
            if is_name_byte(*a) && is_name_byte(*b) && is_name_byte(*c) && is_name_byte(*d) => {
            let high = u32::from(*a) * 256 + u32::from(*b);
            Ok(Name {
                bits: (high * 256 + u32::from(*c)) * 256 + u32::from(*d),
            })
        }
        _ => Err(ScenarioWhy::Word),
    }
}

/// The name of an object that a word spells, where `-` is the name 0.
#[tactic(auto, unfolding(rk_model::specs::Text::Words::name0_of, rk_model::specs::Text::Reading::name0_operand, rk_model::specs::Text::Reading::name_operand))]
pub(crate) fn name0_operand(word: &[u8]) -> Result<Name, ScenarioWhy>
    ensures { result ≡ name0_operand word.now }
{
    if word == b"-".as_slice() {
        Ok(Name { bits: 0 })
    } else {
        name_operand(word)
    }
}

/// The number of the body of a name.
pub(crate) fn body_number(bodies: &[Body], name: &[u8]) -> Option<usize>
    ensures value { result ≡ body_of bodies.now name.now }
    ensures within { IfSome result (λ b. b < length bodies.now) }
{
    for (at, body) in bodies.iter().enumerate() {
        if body.name.as_slice() == name {
            return Some(at);
        }
    }
    None
}

/// Why a word is no name of a body that is known.
fn no_body(word: &[u8]) -> ScenarioWhy
    ensures { Err result ≡ body_told word.now None }
{
    if is_body_name(word) {
        ScenarioWhy::UnknownName
    } else {
        ScenarioWhy::Word
    }
}

/// The number of the body whose name a word is.
#[tactic(auto, unfolding(rk_model::specs::Text::Reading::body_operand))]
pub(crate) fn body_operand(bodies: &[Body], word: &[u8]) -> Result<u8, ScenarioWhy>
    requires { length bodies.now ≤ 256 }
    ensures { result ≡ body_operand bodies.now word.now }
{
    match body_number(bodies, word) {
        Some(body) => Ok(body as u8),
        None => Err(no_body(word)),
    }
}

/// The number of the body of a name among these, and an open one behind them of the name `own`.
fn known_body(front: &[Body], own: &[u8], name: &[u8]) -> Option<usize>
    ensures value { result ≡ body_known front.now own.now name.now }
    ensures within { IfSome result (λ b. b ≤ length front.now) }
{
    match body_number(front, name) {
        Some(number) => Some(number),
        None if own == name => Some(front.len()),
        None => None,
    }
}

/// The number of the body whose name a word is, of those that a line of the open body may name: the
/// ones in front of it, and itself.
#[tactic(auto, unfolding(rk_model::specs::Text::Reading::start_operand))]
pub(crate) fn start_operand(
    scenario: &Scenario,
    body: &Body,
    word: &[u8],
) -> Result<u8, ScenarioWhy>
    requires { length scenario.now.bodies ≤ 255 }
    ensures { result ≡ start_operand (known_at scenario.now body.now) word.now }
{
    match known_body(scenario.bodies.as_slice(), body.name.as_slice(), word) {
        Some(number) => Ok(number as u8),
        None => Err(no_body(word)),
    }
}
