// What every call refuses first, once for all ten, by its test of the record; and how a call ends that refuses or
// returns the slot in hand.
#![tactic(auto)]

mod ends;

ghost use Rattle.std.specs.Prelude.{true, ◌≡◌};
ghost use Rattle.layout.specs.Opening.{admissible};
ghost use Rattle.gate.specs.Gate.{block_test, idle_test, held_test, block_gate, idle_gate, held_gate};

pub use ends::{put_back, refused, with_hand};
use error::Error;
use layout::Setup;
use ring::Hand;
use stream::Stream;

// Internal: refusal 8, by the caller's test of the record; then 6, where a block is lent.
#[inline(always)]
pub fn block_test(is_sound: bool, setup: Setup, lent: Option<usize>) -> Result<(), Error>
    requires { is_sound ≡ true → admissible setup ≡ true }
    ensures { result ≡ block_test is_sound setup lent }
{
    if !is_sound {
        return Err(Error::Unsound);
    }
    let Some(len) = lent else {
        return Ok(());
    };
    if len != setup.layout_of().total_bytes {
        return Err(Error::BlockLength);
    }
    Ok(())
}

// Internal: refusals 8 and 6; then 9, for a hand that isn't Idle.
#[inline(always)]
pub fn idle_test(is_sound: bool, setup: Setup, hand: Hand, lent: Option<usize>) -> Result<(), Error>
    requires { is_sound ≡ true → admissible setup ≡ true }
    ensures { result ≡ idle_test is_sound setup hand lent }
{
    block_test(is_sound, setup, lent)?;
    match hand {
        Hand::Idle => Ok(()),
        Hand::Held(_) | Hand::Sending(_) | Hand::Silent(_, _) => Err(Error::WrongHand),
    }
}

// Internal: refusals 8 and 6; then 9, for a hand that isn't Held, or its slot.
#[inline(always)]
pub fn held_test(
    is_sound: bool,
    setup: Setup,
    hand: Hand,
    lent: Option<usize>,
) -> Result<usize, Error>
    requires { is_sound ≡ true → admissible setup ≡ true }
    ensures { result ≡ held_test is_sound setup hand lent }
{
    block_test(is_sound, setup, lent)?;
    match hand {
        Hand::Held(i) => Ok(i),
        Hand::Idle | Hand::Sending(_) | Hand::Silent(_, _) => Err(Error::WrongHand),
    }
}

// Refusal 8; then 6, where a block is lent.
#[inline(always)]
pub fn block_gate(s: &Stream, lent: Option<usize>) -> Result<(), Error>
    ensures { result ≡ block_gate s.now lent }
{
    block_test(s.sound(), s.setup, lent)
}

// Refusals 8 and 6; then 9, for a hand that isn't Idle.
#[inline(always)]
pub fn idle_gate(s: &Stream, lent: Option<usize>) -> Result<(), Error>
    ensures { result ≡ idle_gate s.now lent }
{
    idle_test(s.sound(), s.setup, s.hand, lent)
}

// Refusals 8 and 6; then 9, for a hand that isn't Held, or its slot.
#[inline(always)]
pub fn held_gate(s: &Stream, lent: Option<usize>) -> Result<usize, Error>
    ensures { result ≡ held_gate s.now lent }
{
    held_test(s.sound(), s.setup, s.hand, lent)
}
