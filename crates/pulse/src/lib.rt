// The eight small pulse outputs: the level of a channel at one clock of its period.
#![tactic(auto)]

ghost use Rattle.std.specs.Prelude.{◌≡◌};
ghost use Rattle.pulse.specs.Pulse.{answer_of, said, value_of, number_of, place_of, period_of};

use answer::{Refusal, Value};

#[derive(Clone, Copy)]
pub enum Level {
    Low,
    High,
}

impl Value for Level {
    ghost value_of = { value_of };

    fn value(self) -> u32 {
        match self {
            Level::Low => 0,
            Level::High => 1,
        }
    }
}

// The channel is above 7, or t is not inside its period.
#[derive(Clone, Copy)]
pub struct NoSuchClock;

impl Refusal for NoSuchClock {
    ghost number_of = { number_of };

    ghost place_of = { place_of };

    fn number(&self) -> u32 {
        15
    }

    fn place(&self) -> u32 {
        0
    }
}

// The level of a channel at clock t of its period, after byte was written to it.
#[tactic(auto, using(crate::proofs::Bits::kept_by_period), unfolding(crate::specs::Pulse::answer_of))]
pub fn level_at(channel: u32, byte: u8, t: u32) -> Result<Level, NoSuchClock>
    ensures { said result ≡ answer_of channel byte t }
{
    let period = period(channel);
    if channel > 7 || t >= period {
        return Err(NoSuchClock);
    }
    // a channel keeps the bits of the byte that count within its period
    let kept = byte as u32 % period;
    if t < kept {
        Ok(Level::High)
    } else {
        Ok(Level::Low)
    }
}

#[tactic(auto, unfolding(crate::specs::Pulse::period_of))]
fn period(channel: u32) -> u32
    ensures { result ≡ period_of channel }
{
    if channel <= 3 { 128 } else { 64 }
}
