// The eight small outputs.
ghost use Rattle.std.specs.Prelude.{◌≡◌};
ghost use Rattle.answer.specs.Told.{told};
ghost use Rattle.pulse.specs.Pulse.{answer_of};

use answer::Answer;

// The level of a channel at clock t of its period, after byte was written to it: value 1 if high, 0 if low.
#[unsafe(no_mangle)]
pub extern "C" fn dirgeflint_pulse_level(channel: u32, byte: u8, t: u32) -> Answer
    ensures { told result ≡ answer_of channel byte t }
{
    Answer::from(pulse::level_at(channel, byte, t))
}
