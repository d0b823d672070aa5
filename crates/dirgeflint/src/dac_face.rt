// The 14-bit DAC. The host has the one running record and lends it to every call, which updates it there.
ghost use Rattle.std.specs.Prelude.{◌≡◌, length};
ghost use Rattle.dac.specs.Running.{after_reset, low_written, high_written};
ghost use Rattle.dac.specs.Play.{answer_of, after_play, lent_after};
ghost use Rattle.answer.specs.Told.{told};

use answer::Answer;
use dac::Dac;

#[unsafe(no_mangle)]
pub extern "C" fn dirgeflint_dac_reset(running: &mut Dac)
    ensures { running.new ≡ after_reset }
{
    *running = Dac::fresh();
}

#[unsafe(no_mangle)]
pub extern "C" fn dirgeflint_dac_write_low(running: &mut Dac, byte: u8)
    ensures { running.new ≡ low_written running.old byte }
{
    running.write_low(byte);
}

#[unsafe(no_mangle)]
pub extern "C" fn dirgeflint_dac_write_high(running: &mut Dac, byte: u8)
    ensures { running.new ≡ high_written running.old byte }
{
    running.write_high(byte);
}

// Plays so many clocks, one byte for each, into the first bytes lent: the record's count of high clocks as value, or number 14.
#[unsafe(no_mangle)]
pub extern "C" fn dirgeflint_dac_play(running: &mut Dac, clocks: u32, levels: &mut [u8]) -> Answer
    ensures { (told result ≡ answer_of running.old clocks (length levels.old)) × (running.new ≡ after_play running.old clocks (length levels.old)) × (levels.new ≡ lent_after running.old clocks levels.old) }
{
    Answer::from(running.play(clocks, levels))
}
