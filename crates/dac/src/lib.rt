// The 14-bit DAC: its running record, the writes to its two registers, and plays. Every record is taken, also one that no call made; a play of no clocks and a
// refused play leave it as it came, every other call leaves kept values only.
#![tactic(auto)]

ghost use Rattle.std.specs.Prelude.{◌≡◌, length};
ghost use Rattle.wave.specs.Wave.{over};
ghost use Rattle.dac.specs.Running.{kept_pair, kept, after_reset, low_written, high_written, playing, so_far, after_clocks, levels_of};
ghost use Rattle.dac.specs.Play.{answer_of, after_play, lent_after, said, number_of, place_of};
ghost use Rattle.dac.specs.Steps.{Fits};

use answer::Refusal;
use wave::{PERIOD, Pair};

// A register keeps 7 bits, so a half is below this.
const HALF: u8 = 128;

// A kept count of high clocks is below this: no pair asks for as many in a period.
const COUNTS: usize = 16384;

#[repr(C)]
#[derive(Clone, Copy)]
pub struct Dac {
    // Clocks played of the period under way.
    pub position: u16,
    // What the high and the low register keep.
    pub held: Pair,
    // The latest completed pair.
    pub completed: Pair,
    pub in_force: Pair,
    // How many clocks were high from the last first clock of a period on.
    pub high: u16,
}

// More clocks than a period has, or than bytes are lent.
#[derive(Clone, Copy)]
pub struct TooManyClocks;

impl Refusal for TooManyClocks {
    ghost number_of = { number_of };

    ghost place_of = { place_of };

    fn number(&self) -> u32 {
        14
    }

    fn place(&self) -> u32 {
        0
    }
}

impl Dac {
    // The record after a reset.
    pub fn fresh() -> Dac
        ensures { result ≡ after_reset }
    {
        let none = Pair { coarse: 0, fine: 0 };
        Dac {
            position: 0,
            held: none,
            completed: none,
            in_force: none,
            high: 0,
        }
    }

    // Holds a low half.
    pub fn write_low(&mut self, byte: u8)
        ensures { self.new ≡ low_written self.old byte }
    {
        let before = *self;
        *self = before.low_held(byte);
    }

    // Holds a high half, which makes a completed pair with the low half held then.
    pub fn write_high(&mut self, byte: u8)
        ensures { self.new ≡ high_written self.old byte }
    {
        let before = *self;
        *self = before.high_held(byte);
    }

    // Plays so many clocks: writes one byte for each, 1 where it is high and 0 where it is low, to the first bytes lent, and answers the
    // record's count of high clocks after them.
    pub fn play(&mut self, clocks: u32, levels: &mut [u8]) -> Result<u32, TooManyClocks>
        ensures { (said result ≡ answer_of self.old clocks (length levels.old)) × (self.new ≡ after_play self.old clocks (length levels.old)) × (levels.new ≡ lent_after self.old clocks levels.old) }
    {
        let count = clocks as usize;
        if PERIOD < count || levels.len() < count {
            return Err(TooManyClocks);
        }
        let after = self.run(count, levels);
        *self = after;
        Ok((after.high as usize % COUNTS) as u32)
    }

    // A play that is not refused: the clocks of the period under way, no further than it goes, and the first ones of the next.
    fn run(self, count: usize, levels: &mut [u8]) -> Dac
        requires { Fits count (length levels.old) }
        ensures { (result ≡ after_clocks count self) × (levels.new ≡ over (levels_of count self) levels.old) }
    {
        if count == 0 {
            return self;
        }
        let mut after = self.kept();
        let position = after.position as usize;
        let left = PERIOD - position;
        let pair = after.playing();
        let before = after.so_far();
        let more = wave::lay(&mut levels[..count], pair, position);
        after.position = ((position + count) % PERIOD) as u16;
        if count <= left {
            after.in_force = pair;
            after.high = ((before as usize + more) % COUNTS) as u16;
            return after;
        }
        let next = after.completed;
        let anew = wave::lay_from_start(&mut levels[left..count], next);
        after.in_force = next;
        // of fewer clocks than a period has, so it is a kept count
        after.high = anew as u16;
        after
    }

    // The steps of the writes to the two registers.
    fn low_held(self, byte: u8) -> Dac
        ensures { result ≡ low_written self byte }
    {
        let mut after = self.kept();
        after.held.fine = byte % HALF;
        after
    }

    fn high_held(self, byte: u8) -> Dac
        ensures { result ≡ high_written self byte }
    {
        let mut after = self.kept();
        after.held.coarse = byte % HALF;
        after.completed = after.held;
        after
    }

    // The record by kept values. Steps go by value, and are stored whole: in place, field by field, 500 pairs took 1.8 times as long to write.
    fn kept(self) -> Dac
        ensures { result ≡ kept self }
    {
        Dac {
            position: (self.position as usize % PERIOD) as u16,
            held: kept_pair(self.held),
            completed: kept_pair(self.completed),
            in_force: kept_pair(self.in_force),
            high: (self.high as usize % COUNTS) as u16,
        }
    }

    // The pair by which the next clock of a kept record is played.
    #[tactic(auto, unfolding(crate::specs::Running::playing))]
    fn playing(self) -> Pair
        ensures { result ≡ playing self }
    {
        if self.position == 0 {
            self.completed
        } else {
            self.in_force
        }
    }

    // The count to which the next clock of a kept record adds its level: a first clock starts it anew.
    #[tactic(auto, unfolding(crate::specs::Running::so_far))]
    fn so_far(self) -> u16
        ensures { result ≡ so_far self }
    {
        if 0 < self.position { self.high } else { 0 }
    }
}

fn kept_pair(pair: Pair) -> Pair
    ensures { result ≡ kept_pair pair }
{
    Pair {
        coarse: pair.coarse % HALF,
        fine: pair.fine % HALF,
    }
}
