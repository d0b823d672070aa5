// The levels that a pair gives over a period of the DAC. A period is 128 sub-periods of 128 clocks, and each sub-period is high first and then low.
#![tactic(auto)]

ghost use Rattle.std.specs.Prelude.{◌≡◌, ◌+◌, ◌-◌, ◌%◌, ◌<◌, ◌≤◌, min, length};
ghost use Rattle.laws.specs.Sums.{sum_all};
ghost use Rattle.wave.specs.Wave.{period, sub_period, sub_periods, added as added_of, wave_in, laid};
ghost use Rattle.wave.specs.Steps.{high_in, pulse, Lays};

// In clocks.
pub const PERIOD: usize = 16384;

const SUB_PERIOD: usize = 128;

// The compiler lays levels by eights.
const EIGHT: usize = 8;

// From so many clocks on it pays to make both kinds of sub-periods ready before any is laid.
const LONG: usize = 1024;

// The halves, of 7 bits each, as the DAC keeps them. Of larger ones, a coarse half makes every clock high, and bit 7 of a fine half counts for nothing.
#[repr(C)]
#[derive(Clone, Copy)]
pub struct Pair {
    pub coarse: u8,
    pub fine: u8,
}

// Lays the levels that a pair gives from a position on over the bytes lent, 1 for high and 0 for low, as far as the bytes and the period reach, and answers
// how many are high. Calls that stay within a sub-period, as most of few clocks do, are looked for first, and among them those for a whole one.
pub fn lay(levels: &mut [u8], pair: Pair, from: usize) -> usize
    ensures { (result ≡ sum_all (wave_in pair from (length levels.old))) × (levels.new ≡ laid pair from levels.old) }
{
    if PERIOD <= from {
        return 0usize;
    }
    let left = SUB_PERIOD - from % SUB_PERIOD;
    if levels.len() <= left {
        if levels.len() == SUB_PERIOD {
            return pair.whole(levels, from / SUB_PERIOD, false);
        }
        return pair.lay_within(levels, from);
    }
    let n = levels.len().min(PERIOD - from);
    pair.lay_across(&mut levels[..n], from)
}

// The same from the period's first clock on, where none of the tests is needed.
pub fn lay_from_start(levels: &mut [u8], pair: Pair) -> usize
    ensures { (result ≡ sum_all (wave_in pair 0 (length levels.old))) × (levels.new ≡ laid pair 0 levels.old) }
{
    let n = levels.len().min(PERIOD);
    pair.lay_on(&mut levels[..n], 0)
}

impl Pair {
    // The levels from any clock on, up to the end of its sub-period or further: those that are left of a sub-period under way, and then the others.
    fn lay_across(self, levels: &mut [u8], from: usize) -> usize
        requires { (from + length levels.old ≤ period) × (sub_period ≤ from % sub_period + length levels.old) }
        ensures { Lays self from (length levels.old) result levels.new }
    {
        let begun = from % SUB_PERIOD;
        if begun == 0 {
            return self.lay_on(levels, from);
        }
        let head = SUB_PERIOD - begun;
        let first = self.lay_within(&mut levels[..head], from);
        let others = self.lay_on(&mut levels[head..], from + head);
        first + others
    }

    // The levels from the first clock of a sub-period on: whole sub-periods, and what is left.
    fn lay_on(self, levels: &mut [u8], from: usize) -> usize
        requires { (from + length levels.old ≤ period) × (from % sub_period ≡ 0) }
        ensures { Lays self from (length levels.old) result levels.new }
    {
        let past = (from + levels.len()) / SUB_PERIOD;
        let long = LONG <= levels.len();
        let mut high = 0;
        for n in from / SUB_PERIOD..past {
            let i = SUB_PERIOD * n - from;
            high += self.whole(&mut levels[i..i + SUB_PERIOD], n, long);
        }
        let done = SUB_PERIOD * past - from;
        if levels.len() <= done {
            return high;
        }
        let rest = self.lay_within(&mut levels[done..], from + done);
        high + rest
    }

    // The levels of the whole of sub-period n, in one of two ways, by a flag: two closures would each carry this promise, and the loop above a clause on `F.post`.
    // A long call has the levels of both kinds ready before the loop, as they are the same in every turn, and each turn picks one. A short one has only those of
    // the coarse half ready, and stores the clock that is added over them.
    fn whole(self, levels: &mut [u8], n: usize, long: bool) -> usize
        requires { (n < sub_periods) × (length levels.old ≡ sub_period) }
        ensures { (result ≡ high_in self n) × (levels.new ≡ pulse 0 (high_in self n) (length levels.old)) }
    {
        let more = added(self.fine, n);
        if long {
            if more == 0 {
                return self.of_kind(levels, 0);
            }
            return self.of_kind(levels, 1);
        }
        let coarse = self.of_kind(levels, 0);
        if SUB_PERIOD <= coarse {
            return coarse;
        }
        levels[coarse] = more;
        self.high_with(more)
    }

    // The levels of a whole sub-period of one of the two kinds: no clock is added to it, or one. They are one run: by `many`, which makes two, a period in one
    // call would take three times as long.
    fn of_kind(self, levels: &mut [u8], more: u8) -> usize
        requires { length levels.old ≡ sub_period }
        ensures { (result ≡ min (self.coarse + more) sub_period) × (levels.new ≡ pulse 0 result (length levels.old)) }
    {
        let high = self.high_with(more);
        count_down(levels, high as u8 + 127, 0);
        high
    }

    // The levels of clocks within one sub-period.
    fn lay_within(self, levels: &mut [u8], from: usize) -> usize
        requires { (from < period) × (from % sub_period + length levels.old ≤ sub_period) }
        ensures { Lays self from (length levels.old) result levels.new }
    {
        let clock = from % SUB_PERIOD;
        let more = added(self.fine, from / SUB_PERIOD);
        let high = self.high_with(more);
        let left = high as u8 + 127 - clock as u8;
        many(levels, left);
        high.saturating_sub(clock).min(levels.len())
    }

    // How many clocks of a sub-period are high to which so many are added, one or none: no more than it has. A number, as it is counted and laid as such.
    fn high_with(self, more: u8) -> usize
        ensures { result ≡ min (self.coarse + more) sub_period }
    {
        (self.coarse as usize + more as usize).min(SUB_PERIOD)
    }
}

// Levels by what is left, in two runs: first those, up to seven, that are over when the others are taken by eights. So the compiler knows of the first run that it
// is short, and of the second that it goes by eights.
fn many(levels: &mut [u8], left: u8)
    requires { length levels.old ≤ left + 1 }
    ensures { levels.new ≡ pulse 127 left (length levels.old) }
{
    let few = levels.len() % EIGHT;
    count_down(&mut levels[..few], left, 0);
    count_down(&mut levels[few..], left, few as u8);
}

// A run of these levels, behind so many others. What is left is one less with each, and a level is high while it is 128 or more: so the compiler lays many at a
// time, whatever it knows of the first.
fn count_down(levels: &mut [u8], left: u8, before: u8)
    requires { before + length levels.old ≤ left + 1 }
    ensures { levels.new ≡ pulse (127 + before) left (length levels.old) }
{
    for (i, level) in levels.iter_mut().enumerate() {
        *level = (left - (before + i as u8)) / 128;
    }
}

// The clock, 1 or 0, that a fine half adds to sub-period n. The number n has seven bits; if it ends in exactly z zero bits, z from 0 to 6, the clock is fine
// bit 6 - z: bit 6 for the odd numbers, and so on down to bit 0 for 64. Bit b so serves 2 ^ b sub-periods, as many as it is worth. Why bit 1 serves sub-period
// 96: in binary 96 is 1100000, it ends in five zero bits, and 6 - 5 is 1. Sub-period 0 has no bit set at which its zeros would end, and no fine bit serves it.
// A number and no bool: it is counted, and laid as a level.
fn added(fine: u8, n: usize) -> u8
    requires { n < sub_periods }
    ensures { result ≡ added_of fine n }
{
    if n == 0 {
        return 0;
    }
    let bit = 6 - usize::trailing_zeros(n);
    (fine >> bit) % 2
}
