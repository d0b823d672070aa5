// A cell's row of 12 bits laid over dots of a line, with the shadow that falls on it.
#![tactic(auto)]

ghost use Rattle.std.specs.Prelude.{◌≡◌, ◌+◌, ◌*◌, ◌<◌, ◌≤◌, length};
ghost use Rattle.laws.specs.Lines.{overlay};
ghost use Rattle.laws.specs.Pick.{pick};
ghost use Rattle.laws.specs.Placing.{patched};
ghost use Rattle.font.specs.Font.{cell_columns, bit_set};
ghost use Rattle.stretch.specs.Stretch.{shade_set, stretched};

use units::Dots;

// What is laid: the row's bits, those of the row above it, which throw the shadow, and whether the cell before throws its own on the first column.
#[derive(Clone, Copy)]
pub struct Row {
    pub bits: u16,
    pub above: u16,
    pub before: bool,
}

// The bytes of a set bit, of a dot in the shadow, and of any other.
#[derive(Clone, Copy)]
pub struct Ink {
    pub on: u8,
    pub shade: u8,
    pub off: u8,
}

// A column is a plain number, as `bit_set` and `shade_set` of specs/ take it: a type of columns would be taken apart in each promise.
impl Row {
    // Whether the shadow falls on column j: on the first the cell before throws it.
    fn is_shaded(self, j: usize) -> bool
        requires { j + 1 ≤ cell_columns }
        ensures { result ≡ shade_set self.above self.before j }
    {
        if j == 0 {
            self.before
        } else {
            is_set(self.above, j - 1)
        }
    }

    // Which of three column j shows: a set bit has no shadow on it.
    fn tone<T: Copy>(self, j: usize, on: T, shade: T, off: T) -> T
        requires { j + 1 ≤ cell_columns }
        ensures { result ≡ pick (bit_set self.bits j) on (pick (shade_set self.above self.before j) shade off) }
    {
        if is_set(self.bits, j) {
            on
        } else if self.is_shaded(j) {
            shade
        } else {
            off
        }
    }
}

// Dot, size, row and ink stay parameters side by side: `stretched` of specs/ takes each of the four by itself, so that every promise would take a struct of them apart again.
// The row from dot x on, each bit `size` dots wide; what lies beyond the line is cut. Of the four sizes that rows have, a cell that the line has whole is painted with its size known.
pub fn stretch(out: &mut [u8], x: Dots, size: u8, row: Row, ink: Ink)
    ensures { out.new ≡ overlay (stretched x.0 (cell_columns * size) size row ink) out.old }
{
    let from = x.0;
    if out.len() <= from {
        return;
    }
    let wide = size as usize;
    if out.len() - from < font::CELL_COLUMNS * wide {
        any_cell(out, from, wide, row, ink);
        return;
    }
    match size {
        1 => whole_cell::<1>(out, from, row, ink),
        2 => whole_cell::<2>(out, from, row, ink),
        3 => whole_cell::<3>(out, from, row, ink),
        4 => whole_cell::<4>(out, from, row, ink),
        _ => any_cell(out, from, wide, row, ink),
    }
}

// So many dots of one byte from dot x on, cut where the line ends.
pub fn strip(out: &mut [u8], x: Dots, size: u8, byte: u8)
    ensures { out.new ≡ overlay (patched x.0 size (λ d. byte)) out.old }
{
    cut_column(out, x.0, size as usize, byte);
}

// A cell that the line has whole: column by column, with no test of the line's end. The three runs of dots that a column can be are made once, four dots long at any size: four bytes
// are one number to the processor, and runs of three, tried, took twice the time.
fn whole_cell<const SIZE: usize>(out: &mut [u8], from: usize, row: Row, ink: Ink)
    requires { (SIZE ≤ 4) × (from + cell_columns * SIZE ≤ length out.old) }
    ensures { out.new ≡ overlay (stretched from (cell_columns * SIZE) SIZE row ink) out.old }
{
    let on = [ink.on; 4];
    let shade = [ink.shade; 4];
    let off = [ink.off; 4];
    for j in 0..font::CELL_COLUMNS {
        let at = from + j * SIZE;
        let run = row.tone(j, on, shade, off);
        out[at..at + SIZE].copy_from_slice(&run[..SIZE]);
    }
}

// A cell of any size, cut where the line ends.
fn any_cell(out: &mut [u8], from: usize, size: usize, row: Row, ink: Ink)
    requires { (from < length out.old) × (size < 256) }
    ensures { out.new ≡ overlay (stretched from (cell_columns * size) size row ink) out.old }
{
    for column in 0..font::CELL_COLUMNS {
        let byte = row.tone(column, ink.on, ink.shade, ink.off);
        cut_column(out, from + column * size, size, byte);
    }
}

// So many dots of one byte from a dot on, cut where the line ends.
fn cut_column(out: &mut [u8], from: usize, size: usize, byte: u8)
    ensures { out.new ≡ overlay (patched from size (λ d. byte)) out.old }
{
    if from < out.len() {
        let n = (out.len() - from).min(size);
        out[from..from + n].fill(byte);
    }
}

// Whether a row's bit in column j is set, bit 11 leftmost.
fn is_set(bits: u16, j: usize) -> bool
    requires { j + 1 ≤ cell_columns }
    ensures { result ≡ bit_set bits j }
{
    (bits >> (font::CELL_COLUMNS - 1 - j)) % 2 == 1
}
