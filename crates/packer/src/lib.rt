// The packer: drawn glyphs into the cells of a font, glyphs that agree in every dot into one cell.
#![tactic(auto)]

ghost use Rattle.std.specs.Prelude.{◌≡◌, ℕ, ◌+◌, ◌<◌, ◌≤◌, length};
ghost use Rattle.font.specs.Font.{rows_of_cell, font_rows};
ghost use Rattle.packer.specs.Packing.{all_whole, answer_of, number_of, said, font_left, cells_left};
ghost use Rattle.packer.specs.Steps.{two_at, four_at, twice_with, mixed_spot, spot_of, same_rows, narrow_rows, all_parts_narrow, over_of, Kept, Walk, Found, ToAdd, Added, ToNumber, Numbered, AllNumbered, Laid};

use answer::Refusal;

// The most glyphs that are packed.
const MOST_GLYPHS: usize = 256;

// The spots that patterns are kept at.
const SPOTS: usize = 256;

// One more than the largest row, and than the largest two, in a number of four rows: its parts are counted up to the one, its halves to the other.
const PART: u64 = 1 << 16;

const HALF: u64 = 1 << 32;

// What takes the lower part of a product of halves away.
const LOWER: u64 = 1 << 30;

// The rows of a glyph, or of a cell.
type Glyph = [u16; font::CELL_ROWS];

#[derive(Clone, Copy)]
pub enum PackError {
    // Rows that are no whole glyphs, more than 256 glyphs, or a row above 4095.
    NotGlyphs,
    // More patterns than a font has cells.
    TooManyPatterns,
    // Less room than the font's rows or the glyphs' cells need.
    NoRoom,
}

impl Refusal for PackError {
    ghost number_of = { number_of };

    ghost place_of = { λ _. 0 };

    fn number(&self) -> u32 {
        match self {
            PackError::NotGlyphs => 16,
            PackError::TooManyPatterns => 17,
            PackError::NoRoom => 6,
        }
    }

    fn place(&self) -> u32 {
        0
    }
}

// The patterns met, each by its cell: the first glyph that has it, and the pattern before it in the chain of its spot, which begins at `heads`.
#[derive(Drop)]
struct PatternTable<'a> {
    glyphs: &'a [Glyph],
    // Not one array of pairs, which an ArrayVec has too: with it equal glyphs take 1.37 times the baseline, where the goal in docs/PERFORMANCE.md is 1.2.
    firsts: [u8; font::FONT_CELLS],
    // A link is one more than a cell, and 0 where there is none: with an Option for each a call takes an eighth longer, past that goal too.
    nexts: [u8; font::FONT_CELLS],
    heads: [u8; SPOTS],
    used: usize,
    ghost kept: { Kept glyphs.now firsts nexts heads used },
}

// The font of the glyphs, into the first 1,116 rows lent, and the cell of each glyph, into as many places. The patterns are numbered before
// anything is written. An answer is how many cells the glyphs take.
pub fn pack(glyphs: &[u16], font: &mut [u16], cells: &mut [u8]) -> Result<u32, PackError>
    ensures { (said result ≡ answer_of glyphs.now (length font.old) (length cells.old))
        × (font.new ≡ font_left glyphs.now font.old cells.old)
        × (cells.new ≡ cells_left glyphs.now font.old cells.old) }
{
    if !are_whole(glyphs) {
        return Err(PackError::NotGlyphs);
    }
    let (drawn, _) = glyphs.as_chunks::<{ font::CELL_ROWS }>();
    let mut patterns = PatternTable {
        glyphs: drawn,
        firsts: [0; font::FONT_CELLS],
        nexts: [0; font::FONT_CELLS],
        heads: [0; SPOTS],
        used: 0,
    };
    // Memory is fixed, so there are places for the most glyphs; how many are used is what `glyphs` has, and is kept nowhere else.
    let mut numbers = [0u8; MOST_GLYPHS];
    number(glyphs, &mut patterns, &mut numbers)?;
    lay(glyphs, &patterns, &numbers, font, cells)
}

// Whether these rows are whole glyphs, and not too many.
#[tactic(auto, unfolding(crate::specs::Packing::all_whole))]
fn are_whole(glyphs: &[u16]) -> bool
    ensures { result ≡ all_whole glyphs.now }
{
    glyphs.len() % font::CELL_ROWS == 0 && glyphs.len() / font::CELL_ROWS <= MOST_GLYPHS
}

// The cell of each glyph. A glyph that agrees with an earlier one has rows as narrow as that one's, so that only new patterns are looked at for rows
// above 4095.
fn number(
    glyphs: &[u16],
    patterns: &mut PatternTable,
    numbers: &mut [u8; MOST_GLYPHS],
) -> Result<(), PackError>
    requires { ToNumber glyphs.now patterns.old.glyphs.now patterns.old.used }
    ensures { Numbered glyphs.now patterns.new.glyphs.now patterns.new.firsts patterns.new.used numbers.new result }
{
    for (g, glyph) in patterns.glyphs.iter().enumerate() {
        let spot = spot_of(glyph);
        let cell = match patterns.find(glyph, spot) {
            Some(cell) => cell,
            None => {
                if !narrow(glyph) {
                    return Err(PackError::NotGlyphs);
                }
                if patterns.used == font::FONT_CELLS {
                    return Err(over(glyphs));
                }
                patterns.add(g, spot)
            }
        };
        numbers[g] = cell as u8;
    }
    Ok(())
}

// A glyph finds no cell: there are too many patterns, unless a row further on is above 4095, which goes before.
fn over(glyphs: &[u16]) -> PackError
    ensures { result ≡ over_of glyphs.now }
{
    if font::all_within(glyphs, font::MOST_ROW) {
        PackError::TooManyPatterns
    } else {
        PackError::NotGlyphs
    }
}

impl<'a> PatternTable<'a> {
    // The cell of the pattern with these rows. It looks at the last pattern of the spot by itself, as that is mostly the one: so the usual glyph goes through
    // no loop, which is a tenth of a call's time.
    fn find(&self, glyph: &Glyph, spot: usize) -> Option<usize>
        requires { spot ≡ spot_of glyph.now }
        ensures { Found self.now.glyphs.now self.now.firsts self.now.used glyph.now result }
    {
        let last = usize::from(self.heads[spot]);
        if last == 0 {
            return None;
        }
        let cell = last - 1;
        let first = usize::from(self.firsts[cell]);
        if same(&self.glyphs[first], glyph) {
            return Some(cell);
        }
        let next = usize::from(self.nexts[cell]);
        self.further(glyph, next)
    }

    // The same by a loop, from any pattern of the chain on. It is kept apart from the usual way, which else takes a tenth longer. The loop follows the chain and
    // counts no index, so that it is a `while`.
    #[cold]
    fn further(&self, glyph: &Glyph, from: usize) -> Option<usize>
        requires { Walk self.now.glyphs.now self.now.firsts self.now.used glyph.now from }
        ensures { Found self.now.glyphs.now self.now.firsts self.now.used glyph.now result }
    {
        let mut next = from;
        while next != 0 {
            let cell = next - 1;
            let first = usize::from(self.firsts[cell]);
            if same(&self.glyphs[first], glyph) {
                return Some(cell);
            }
            next = usize::from(self.nexts[cell]);
        }
        None
    }

    // A new pattern, that of glyph g: it takes the next cell, which is the answer, and is the last of its spot.
    fn add(&mut self, g: usize, spot: usize) -> usize
        requires { ToAdd self.old.glyphs.now self.old.used g spot }
        ensures { Added self.old.glyphs.now self.old.firsts self.old.used g self.new.glyphs.now self.new.firsts self.new.used result }
    {
        let cell = self.used;
        self.firsts[cell] = g as u8;
        self.nexts[cell] = self.heads[spot];
        self.used = cell + 1;
        self.heads[spot] = self.used as u8;
        cell
    }
}

// Where a glyph with these rows is looked for: a number that its rows alone decide, and that is different for most patterns. Sums are cut to 64 bits.
#[tactic(auto, unfolding(crate::specs::Steps::sum_of))]
fn spot_of(glyph: &Glyph) -> usize
    ensures { result ≡ spot_of glyph.now }
{
    let upper = with_twice(four(glyph, 0), four(glyph, 4));
    let lower = with_twice(four(glyph, 8), four(glyph, 12));
    let sum = with_twice(with_twice(upper, lower), lower);
    mixed(sum.wrapping_add(two(glyph, 16)))
}

// One number and twice another, cut to 64 bits.
#[tactic(auto, unfolding(crate::specs::Steps::twice_with))]
fn with_twice(one: u64, other: u64) -> u64
    ensures { result ≡ twice_with one other }
{
    one.wrapping_add(other).wrapping_add(other)
}

// A spot by both halves of a number: eight bits from the middle of their product. By one product that is cut to 64 bits a call takes a tenth longer.
fn mixed(number: u64) -> usize
    ensures { result ≡ mixed_spot number }
{
    let product = (number % HALF) * (number / HALF);
    (product / LOWER) as usize % SPOTS
}

// Whether two glyphs have the same rows, by four rows at a time: row by row, as by `==`, a call takes twice as long, past the goal of 1.2.
fn same(one: &Glyph, other: &Glyph) -> bool
    ensures { result ≡ same_rows one.now other.now }
{
    for l in 0..4 {
        if four(one, 4 * l) != four(other, 4 * l) {
            return false;
        }
    }
    two(one, 16) == two(other, 16)
}

// Whether no row of a glyph is above 4095: whether in the bits of all together no part is. Row by row a call takes up to a half longer, past the goal of 1.2.
fn narrow(glyph: &Glyph) -> bool
    ensures { result ≡ narrow_rows glyph.now }
{
    let upper = four(glyph, 0) | four(glyph, 4);
    let lower = four(glyph, 8) | four(glyph, 12);
    let last = two(glyph, 16);
    parts_narrow((upper | lower) | last)
}

// Whether none of the four parts of a number is above 4095.
#[tactic(auto, unfolding(crate::specs::Steps::all_parts_narrow))]
fn parts_narrow(number: u64) -> bool
    ensures { result ≡ all_parts_narrow number }
{
    let most = u64::from(font::MOST_ROW);
    number % PART <= most
        && number / PART % PART <= most
        && number / HALF % PART <= most
        && number / HALF / PART <= most
}

// Four rows as one number, each a part of 16 bits: on a processor it is one load.
#[tactic(auto, unfolding(crate::specs::Steps::four_at))]
fn four(glyph: &Glyph, at: usize) -> u64
    requires { at + 4 ≤ rows_of_cell }
    ensures { (result ≡ four_at glyph.now at) × (result < 18446744073709551616) }
{
    two(glyph, at) + two(glyph, at + 2) * HALF
}

// Two rows.
#[tactic(auto, unfolding(crate::specs::Steps::two_at))]
fn two(glyph: &Glyph, at: usize) -> u64
    requires { at + 2 ≤ rows_of_cell }
    ensures { (result ≡ two_at glyph.now at) × (result < 4294967296) }
{
    u64::from(glyph[at]) + u64::from(glyph[at + 1]) * PART
}

// The rooms are tested, and the font and the cells written.
#[tactic(auto, using(crate::proofs::Asked::few_glyphs))]
fn lay(
    glyphs: &[u16],
    patterns: &PatternTable,
    numbers: &[u8; MOST_GLYPHS],
    font: &mut [u16],
    cells: &mut [u8],
) -> Result<u32, PackError>
    requires { AllNumbered glyphs.now patterns.now.glyphs.now patterns.now.firsts patterns.now.used numbers.now }
    ensures { (said result ≡ answer_of glyphs.now (length font.old) (length cells.old))
        × (font.new ≡ font_left glyphs.now font.old cells.old) × (cells.new ≡ cells_left glyphs.now font.old cells.old) }
{
    let count = glyphs.len() / font::CELL_ROWS;
    if font.len() < font::FONT_ROWS || cells.len() < count {
        return Err(PackError::NoRoom);
    }
    lay_font(patterns, font);
    cells[..count].copy_from_slice(&numbers[..count]);
    Ok(patterns.used as u32)
}

// The font: the rows of each pattern, and 0 from there on.
fn lay_font(patterns: &PatternTable, font: &mut [u16])
    requires { font_rows ≤ length font.old }
    ensures { Laid patterns.now.glyphs.now patterns.now.firsts patterns.now.used font.old font.new }
{
    for (cell, &first) in patterns.firsts[..patterns.used].iter().enumerate() {
        let at = font::CELL_ROWS * cell;
        font[at..at + font::CELL_ROWS].copy_from_slice(&patterns.glyphs[usize::from(first)]);
    }
    font[font::CELL_ROWS * patterns.used..font::FONT_ROWS].fill(0);
}
