// The sizes of a font, 62 cells of 18 rows of 12 bits, the tests of rows that painter, writer and packer share, and what is refused of a font.
#![tactic(auto)]

ghost use Rattle.std.specs.Prelude.{◌≡◌, true, ℕ, ◌≤◌};
ghost use Rattle.laws.specs.Within.{within};
ghost use Rattle.font.specs.Font.{first_above};
ghost use Rattle.font.specs.Whole.{answer_of, said, number_of, place_of};

use answer::Refusal;

// The columns and rows of a cell, the cells and rows of a font, and the largest row.
pub const CELL_COLUMNS: usize = 12;

pub const CELL_ROWS: usize = 18;

pub const FONT_CELLS: usize = 62;

pub const FONT_ROWS: usize = FONT_CELLS * CELL_ROWS;

pub const MOST_ROW: u16 = 4095;

#[derive(Clone, Copy)]
pub enum FontError {
    // Not 1,116 rows.
    Length,
    // The first row above 4095.
    Row(u32),
}

impl Refusal for FontError {
    ghost number_of = { number_of };

    ghost place_of = { place_of };

    fn number(&self) -> u32 {
        match self {
            FontError::Length => 4,
            FontError::Row(_) => 18,
        }
    }

    fn place(&self) -> u32 {
        match self {
            FontError::Length => 0,
            FontError::Row(row) => *row,
        }
    }
}

// Whether the rows are a font's.
pub fn whole(rows: &[u16]) -> Result<(), FontError>
    ensures { said result ≡ answer_of rows.now }
{
    if rows.len() != FONT_ROWS {
        return Err(FontError::Length);
    }
    match first_above(rows, MOST_ROW) {
        None => Ok(()),
        Some(row) => Err(FontError::Row(row as u32)),
    }
}

// Whether no number is above the given one.
pub fn all_within(numbers: &[u16], most: u16) -> bool
    ensures { result ≡ within most numbers.now }
{
    first_above(numbers, most).is_none()
}

// The index of the first number above the given one. It is looked for one by one only where the bits of all together do not settle it.
pub fn first_above(numbers: &[u16], most: u16) -> Option<usize>
    ensures { result ≡ first_above most numbers.now }
{
    if all_bits(numbers) <= most {
        return None;
    }
    numbers.iter().position(|number| most < *number)
}

// The bits of all numbers together, which are at least each of them: for a bound of so many bits they decide. Four parts are looked at at once, each
// a multiple of 16 numbers long, so that they fill wide registers; then what is left. One `fold` was tried: an empty line took 4 to 10 % longer to paint.
fn all_bits(numbers: &[u16]) -> u16
    ensures { (most : ℕ) → result ≤ most → within most numbers.now ≡ true }
{
    let part = 16 * (numbers.len() / 64);
    let mut all: u16 = 0;
    for i in 0..part {
        let front = numbers[i] | numbers[part + i];
        let back = numbers[2 * part + i] | numbers[3 * part + i];
        all |= front | back;
    }
    for number in &numbers[4 * part..] {
        all |= *number;
    }
    all
}
