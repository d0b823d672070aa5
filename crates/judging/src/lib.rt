// What is handed to the painter, and what of it is refused: the first number that applies of 1, 2, 3, 4, 18, 5 and 6, in this order.
#![tactic(auto)]

ghost use Rattle.std.specs.Prelude.{◌≡◌};
ghost use Rattle.judging.specs.Judging.{answer_of, said, in_range, number_of, place_of, of_font};

use answer::Refusal;
use font::FontError;
use units::{Dots, Lines};

// What the host sets: wide numbers and no enums, as C hands over any number, and 1 refuses those out of range.
#[repr(C)]
#[derive(Clone, Copy)]
pub struct Settings {
    pub on: bool,
    pub mode: u32,
    pub colour: u32,
    pub h: u32,
    pub v: u32,
    pub ratio: u32,
    pub frequency: u32,
}

#[derive(Clone, Copy)]
pub enum PaintError {
    // A setting is outside its range.
    Setting,
    // Ratio 3.
    ReservedRatio,
    // Not 64 words, or one above 1023.
    Words,
    // The rows are no font's.
    Font(FontError),
    // The line is above 1023 or the width above 1024.
    OffScreen,
    // The output is shorter than the width.
    NoRoom,
}

impl From<FontError> for PaintError {
    ghost from_gives = { λ error refusal. refusal ≡ of_font error };

    fn from(error: FontError) -> PaintError {
        PaintError::Font(error)
    }
}

impl Refusal for PaintError {
    ghost number_of = { number_of };

    ghost place_of = { place_of };

    fn number(&self) -> u32 {
        match self {
            PaintError::Setting => 1,
            PaintError::ReservedRatio => 2,
            PaintError::Words => 3,
            PaintError::Font(error) => error.number(),
            PaintError::OffScreen => 5,
            PaintError::NoRoom => 6,
        }
    }

    fn place(&self) -> u32 {
        match self {
            PaintError::Font(error) => error.place(),
            _ => 0,
        }
    }
}

// The largest mode and colour, h or v, ratio and frequency; the largest ratio is reserved.
const MOST_MODE: u32 = 3;

const MOST_COLOUR: u32 = 7;

const MOST_PLACE: u32 = 63;

const MOST_RATIO: u32 = 3;

const MOST_FREQUENCY: u32 = 3;

const WORDS: usize = 64;

const MOST_WORD: u16 = 1023;

const MOST_LINE: usize = 1023;

const MOST_WIDTH: usize = 1024;

impl Settings {
    fn in_range(self) -> bool
        ensures { result ≡ in_range self }
    {
        self.mode <= MOST_MODE
            && self.colour <= MOST_COLOUR
            && self.h <= MOST_PLACE
            && self.v <= MOST_PLACE
            && self.ratio <= MOST_RATIO
            && self.frequency <= MOST_FREQUENCY
    }
}

// Refuses by the first number of the table that applies.
pub fn judged(
    words: &[u16],
    font: &[u16],
    settings: Settings,
    line: Lines,
    width: Dots,
    room: usize,
) -> Result<(), PaintError>
    ensures { said result ≡ answer_of words.now font.now settings line width room }
{
    if !settings.in_range() {
        return Err(PaintError::Setting);
    }
    if settings.ratio == MOST_RATIO {
        return Err(PaintError::ReservedRatio);
    }
    if words.len() != WORDS || !font::all_within(words, MOST_WORD) {
        return Err(PaintError::Words);
    }
    font::whole(font)?;
    if MOST_LINE < line.0 || MOST_WIDTH < width.0 {
        return Err(PaintError::OffScreen);
    }
    if room < width.0 {
        return Err(PaintError::NoRoom);
    }
    Ok(())
}
