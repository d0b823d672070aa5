// The painter.
ghost use Rattle.std.specs.Prelude.{◌≡◌, length};
ghost use Rattle.judging.specs.Judging.{answer_of};
ghost use Rattle.display.specs.Painting.{left_by};
ghost use Rattle.answer.specs.Told.{told};

use answer::Answer;
use judging::Settings;
use units::{Dots, Lines};

// Paints the first `width` dots of a line, one byte for each: 0 for video, else 8 and the colour. Value 0, or numbers 1 to 6 and 18.
#[unsafe(no_mangle)]
pub extern "C" fn dirgeflint_paint(
    words: &[u16],
    font: &[u16],
    settings: Settings,
    frame: u32,
    line: u32,
    width: u32,
    dots: &mut [u8],
) -> Answer
    ensures { (told result ≡ answer_of words.now font.now settings (record { 0 = line }) (record { 0 = width }) (length dots.old)) × (dots.new ≡ left_by words.now font.now settings frame (record { 0 = line }) (record { 0 = width }) dots.old) }
{
    Answer::from(display::paint(
        words,
        font,
        settings,
        frame,
        Lines(line as usize),
        Dots(width as usize),
        dots,
    ))
}
