// The writer of a font's text.
ghost use Rattle.std.specs.Prelude.{◌≡◌, length};
ghost use Rattle.answer.specs.Told.{told};
ghost use Rattle.writer.specs.Writing.{answer_of, left_of};

use answer::Answer;

// Writes the text of a font's image into the first 22,540 bytes lent: value 0, or number 4, 18 or 6.
#[unsafe(no_mangle)]
pub extern "C" fn dirgeflint_hex_write(font: &[u16], text: &mut [u8]) -> Answer
    ensures { (told result ≡ answer_of font.now (length text.old)) × (text.new ≡ left_of font.now text.old) }
{
    Answer::from(writer::write(font, text))
}
