// The character image and its text.
ghost use Rattle.std.specs.Prelude.{◌≡◌, length};
ghost use Rattle.image.specs.Image.{answer_of as image_answer_of, left_of as image_left_of};
ghost use Rattle.ihex.specs.Reading.{answer_of as hex_answer_of, left_of as hex_left_of};
ghost use Rattle.answer.specs.Told.{told};

use answer::Answer;

// Reads a text into the first 8,192 bytes lent. Value: how many bytes its records give; or numbers 6 to 12, 19 and 20.
#[unsafe(no_mangle)]
pub extern "C" fn dirgeflint_hex_read(text: &[u8], image: &mut [u8]) -> Answer
    ensures { (told result ≡ hex_answer_of text.now (length image.old)) × (image.new ≡ hex_left_of text.now image.old) }
{
    Answer::from(ihex::read(text, image))
}

// Turns an image of 8,192 bytes into a font of 1,116 rows. Value 0, or number 13.
#[unsafe(no_mangle)]
pub extern "C" fn dirgeflint_image_to_font(image: &[u8], font: &mut [u16]) -> Answer
    ensures { (told result ≡ image_answer_of image.now (length font.old)) × (font.new ≡ image_left_of image.now font.old) }
{
    Answer::from(image::image_to_font(image, font))
}
