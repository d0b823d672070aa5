// The line that fontcheck prints for a text.
#![tactic(auto)]

#[cfg(test)]
mod tests;

ghost use Rattle.std.specs.Prelude.{◌≡◌, Some};
ghost use Rattle.fontline.specs.Lines.{checked, line_for, number_of, place_of, said, IsText, IsImage};

use answer::Refusal;
use arrayvec::{ArrayString, ArrayVec};
use ihex::ReadError;
use image::NotAFont;
use itoa::Buffer;
use std::fmt;

// The longest line, `refused K at P` with ten digits each, and its LF.
const LONGEST: usize = 33;

// Why a text makes no font: it cannot be read, or its image is no font's.
#[derive(Clone, Copy)]
pub enum NoFont {
    Text(ReadError),
    Image(NotAFont),
}

impl From<ReadError> for NoFont {
    ghost from_gives = { IsText };

    fn from(refusal: ReadError) -> NoFont {
        NoFont::Text(refusal)
    }
}

impl From<NotAFont> for NoFont {
    ghost from_gives = { IsImage };

    fn from(refusal: NotAFont) -> NoFont {
        NoFont::Image(refusal)
    }
}

impl Refusal for NoFont {
    ghost number_of = { number_of };

    ghost place_of = { place_of };

    fn number(&self) -> u32 {
        match self {
            NoFont::Text(refusal) => refusal.number(),
            NoFont::Image(refusal) => refusal.number(),
        }
    }

    fn place(&self) -> u32 {
        match self {
            NoFont::Text(refusal) => refusal.place(),
            NoFont::Image(refusal) => refusal.place(),
        }
    }
}

// The line for a text, whatever the text is: what counting its bytes comes to.
pub fn check(text: &[u8]) -> Line
    ensures { said result.0 ≡ checked text.now }
{
    Line(count(text))
}

// What reading a text and turning its image into a font come to: how many bytes the records give, or the first refusal.
pub fn count(text: &[u8]) -> Result<u32, NoFont>
    ensures { said result ≡ checked text.now }
{
    let mut image = [0u8; image::IMAGE_BYTES];
    let mut font = [0u16; font::FONT_ROWS];
    let count = ihex::read(text, &mut image)?;
    image::image_to_font(&image, &mut font)?;
    Ok(count)
}

// The line for what was checked.
#[derive(Clone, Copy)]
pub struct Line(pub Result<u32, NoFont>);

impl Line {
    // The bytes of the line, its LF with them, promised without condition: `Display` promises them only where printing returns no error.
    // They are no `ArrayString`, since what that leaves unused would be a second answer.
    pub fn text(&self) -> ArrayVec<u8, LONGEST>
        ensures { result.items ≡ line_for (said self.now.0) }
    {
        let Ok(bytes) = ArrayVec::try_from(self.spelled().as_bytes()) else {
            unreachable!();
        };
        bytes
    }

    // The line as text, for both of its uses.
    fn spelled(&self) -> ArrayString<LONGEST>
        ensures { result.bytes ≡ line_for (said self.now.0) }
    {
        let mut text = ArrayString::new();
        match self.0 {
            Ok(bytes) => {
                text.push_str("cells 62 bytes ");
                text.push_str(Buffer::new().format(bytes));
            }
            Err(refusal) => {
                text.push_str("refused ");
                text.push_str(Buffer::new().format(refusal.number()));
                text.push_str(" at ");
                text.push_str(Buffer::new().format(refusal.place()));
            }
        }
        text.push_str("\n");
        text
    }
}

impl fmt::Display for Line {
    ghost output = { λ line. Some (line_for (said line.0)) };

    fn fmt<W: fmt::Write>(&self, f: &mut fmt::Formatter<W>) -> fmt::Result {
        f.write_str(self.spelled().as_str())
    }
}
