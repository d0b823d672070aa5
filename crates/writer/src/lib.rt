// The writer of a font's image as Intel's hexadecimal object format.
#![tactic(auto)]

ghost use Rattle.std.specs.Prelude.{◌≡◌, ◌+◌, ◌*◌, ◌<◌, ◌≤◌, length};
ghost use Rattle.std.proofs.lemmas.List.Edits.{sets};
ghost use Rattle.font.specs.Font.{most_row};
ghost use Rattle.image.specs.Image.{image_of, half_at};
ghost use Rattle.ihex.specs.Records.{sum_of};
ghost use Rattle.ihex.specs.Codes.{code_of};
ghost use Rattle.writer.specs.Text.{digit_text, bytes_text, record_text, record_bytes, text_of};
ghost use Rattle.writer.specs.Writing.{answer_of, left_of, said, number_of, place_of, of_font};
ghost use Rattle.writer.specs.Steps.{ToPutText, ToPutRecord, ToFill, bytes_of_cell, cell_bytes};

use answer::Refusal;
use font::FontError;
use ihex::Kind;

// A record's data, and a cell's bytes in each half of the image: two records.
const RECORD_BYTES: usize = 16;

const CELL_BYTES: usize = 2 * RECORD_BYTES;

// The places of cells in the image and in each half. The last two of each half hold no cell.
const PLACES: usize = image::IMAGE_BYTES / CELL_BYTES;

const HALF_PLACES: usize = image::HALF_BYTES / CELL_BYTES;

// The text of a record without data, and of a data record.
const END_TEXT: usize = 12;

const RECORD_TEXT: usize = END_TEXT + 2 * RECORD_BYTES;

// The data records' text, and the end record's.
const TEXT_BYTES: usize = 2 * RECORD_TEXT * PLACES + END_TEXT;

#[derive(Clone, Copy)]
pub enum WriteError {
    // The rows are no font's.
    Font(FontError),
    // Less room than the text needs.
    NoRoom,
}

impl From<FontError> for WriteError {
    ghost from_gives = { λ error refusal. refusal ≡ of_font error };

    fn from(error: FontError) -> WriteError {
        WriteError::Font(error)
    }
}

impl Refusal for WriteError {
    ghost number_of = { number_of };

    ghost place_of = { place_of };

    fn number(&self) -> u32 {
        match self {
            WriteError::Font(error) => error.number(),
            WriteError::NoRoom => 6,
        }
    }

    fn place(&self) -> u32 {
        match self {
            WriteError::Font(error) => error.place(),
            WriteError::NoRoom => 0,
        }
    }
}

// The text of a font's image, into the first 22,540 bytes lent.
pub fn write(font: &[u16], text: &mut [u8]) -> Result<(), WriteError>
    ensures { (said result ≡ answer_of font.now (length text.old))
        × (text.new ≡ left_of font.now text.old) }
{
    font::whole(font)?;
    if text.len() < TEXT_BYTES {
        return Err(WriteError::NoRoom);
    }
    put_text(font, text);
    Ok(())
}

// Two records for each place of a cell, and the end record.
fn put_text(font: &[u16], text: &mut [u8])
    requires { ToPutText font.now text.old }
    ensures { text.new ≡ sets text.old 0 (text_of (image_of font.now)) }
{
    for place in 0..PLACES {
        let bytes = bytes_at(font, place);
        let (front, back) = bytes.split_at(RECORD_BYTES);
        let at = 2 * RECORD_TEXT * place;
        let address = (CELL_BYTES * place) as u16;
        put_record(Kind::Data, address, front, &mut text[at..at + RECORD_TEXT]);
        put_record(
            Kind::Data,
            address + RECORD_BYTES as u16,
            back,
            &mut text[at + RECORD_TEXT..at + 2 * RECORD_TEXT],
        );
    }
    let at = 2 * RECORD_TEXT * PLACES;
    put_record(Kind::End, 0, &[], &mut text[at..at + END_TEXT]);
}

// The line of a record. It is put in place where it is called, so that what length its data has is known there.
#[inline(always)]
fn put_record(kind: Kind, address: u16, bytes: &[u8], line: &mut [u8])
    requires { ToPutRecord bytes.now line.old }
    ensures { line.new ≡ record_text (record_bytes (code_of kind) address bytes.now) }
{
    let [high, low] = address.to_be_bytes();
    let head = [bytes.len() as u8, high, low, u8::from(kind)];
    let sum = sum_of(&head).wrapping_add(sum_of(bytes));
    let end = line.len() - 3;
    line[0] = ihex::COLON;
    spell(&head, &mut line[1..9]);
    spell(bytes, &mut line[9..end]);
    spell(&[0u8.wrapping_sub(sum)], &mut line[end..end + 2]);
    line[end + 2] = ihex::LF;
}

// The digits of bytes, two for each, by index: over a `zip` of mutable places a loop's invariant has no name for them (`store` of ihex).
fn spell(bytes: &[u8], text: &mut [u8])
    requires { length text.old ≡ 2 * length bytes.now }
    ensures { text.new ≡ bytes_text bytes.now }
{
    for (i, byte) in bytes.iter().enumerate() {
        text[2 * i] = digit(*byte / 16);
        text[2 * i + 1] = digit(*byte % 16);
    }
}

// Not by the kit's `hex`: it writes upper case into a String alone, and this library has no heap; into a slice it writes lower case.
fn digit(value: u8) -> u8
    requires { value < 16 }
    ensures { result ≡ digit_text value }
{
    if value < 10 {
        b'0' + value
    } else {
        b'A' + (value - 10)
    }
}

// The eight-bit sum, carries dropped.
fn sum_of(bytes: &[u8]) -> u8
    ensures { result ≡ sum_of bytes.now }
{
    let mut sum = 0u8;
    for byte in bytes {
        sum = sum.wrapping_add(*byte);
    }
    sum
}

// The bytes of the image at a cell's place: first those that hold its rows, then those that hold none.
fn bytes_at(font: &[u16], place: usize) -> [u8; CELL_BYTES]
    requires { ToFill font.now place }
    ensures { result ≡ bytes_of_cell (image_of font.now) place }
{
    let mut bytes = [image::UNUSED; CELL_BYTES];
    let cell = place % HALF_PLACES;
    if cell < font::FONT_CELLS {
        let rows = &font[font::CELL_ROWS * cell..font::CELL_ROWS * (cell + 1)];
        // By index, as in `spell`.
        for (i, row) in rows.iter().enumerate() {
            bytes[i] = half_of(*row, place);
        }
    }
    bytes
}

// What a place holds of a row: its low 8 bits, or its high 4 below four set bits.
fn half_of(row: u16, place: usize) -> u8
    requires { row ≤ most_row }
    ensures { result ≡ half_at (cell_bytes * place) row }
{
    let [high, low] = row.to_be_bytes();
    if place < HALF_PLACES {
        low
    } else {
        image::UPPER_BITS + high
    }
}
