// The image of a font, 8,192 bytes, turned back into the font.
#![tactic(auto)]

ghost use Rattle.std.specs.Prelude.{◌≡◌, ℕ, ◌+◌, ◌*◌, ◌%◌, ◌<◌, ◌≤◌, true, false, length, ◌↔◌, bit_or, slice_index, EachIndex, IsTrue, MatchOption};
ghost use Rattle.laws.specs.Lists.{tabulate};
ghost use Rattle.font.specs.Font.{font_cells, rows_of_cell};
ghost use Rattle.image.specs.Image.{image_bytes, stride, unused, least_at, lacks_at, first_lacking, font_of, row_in, answer_of, left_of, said, number_of as number_told, place_of as place_told};
ghost use Rattle.image.specs.Steps.{WholeTo, Held, Under};

use answer::Refusal;
use std::array;

pub const IMAGE_BYTES: usize = 8192;

pub const HALF_BYTES: usize = 4096;

const STRIDE: usize = 32;

// The part of a half that has the cells.
const CELL_BYTES: usize = STRIDE * font::FONT_CELLS;

// A byte that holds nothing, and the four upper bits of one that holds four bits of a row.
pub const UNUSED: u8 = 255;

pub const UPPER_BITS: u8 = 240;

// The lengths are not 8,192 bytes and 1,116 rows (0), or a set bit is missing at this address. The lengths have no case of their own: that case and the
// address 0 would both be told as 13 at 0, and `image_to_font_unique` wants one answer.
#[derive(Clone, Copy)]
pub struct NotAFont(pub u32);

impl Refusal for NotAFont {
    ghost number_of = { number_told };

    ghost place_of = { place_told };

    fn number(&self) -> u32 {
        13
    }

    fn place(&self) -> u32 {
        self.0
    }
}

// The font of an image, into exactly 1,116 rows lent.
pub fn image_to_font(image: &[u8], font: &mut [u16]) -> Result<(), NotAFont>
    ensures { (said result ≡ answer_of image.now (length font.old))
        × (font.new ≡ left_of image.now font.old) }
{
    let image = image.as_array::<IMAGE_BYTES>().ok_or(NotAFont(0))?;
    let font = font
        .as_mut_array::<{ font::FONT_ROWS }>()
        .ok_or(NotAFont(0))?;
    if let Some(address) = first_lack(image) {
        return Err(NotAFont(address as u32));
    }
    turn(image, font);
    Ok(())
}

// The lowest address at which a bit is missing.
fn first_lack(image: &[u8; IMAGE_BYTES]) -> Option<usize>
    ensures { MatchOption result (first_lacking image.now ≡ image_bytes) (λ address. (address ≡ first_lacking image.now) × (address < image_bytes)) }
{
    if lacks_nothing(image) {
        return None;
    }
    (whole_strides(image)..IMAGE_BYTES).find(|address| lacks_bit(image, *address))
}

fn lacks_bit(image: &[u8; IMAGE_BYTES], address: usize) -> bool
    requires { address < image_bytes }
    ensures { result ≡ lacks_at image.now address }
{
    image[address] < least(address)
}

// Where the strides at the image's start that lack nothing end. In a stride the least byte changes once, after a cell's rows.
fn whole_strides(image: &[u8; IMAGE_BYTES]) -> usize
    ensures { WholeTo image.now result }
{
    for stride in 0..IMAGE_BYTES / STRIDE {
        let at = STRIDE * stride;
        let rows = at + font::CELL_ROWS;
        if falls_below(&image[at..rows], least(at))
            || falls_below(&image[rows..at + STRIDE], UNUSED)
        {
            return at;
        }
    }
    IMAGE_BYTES
}

// Whether a byte is below the bound. Each is looked at, so that many are looked at at once: with `any`, which stops at the first, a refusal takes 1.5 to 1.8
// times as long.
fn falls_below(bytes: &[u8], bound: u8) -> bool
    ensures { result ≡ false → EachIndex bytes.now (λ k. bound ≤ slice_index bytes.now k) }
{
    bytes
        .iter()
        .fold(false, |below, byte| below | (*byte < bound))
}

// Whether no bit is missing anywhere. Each byte is looked at, and nothing else is asked of it, so that many are looked at at once: an image that is
// accepted needs no other look.
fn lacks_nothing(image: &[u8; IMAGE_BYTES]) -> bool
    ensures { result ≡ true → WholeTo image.now image_bytes }
{
    held(&image[..CELL_BYTES], UNUSED)
        && held(&image[CELL_BYTES..HALF_BYTES], 0)
        && held(
            &image[HALF_BYTES..HALF_BYTES + CELL_BYTES],
            UNUSED - UPPER_BITS,
        )
        && held(&image[HALF_BYTES + CELL_BYTES..], 0)
}

// Whether each byte of some strides has all bits; the bits of `free` count as set in a cell's rows.
fn held(strides: &[u8], free: u8) -> bool
    requires { length strides.now % stride ≡ 0 }
    ensures { result ≡ true → Held strides.now free }
{
    let under = columns(strides);
    all_set(&under[..font::CELL_ROWS], free) && all_set(&under[font::CELL_ROWS..], 0)
}

// Whether each byte has all bits but those of `free`.
fn all_set(bytes: &[u8], free: u8) -> bool
    ensures { IsTrue result ↔ EachIndex bytes.now (λ k. bit_or (slice_index bytes.now k) free ≡ unused) }
{
    bytes.iter().all(|byte| *byte | free == UNUSED)
}

// The bits that all bytes of some strides have at each place of a stride, in an array that nothing lent can overlap, so that a stride is taken at once.
fn columns(strides: &[u8]) -> [u8; STRIDE]
    requires { length strides.now % stride ≡ 0 }
    ensures { Under result strides.now }
{
    let mut under = [UNUSED; STRIDE];
    for stride in strides.as_chunks::<STRIDE>().0 {
        for (i, byte) in stride.iter().enumerate() {
            under[i] &= *byte;
        }
    }
    under
}

// The least byte with every bit set that must be set there.
fn least(address: usize) -> u8
    ensures { result ≡ least_at address }
{
    if font::FONT_CELLS <= address % HALF_BYTES / STRIDE || font::CELL_ROWS <= address % STRIDE {
        UNUSED
    } else if address < HALF_BYTES {
        0
    } else {
        UPPER_BITS
    }
}

// The rows are copied one by one: by a slice's copy, which first looks whether the two overlap, a call takes 1.29 times as long, past the goal of 1.0 in docs/PERFORMANCE.md.
fn turn(image: &[u8; IMAGE_BYTES], font: &mut [u16; font::FONT_ROWS])
    ensures { font.new ≡ font_of image.now }
{
    for cell in 0..font::FONT_CELLS {
        for (row, bits) in cell_rows(image, cell).iter().enumerate() {
            font[font::CELL_ROWS * cell + row] = *bits;
        }
    }
}

// The rows of a cell, in an array that nothing lent can overlap, so that they are put together many at a time.
fn cell_rows(image: &[u8; IMAGE_BYTES], cell: usize) -> [u16; font::CELL_ROWS]
    requires { cell < font_cells }
    ensures { result ≡ tabulate rows_of_cell (λ k. row_in image.now (rows_of_cell * cell + k)) }
{
    array::from_fn(|row| row_at(image, cell, row))
}

fn row_at(image: &[u8; IMAGE_BYTES], cell: usize, row: usize) -> u16
    requires { (cell < font_cells) × (row < rows_of_cell) }
    ensures { result ≡ row_in image.now (rows_of_cell * cell + row) }
{
    let low = STRIDE * cell + row;
    u16::from(image[low]) + 256 * u16::from(image[HALF_BYTES + low] % 16)
}
