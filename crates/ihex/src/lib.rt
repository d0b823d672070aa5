// Intel's hexadecimal object format, types 00 and 01: the reader of a character image.
#![tactic(auto)]

ghost use Rattle.std.specs.Prelude.{◌≡◌, ◌≤◌, ◌<◌, ◌+◌, ◌*◌, Err, map, length, drop};
ghost use Rattle.image.specs.Image.{image_bytes};
ghost use Rattle.ihex.specs.Records.{belongs as records_belongs, address_of};
ghost use Rattle.ihex.specs.Codes.{kind_of, code_of};
ghost use Rattle.ihex.specs.Lines.{body_of};
ghost use Rattle.ihex.specs.Reading.{most_text, fault_said, answer_of, left_of, said, table_number, table_place};
ghost use Rattle.ihex.specs.Steps.{digit_table, unfilled, Collected, Parsed, Decoded, spelled_at, Stored, passes_end, byte_for};

use answer::Refusal;

mod digits;

const MOST_TEXT: usize = 65535;

pub const LF: u8 = b'\n';

const CR: u8 = b'\r';

pub const COLON: u8 = b':';

// The bytes of a record beside its data: length, address (two), type, checksum.
const FRAME: usize = 5;

// The bytes of the longest record, and of the shortest line: a colon and two digits for each byte of a record without data.
const RECORD_MOST: usize = FRAME + 255;

const LINE_LEAST: usize = 1 + 2 * FRAME;

// The types of a data record and of the end record.
pub const DATA: u8 = 0;

pub const END: u8 = 1;

// The types of record that are read.
#[derive(Clone, Copy)]
pub enum Kind {
    Data,
    End,
}

// Any other type.
#[derive(Clone, Copy)]
pub struct OtherKind;

impl TryFrom<u8> for Kind {
    type Error = OtherKind;

    ghost try_from_gives = { λ code kind. kind ≡ kind_of code };

    fn try_from(code: u8) -> Result<Kind, OtherKind> {
        match code {
            DATA => Ok(Kind::Data),
            END => Ok(Kind::End),
            _ => Err(OtherKind),
        }
    }
}

impl From<Kind> for u8 {
    ghost from_gives = { λ kind code. code ≡ code_of kind };

    fn from(kind: Kind) -> u8 {
        match kind {
            Kind::Data => DATA,
            Kind::End => END,
        }
    }
}

// What stands in the scratch for a byte that no record gave.
// A scratch of Option<u8> was tried: a font's text then took 1.6 times as long to read, past the goal of 1.1 in docs/PERFORMANCE.md.
const NOT_GIVEN: u16 = 256;

#[derive(Clone, Copy)]
pub enum ReadError {
    // Less room than an image needs.
    NoRoom,
    // The text is longer than any that is read.
    TooLong,
    // A line's first character, here, is no colon; or a later one, here, is no digit.
    BadCharacter(u32),
    // The line here has not the record's shape, though each character is in its place.
    BadShape(u32),
    BadSum(u32),
    // Another type, or an end record with data or an address.
    BadType(u32),
    // The record goes past the image's end.
    PastEnd(u32),
    // An earlier record gives a byte of this one already.
    GivenTwice(u32),
    // No end record, or something here after its line.
    BadEnd(u32),
}

impl Refusal for ReadError {
    ghost number_of = { table_number };

    ghost place_of = { table_place };

    fn number(&self) -> u32 {
        match self {
            ReadError::NoRoom => 6,
            ReadError::TooLong => 7,
            ReadError::BadCharacter(_) => 19,
            ReadError::BadShape(_) => 20,
            ReadError::BadSum(_) => 8,
            ReadError::BadType(_) => 9,
            ReadError::PastEnd(_) => 10,
            ReadError::GivenTwice(_) => 11,
            ReadError::BadEnd(_) => 12,
        }
    }

    fn place(&self) -> u32 {
        match self {
            ReadError::NoRoom | ReadError::TooLong => 0,
            ReadError::BadCharacter(place) => *place,
            ReadError::BadShape(place) => *place,
            ReadError::BadSum(place) => *place,
            ReadError::BadType(place) => *place,
            ReadError::PastEnd(place) => *place,
            ReadError::GivenTwice(place) => *place,
            ReadError::BadEnd(place) => *place,
        }
    }
}

// The image that a text spells, into the first 8,192 bytes lent, and how many bytes the records give. A refusal leaves the bytes lent as they were: the
// records are collected in a scratch.
pub fn read(text: &[u8], image: &mut [u8]) -> Result<u32, ReadError>
    ensures { (said result ≡ answer_of text.now (length image.old))
        × (image.new ≡ left_of text.now image.old) }
{
    if image.len() < image::IMAGE_BYTES {
        return Err(ReadError::NoRoom);
    }
    if MOST_TEXT < text.len() {
        return Err(ReadError::TooLong);
    }
    // One copy for all: the table would be built at each call of a function that reads it.
    let digits = digits::DIGITS;
    let mut scratch = [NOT_GIVEN; image::IMAGE_BYTES];
    let reader = Reader {
        digits: &digits,
        text,
    };
    let count = reader.collect(&mut scratch)?;
    copy_out(&scratch, &mut image[..image::IMAGE_BYTES]);
    Ok(count)
}

// A text that is not too long, with the table that tells its digits.
#[derive(Clone, Copy)]
struct Reader<'a> {
    digits: &'a [u8; 256],
    text: &'a [u8],
    ghost table: { digits.now ≡ digit_table },
    ghost short: { length text.now ≤ most_text },
}

// A line of the record's shape: the record's eight-bit sum, and where the next line starts.
#[derive(Clone, Copy)]
struct Line {
    sum: u8,
    next: usize,
}

impl<'a> Reader<'a> {
    // The text's records into the scratch, and how many bytes they give.
    fn collect(&self, scratch: &mut [u16; image::IMAGE_BYTES]) -> Result<u32, ReadError>
        requires { scratch.old ≡ unfilled }
        ensures { Collected self.now.text.now scratch.new result }
    {
        let mut bytes = [0u8; RECORD_MOST];
        let mut at = 0usize;
        let mut count = 0u32;
        // A turn passes a line, however long it is, so no range counts its places.
        while at < self.text.len() {
            let place = at as u32;
            let Some(line) = self.parse(at, &mut bytes) else {
                return Err(self.bad_line(at));
            };
            let after = line.next as u32;
            if line.sum != 0 {
                return Err(ReadError::BadSum(place));
            }
            let n = bytes[0] as usize;
            let address = address_of(&bytes);
            match Kind::try_from(bytes[3]) {
                Ok(Kind::Data) => {}
                Ok(Kind::End) => {
                    if n != 0 || address != 0 {
                        return Err(ReadError::BadType(place));
                    }
                    if line.next < self.text.len() {
                        return Err(ReadError::BadEnd(after));
                    }
                    return Ok(count);
                }
                Err(_) => return Err(ReadError::BadType(place)),
            }
            if image::IMAGE_BYTES < address + n {
                return Err(ReadError::PastEnd(place));
            }
            if !store(&bytes[4..4 + n], &mut scratch[address..address + n]) {
                return Err(ReadError::GivenTwice(place));
            }
            count += n as u32;
            at = line.next;
        }
        let end = at as u32;
        Err(ReadError::BadEnd(end))
    }

    // The record of the line that starts at a place, into bytes.
    fn parse(&self, at: usize, bytes: &mut [u8; RECORD_MOST]) -> Option<Line>
        requires { at < length self.now.text.now }
        ensures { Parsed self.now.text.now at bytes.new result }
    {
        if self.text.len() - at < LINE_LEAST || self.text[at] != COLON {
            return None;
        }
        let given = self.byte_at(at + 1)?;
        let n = FRAME + given as usize;
        let end = at + 1 + 2 * n;
        if self.text.len() < end {
            return None;
        }
        let sum = self.decode(at + 1, &mut bytes[..n])?;
        let next = self.past_end(end)?;
        Some(Line { sum, next })
    }

    // What is wrong with a line without the record's shape: its first bad character, or, where each is in its place, the line's start.
    fn bad_line(&self, at: usize) -> ReadError
        requires { at < length self.now.text.now }
        ensures { said (Err result) ≡ fault_said (body_of (drop at self.now.text.now)) at 20 }
    {
        let start = at as u32;
        for k in 0..self.text.len() - at {
            let place = at + k;
            if !self.belongs(k, self.text[place]) {
                let here = place as u32;
                if self.past_end(place).is_some() {
                    return ReadError::BadShape(start);
                }
                return ReadError::BadCharacter(here);
            }
        }
        ReadError::BadShape(start)
    }

    // Whether a character belongs in its place of a line.
    fn belongs(&self, place: usize, c: u8) -> bool
        ensures { result ≡ records_belongs place c }
    {
        if place == 0 {
            return c == COLON;
        }
        self.digits[c as usize] < 16
    }

    // Bytes of two digits each, from a place on, with their eight-bit sum, carries dropped. It is none where one is no digit, which the bits of all
    // values together tell at the end, so that nothing but the length ends the loop.
    // Not by the kit's `hex`, which gives no sum, and whose loop ends at the first bad digit: with such a loop reading took a ninth longer, past the goal of 1.1.
    fn decode(&self, from: usize, bytes: &mut [u8]) -> Option<u8>
        requires { from + 2 * length bytes.old ≤ length self.now.text.now }
        ensures { Decoded self.now.text.now from (length bytes.old) bytes.new result }
    {
        let mut sum = 0u8;
        let mut all = 0u8;
        for (i, byte) in bytes.iter_mut().enumerate() {
            let place = from + 2 * i;
            let high = self.digits[self.text[place] as usize];
            let low = self.digits[self.text[place + 1] as usize];
            all |= high | low;
            let value = 16 * (high % 16) + low % 16;
            sum = sum.wrapping_add(value);
            *byte = value;
        }
        if 15 < all { None } else { Some(sum) }
    }

    // The byte that the two digits at a place spell, where they are digits.
    // The kit's `hex::decode_to_slice` is no plainer: for one byte it asks for an array of one that is lent, and for a result that is read from there.
    fn byte_at(&self, place: usize) -> Option<u8>
        requires { place + 2 ≤ length self.now.text.now }
        ensures { result ≡ spelled_at self.now.text.now place }
    {
        let high = self.digits[self.text[place] as usize];
        let low = self.digits[self.text[place + 1] as usize];
        if 15 < high || 15 < low {
            None
        } else {
            Some(16 * high + low)
        }
    }

    // Where the line after a line's end starts, if an end stands here.
    // By tests: of slice patterns (`[CR, LF, ..]`) the proof did not close, as `omega` is told nothing of the elements that a pattern names.
    fn past_end(&self, place: usize) -> Option<usize>
        requires { place ≤ length self.now.text.now }
        ensures { result ≡ passes_end self.now.text.now place }
    {
        if place == self.text.len() {
            Some(place)
        } else if self.text[place] == LF {
            Some(place + 1)
        } else if self.text[place] == CR
            && place + 1 < self.text.len()
            && self.text[place + 1] == LF
        {
            Some(place + 2)
        } else {
            None
        }
    }
}

// The address that a record's bytes give, the high byte first.
fn address_of(bytes: &[u8; RECORD_MOST]) -> usize
    ensures value { result ≡ address_of bytes.now }
    ensures small { result < 65536 }
{
    u16::from_be_bytes([bytes[1], bytes[2]]) as usize
}

// The data of a record into its part of the scratch, and whether none of its bytes was there already: each is written all the same, so that
// nothing but the length ends the loop.
// One slice is read by index: over a `zip` with an `iter_mut` a loop's invariant has no name for the part.
fn store(given: &[u8], part: &mut [u16]) -> bool
    requires { length given.now ≡ length part.old }
    ensures { Stored given.now part.old part.new result }
{
    let mut fresh = true;
    for (i, held) in part.iter_mut().enumerate() {
        if *held < NOT_GIVEN {
            fresh = false;
        }
        *held = given[i] as u16;
    }
    fresh
}

// The scratch as bytes, read by index as in `store`.
fn copy_out(scratch: &[u16; image::IMAGE_BYTES], image: &mut [u8])
    requires { length image.old ≡ image_bytes }
    ensures { image.new ≡ map byte_for scratch.now }
{
    for (i, byte) in image.iter_mut().enumerate() {
        *byte = byte_of(scratch[i]);
    }
}

fn byte_of(x: u16) -> u8
    ensures { result ≡ byte_for x }
{
    u8::try_from(x).unwrap_or(image::UNUSED)
}
