// The write port of the display's RAM: an address, an attribute and a character register, and 64 words.
// A host lends its one port to every call, which leaves kept bits only, in each register and each word, whatever was there before.
#![tactic(auto)]

ghost use Rattle.std.specs.Prelude.{◌≡◌, map};
ghost use Rattle.port.specs.Port.{kept_word, kept_of, fresh_port, address_written, attribute_written, character_written};

#[repr(C)]
#[derive(Clone, Copy)]
pub struct Port {
    pub address: u8,
    pub attribute: u8,
    pub character: u8,
    pub words: [u16; 64],
}

// How many values a register of 6 bits, one of 4 bits and a word of 10 bits have.
const SIX_BITS: u8 = 64;

const FOUR_BITS: u8 = 16;

const TEN_BITS: u16 = 1024;

impl Port {
    // A port that holds 0 everywhere.
    pub fn fresh() -> Port
        ensures { result ≡ fresh_port }
    {
        Port {
            address: 0,
            attribute: 0,
            character: 0,
            words: [0; 64],
        }
    }

    // A write to the address register.
    pub fn write_address(&mut self, byte: u8)
        ensures { self.new ≡ address_written self.old byte }
    {
        self.keep();
        self.address = byte % SIX_BITS;
    }

    // A write to the attribute register.
    pub fn write_attribute(&mut self, byte: u8)
        ensures { self.new ≡ attribute_written self.old byte }
    {
        self.keep();
        self.attribute = byte % FOUR_BITS;
    }

    // A write to the character register: code and attribute are stored at the address, which goes on.
    pub fn write_character(&mut self, byte: u8)
        ensures { self.new ≡ character_written self.old byte }
    {
        self.keep();
        self.character = byte % SIX_BITS;
        let word = self.character as u16 * FOUR_BITS as u16 + self.attribute as u16;
        self.words[self.address as usize] = word;
        self.address = (self.address + 1) % SIX_BITS;
    }

    // Leaves the kept bits only.
    fn keep(&mut self)
        ensures { self.new ≡ kept_of self.old }
    {
        self.address %= SIX_BITS;
        self.attribute %= FOUR_BITS;
        self.character %= SIX_BITS;
        keep_words(&mut self.words);
    }
}

fn keep_words(words: &mut [u16])
    ensures { words.new ≡ map kept_word words.old }
{
    for word in words.iter_mut() {
        *word %= TEN_BITS;
    }
}
