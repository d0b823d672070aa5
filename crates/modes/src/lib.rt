// The table of modes, and blinking: what shows where no character is lit, and when a blinking character is lit.
#![tactic(auto)]

ghost use Rattle.std.specs.Prelude.{◌≡◌, ◌%◌, ◌≤◌, ◌<◌};
ghost use Rattle.modes.specs.Modes.{ground_byte, divisor_of, lit_in};

// What a dot shows that no character lights, in a cell or outside every cell, in a shadow or not. Of a colour the three low bits count, and a mode above 3 counts as 3.
// A mode is a number and no enum here, as the promise takes every number (`ground_byte`) and the settings that C hands over have one.
pub fn ground(mode: u32, inside: bool, shaded: bool, back: u8) -> u8
    ensures { result ≡ ground_byte mode inside shaded (back % 8) }
{
    match mode {
        0 => 0,
        1 if shaded => 8,
        1 => 0,
        2 if !inside => 0,
        _ => 8 + back % 8,
    }
}

// Whether this frame is in the lit part of a blinking character. Of ratio and frequency the two low bits count; with ratio 3 no frame is lit.
pub fn lit(ratio: u32, frequency: u32, frame: u32) -> bool
    ensures { result ≡ lit_in (ratio % 4) (frequency % 4) frame }
{
    let frames = divisor(frequency % 4);
    let part = 3 - ratio % 4;
    frame % frames < part * frames / 4
}

// How many frames a blink takes.
fn divisor(frequency: u32) -> u32
    requires { frequency < 4 }
    ensures { (result ≡ divisor_of frequency) × ((16 ≤ result) × (result ≤ 128)) }
{
    16 << frequency
}
