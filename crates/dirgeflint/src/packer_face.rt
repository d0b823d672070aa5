// The packer of drawn glyphs.
ghost use Rattle.std.specs.Prelude.{◌≡◌, length};
ghost use Rattle.answer.specs.Told.{told};
ghost use Rattle.packer.specs.Packing.{answer_of, font_left, cells_left};

use answer::Answer;

// Packs glyphs into the first 1,116 rows of a font, with the cell of each. Value: how many cells they take; or number 16, 17 or 6.
#[unsafe(no_mangle)]
pub extern "C" fn dirgeflint_pack(glyphs: &[u16], font: &mut [u16], cells: &mut [u8]) -> Answer
    ensures { (told result ≡ answer_of glyphs.now (length font.old) (length cells.old))
        × (font.new ≡ font_left glyphs.now font.old cells.old)
        × (cells.new ≡ cells_left glyphs.now font.old cells.old) }
{
    Answer::from(packer::pack(glyphs, font, cells))
}
