// The painter of the on-screen display: one line of dots from display words, font, settings and frame number.
#![tactic(auto)]

ghost use Rattle.std.specs.Prelude.{◌≡◌, false, ◌*◌, ◌/◌, ◌≤◌, ◌<◌, length};
ghost use Rattle.laws.specs.Lines.{overlay};
ghost use Rattle.laws.specs.Lists.{tabulate};
ghost use Rattle.font.specs.Font.{font_cells, font_rows, rows_of_cell, cell_columns, font_dot};
ghost use Rattle.judging.specs.Judging.{answer_of, said};
ghost use Rattle.stretch.specs.Stretch.{stretched};
ghost use Rattle.display.specs.Words.{kind_of, kinds_of};
ghost use Rattle.display.specs.Cells.{placed_at, right_of, below_row, row_pen, cells_from};
ghost use Rattle.display.specs.Picture.{steady_or, dot_at};
ghost use Rattle.display.specs.Painting.{view_of, screen_of, left_by};
ghost use Rattle.display.specs.Steps.{painted, pen_at, handed, drawn, blank_row, above_at, shows_row, ink_of, end_of, most_size, most_spacing, far, Sound, Usable, Room, CellAsks, DrawAsks};

use judging::{PaintError, Settings};
use stretch::{Ink, Row};
use units::{Dots, Lines};

// What a word is.
#[derive(Clone, Copy)]
pub enum Kind {
    Character {
        colour: u8,
        code: usize,
        blink: bool,
    },
    Space {
        background: u8,
    },
    Return {
        size: usize,
        spacing: Lines,
    },
    End,
}

// A word of the decoded screen: where it stands, its row's size, and what it is.
#[derive(Clone, Copy)]
struct Placed {
    x: Dots,
    y: Lines,
    size: usize,
    kind: Kind,
}

// Where the next word stands, and the background by then. No bound of its size is a field: `row_pen` and `right_of` of specs/ make pens of any size.
#[derive(Clone, Copy)]
pub struct Pen {
    x: Dots,
    y: Lines,
    size: usize,
    background: u8,
}

// What stays the same over a line: where rows start, the line, the mode, and whether blinking characters are lit. The mode is a number, as `modes::ground` takes one.
#[derive(Clone, Copy)]
pub struct View {
    left: Dots,
    line: Lines,
    mode: u32,
    lit: bool,
}

// What paints a line's rows and cells: the font, and what stays the same over the line.
#[derive(Clone, Copy)]
struct Painter<'a> {
    font: &'a [u16],
    view: View,
    ghost whole: { length font.now ≡ font_rows },
}

// The codes that are no characters.
const RETURN: u16 = 62;

const SPACE: u16 = 63;

// Paints the first `width` dots of a line to `out`; the bytes after them stay, and all stay where the call is refused.
pub fn paint(
    words: &[u16],
    font: &[u16],
    settings: Settings,
    frame: u32,
    line: Lines,
    width: Dots,
    out: &mut [u8],
) -> Result<(), PaintError>
    ensures { (said result ≡ answer_of words.now font.now settings line width (length out.old)) × (out.new ≡ left_by words.now font.now settings frame line width out.old) }
{
    judging::judged(words, font, settings, line, width, out.len())?;
    let dots = &mut out[..width.0];
    if settings.on {
        paint_line(words, font, settings, frame, line, dots);
    } else {
        fill::fill(dots, 0);
    }
    Ok(())
}

// The line with the display on: all outside, then the cells over it.
fn paint_line(
    words: &[u16],
    font: &[u16],
    settings: Settings,
    frame: u32,
    line: Lines,
    out: &mut [u8],
)
    requires { Usable words.now font.now settings }
    ensures { out.new ≡ tabulate (length out.old) (dot_at (font_dot font.now) (view_of settings frame line) settings.colour (screen_of (kinds_of words.now) settings)) }
{
    let lit = modes::lit(settings.ratio, settings.frequency, frame);
    let x = 4 * settings.h as usize;
    let y = 4 * settings.v as usize;
    let view = View {
        left: Dots(x),
        line,
        mode: settings.mode,
        lit,
    };
    let start = settings.colour as u8;
    fill::fill(out, modes::ground(settings.mode, false, false, start));
    let painter = Painter { font, view };
    painter.row_step(words, Lines(y), 1, start, out);
}

impl<'a> Painter<'a> {
    // A row of this size starts at line `top` with these words. The words of rows above the line are passed over, the row that the line cuts goes to the cell step, and below the
    // line nothing is left.
    #[cycle(cell_step_row_step)]
    fn row_step(self, words: &[u16], top: Lines, height: usize, background: u8, out: &mut [u8])
        requires { Room self.view (row_pen self.view.left top height background) (length words.now) }
        ensures { out.new ≡ overlay (painted (font_dot self.entry.font.now) self.entry.view false (cells_from self.entry.view.left (kinds_of words.now) (row_pen self.entry.view.left top height background))) out.old }
    {
        let line = self.view.line.0;
        let mut y = top.0;
        let mut size = height;
        let mut back = background;
        for (i, word) in words.iter().enumerate() {
            let end = y + font::CELL_ROWS * size;
            if line < end {
                if line < y {
                    return;
                }
                let pen = Pen {
                    x: self.view.left,
                    y: Lines(y),
                    size,
                    background: back,
                };
                self.cell_step(&words[i..], pen, out);
                return;
            }
            match Kind::decode(*word) {
                Kind::End => return,
                Kind::Return {
                    size: next,
                    spacing,
                } => {
                    y = end + spacing.0;
                    size = next;
                }
                Kind::Space { background } => back = background,
                Kind::Character { .. } => {}
            }
        }
    }

    // The row that the line cuts: the cells of its words, of which the first stands at the pen. Each cell hands the next what its last column throws, and what the row's last
    // cell throws falls on what comes after it. The rest of the words goes to the row step.
    #[cycle(cell_step_row_step)]
    fn cell_step(self, words: &[u16], start: Pen, out: &mut [u8])
        requires { CellAsks self.view start (length words.now) }
        ensures { out.new ≡ overlay (painted (font_dot self.entry.font.now) self.entry.view false (cells_from self.entry.view.left (kinds_of words.now) start)) out.old }
    {
        let mut pen = start;
        let mut thrown = false;
        for (i, word) in words.iter().enumerate() {
            let cell = pen.place(*word);
            thrown = self.draw(cell, pen.background, thrown, out);
            match cell.kind {
                Kind::End => return,
                Kind::Return { size, spacing } => {
                    let y = cell.below(spacing);
                    self.row_step(&words[i + 1..], y, size, pen.background, out);
                    return;
                }
                Kind::Space { background } => pen = pen.right(background),
                Kind::Character { .. } => pen = pen.right(pen.background),
            }
        }
        end_row(pen.x, pen.size, thrown, out);
    }

    // Paints the cell of a word in the row that the line cuts; `background` is the one before the word, and the cell before throws its shadow on this one or not. A return and an
    // end have no cell: what is thrown falls on what comes after the row. The answer is whether this cell throws its shadow on the next.
    fn draw(self, cell: Placed, background: u8, thrown: bool, out: &mut [u8]) -> bool
        requires { DrawAsks self.view cell background }
        ensures { (result ≡ handed self.entry.font.now self.entry.view (pen_at cell background) cell.kind) × (out.new ≡ overlay (drawn (font_dot self.entry.font.now) self.entry.view thrown (pen_at cell background) cell.kind) out.old) }
    {
        let x = cell.x;
        let size = cell.size;
        match cell.kind {
            Kind::Character {
                colour,
                code,
                blink,
            } => {
                let l = cut_row(self.view.line.0 - cell.y.0, size);
                let row = self.row_shown(code, blink, l, thrown);
                lay(x, size, row, self.view.mode, 8 + colour, background, out);
                row.above % 2 == 1
            }
            Kind::Space { background: own } => {
                lay(x, size, blank(thrown), self.view.mode, 0, own, out);
                false
            }
            Kind::Return { .. } | Kind::End => {
                end_row(x, size, thrown, out);
                false
            }
        }
    }

    // Row l of a character and, in mode 1, the row above it, with what falls on the first column: no dots where it is blinked out, and none above its first row.
    fn row_shown(self, code: usize, blink: bool, l: usize, thrown: bool) -> Row
        requires { (code < font_cells) × (l < rows_of_cell) }
        ensures { result ≡ shows_row self.entry.font.now self.entry.view code blink l thrown }
    {
        if self.view.shows(blink) {
            let at = font::CELL_ROWS * code + l;
            Row {
                bits: self.font[at],
                above: row_above(self.font, self.view.mode, at, l),
                before: thrown,
            }
        } else {
            blank(thrown)
        }
    }
}

impl Pen {
    // A word where the pen is.
    fn place(self, word: u16) -> Placed
        ensures { (result ≡ placed_at self (kind_of word)) × Sound result.kind }
    {
        Placed {
            x: self.x,
            y: self.y,
            size: self.size,
            kind: Kind::decode(word),
        }
    }

    // Where the next cell of the row stands, with the background from there on.
    fn right(self, background: u8) -> Pen
        requires { (self.x.0 ≤ far) × (self.size ≤ most_size) }
        ensures { result ≡ right_of self background }
    {
        Pen {
            x: Dots(self.x.0 + font::CELL_COLUMNS * self.size),
            y: self.y,
            size: self.size,
            background,
        }
    }
}

impl Placed {
    // Where the next row starts.
    fn below(self, spacing: Lines) -> Lines
        requires { (self.y.0 ≤ far) × ((self.size ≤ most_size) × (spacing.0 ≤ most_spacing)) }
        ensures { result ≡ below_row self.y self.size spacing }
    {
        Lines(self.y.0 + font::CELL_ROWS * self.size + spacing.0)
    }
}

impl View {
    // Whether a character shows its dots: a blinking one only while it is lit.
    fn shows(self, blink: bool) -> bool
        ensures { result ≡ steady_or blink self.lit }
    {
        !blink || self.lit
    }
}

impl Kind {
    // What a word is, by the ten bits that are kept of it. No `From`: decoding is to be no call of its own (docs/DECISIONS.md), and an impl of a public type is one.
    fn decode(word: u16) -> Kind
        ensures { result ≡ kind_of word }
    {
        let code = word / 16 % 64;
        let colour = (word / 2 % 8) as u8;
        let mark = word % 2 == 1;
        match code {
            SPACE if mark => Kind::End,
            SPACE => Kind::Space { background: colour },
            RETURN => Kind::Return {
                size: (word / 4 % 4 + 1) as usize,
                spacing: Lines((word % 4 * 4) as usize),
            },
            _ => Kind::Character {
                colour,
                code: code as usize,
                blink: mark,
            },
        }
    }
}

// A cell's row from dot x on: `on` for its dots, and for the others what the mode shows on this background, in the shadow and out of it.
fn lay(x: Dots, size: usize, row: Row, mode: u32, on: u8, background: u8, out: &mut [u8])
    requires { size ≤ most_size }
    ensures { out.new ≡ overlay (stretched x.0 (cell_columns * size) size row (ink_of mode on background)) out.old }
{
    let ink = Ink {
        on,
        shade: modes::ground(mode, true, true, background),
        off: modes::ground(mode, true, false, background),
    };
    stretch::stretch(out, x, size as u8, row, ink);
}

// What a row's last cell throws falls on the first column after it. Only in mode 1 is anything thrown.
fn end_row(x: Dots, size: usize, thrown: bool, out: &mut [u8])
    requires { size ≤ most_size }
    ensures { out.new ≡ overlay (end_of x size thrown) out.old }
{
    if thrown {
        stretch::strip(out, x, size as u8, modes::ground(1, false, true, 0));
    }
}

// A row without dots, of a space or of a character that is blinked out: it throws no shadow, but one falls on it.
fn blank(thrown: bool) -> Row
    ensures { result ≡ blank_row thrown }
{
    Row {
        bits: 0,
        above: 0,
        before: thrown,
    }
}

// The row above row l, which stands at this place of the font and throws the shadow: none in other modes than 1, and none above row 0.
fn row_above(font: &[u16], mode: u32, at: usize, l: usize) -> u16
    requires { (at < length font.now) × (l ≤ at) }
    ensures { result ≡ above_at font.now mode at l }
{
    if mode == 1 && 0 < l { font[at - 1] } else { 0 }
}

// The font row that a line cuts, by its distance from the cell's top. There are four sizes only, and to divide by the size, tried, took a twentieth longer.
fn cut_row(distance: usize, size: usize) -> usize
    requires { (1 ≤ size) × (size ≤ most_size) }
    ensures { result ≡ distance / size }
{
    match size {
        1 => distance,
        2 => distance / 2,
        3 => distance / 3,
        _ => distance / 4,
    }
}
