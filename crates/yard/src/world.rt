// 'The yard and its carriers': W, H and B, the carriers' words, and where one carrier moves.
ghost use Rattle.std.specs.Prelude.{◌≡◌, ◌+◌, ◌*◌, ◌≤◌, ◌<◌, length};
ghost use Rattle.yard.specs.Boxes.{CellsFit, SizeFits, word, word_number, size_of};

use super::words::magnitude;

// W by H cells, B carriers.
#[derive(Clone, Copy)]
pub struct Yard {
    pub w: u32,
    pub h: u32,
    pub b: u32,
}

impl Yard {
    // 'each of W and H from 1 to 64'.
    pub const SIDE: u32 = 64;
    // '256 units are one cell'.
    pub const CELL: usize = 256;
    // '0 is open, 1 is wall'.
    pub const WALL: u8 = 1;
}

// 'for each carrier x, y, w, h in that order'.
#[derive(Clone, Copy)]
pub enum Word {
    X,
    Y,
    W,
    H,
}

impl Word {
    // The words of a carrier.
    pub const COUNT: usize = 4;
}

// A word of carrier i.
pub fn word_of(boxes: &[i32], i: usize, which: Word) -> i32
    requires room { (i < 32) × (4 * i + 4 ≤ length boxes.now) }
    ensures read { result ≡ word boxes.now i (word_number which) }
{
    boxes[Word::COUNT * i + which as usize]
}

// A carrier's box: w by h units.
#[derive(Clone, Copy)]
pub struct Size {
    pub w: usize,
    pub h: usize,
}

impl Size {
    // 'each 1 to 1,024 units'.
    pub const MOST: i32 = 1_024;

    // The size of carrier i.
    #[tactic(auto, unfolding(crate::specs::Boxes::size_of))]
    pub fn at(boxes: &[i32], i: usize) -> Self
        requires room { (i < 32) × (4 * i + 4 ≤ length boxes.now) }
        ensures size { result ≡ size_of boxes.now i }
    {
        Self {
            w: magnitude(word_of(boxes, i, Word::W)),
            h: magnitude(word_of(boxes, i, Word::H)),
        }
    }
}

// Where one carrier moves: the cells of the yard, and the carrier's size.
#[derive(Clone, Copy)]
pub struct Ground<'a> {
    pub yard: Yard,
    pub cells: &'a [u8],
    pub size: Size,
    pub ghost laid: { CellsFit yard cells.now },
    pub ghost sized: { SizeFits size },
}
