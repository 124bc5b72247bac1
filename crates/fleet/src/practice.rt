// The practice yard (document 01, 'The program'); specs/Examples.antt has it as a world.
use yard::Yard;

#[derive(Drop)]
pub struct Practice {}

impl Practice {
    // 'W 4, H 3', 'one carrier'.
    pub const YARD: Yard = Yard { w: 4, h: 3, b: 1 };
    // 'the only wall at column 3, row 1', row by row.
    pub const CELLS: [u8; 12] = [0, 0, 0, 0, 0, 0, 0, 1, 0, 0, 0, 0];
    // '256 by 256 at (0, 256)'.
    pub const BOXES: [i32; 4] = [0, 256, 256, 256];
}
