// Where a carrier is free: 'no wall cell shares a unit square with it', by the covered cells.
ghost use Rattle.std.specs.Prelude.{◌≡◌, ◌+◌, ◌*◌, ◌^◌, ◌≤◌, ◌<◌, pos, length};
ghost use Rattle.yard.specs.Free.{free_on};
ghost use Rattle.yard.specs.Search.{FirstWall, Finds, row_of, block_of};

use super::world::{Ground, Yard};

// Cells from column left and row top up to, not with, column right and row bottom.
#[derive(Clone, Copy)]
pub struct Block {
    pub left: usize,
    pub right: usize,
    pub top: usize,
    pub bottom: usize,
}

#[derive(Clone, Copy)]
pub struct Cell {
    pub column: usize,
    pub row: usize,
}

// The index of the first wall among these cells.
fn first_wall(cells: &[u8]) -> Option<usize>
    ensures first { FirstWall cells.now result }
{
    cells.iter().position(|cell| *cell == Yard::WALL)
}

impl Ground<'_> {
    fn row(&self, row: usize) -> &[u8]
        requires row { row < self.now.yard.h }
        ensures cells { result.now ≡ row_of self.now.yard self.now.cells.now row }
        ensures long { length result.now ≡ self.now.yard.w }
    {
        let w = self.yard.w as usize;
        &self.cells[row * w..(row + 1) * w]
    }

    // The first wall of a block: lowest row, then lowest column.
    fn wall_in(&self, block: Block) -> Option<Cell>
        requires columns { (block.left ≤ block.right) × (block.right ≤ self.now.yard.w) }
        requires rows { (block.top ≤ block.bottom) × (block.bottom ≤ self.now.yard.h) }
        ensures met { Finds self.now.yard self.now.cells.now block result }
    {
        for row in block.top..block.bottom {
            let cells = &self.row(row)[block.left..block.right];
            if let Some(on) = first_wall(cells) {
                return Some(Cell {
                    column: block.left + on,
                    row,
                });
            }
        }
        None
    }

    // The cells that the carrier covers at (x, y).
    fn block_at(&self, x: usize, y: usize) -> Block
        requires word { (x ≤ 2 ^ 31) × (y ≤ 2 ^ 31) }
        ensures covered { result ≡ block_of self.now.size x y }
    {
        Block {
            left: x / Yard::CELL,
            right: (x + self.size.w - 1) / Yard::CELL + 1,
            top: y / Yard::CELL,
            bottom: (y + self.size.h - 1) / Yard::CELL + 1,
        }
    }

    // Free at a place that is not negative.
    #[tactic(auto, using(crate::proofs::Squares::edges))]
    fn free_at(&self, x: usize, y: usize) -> bool
        requires word { (x ≤ 2 ^ 31) × (y ≤ 2 ^ 31) }
        ensures place { result ≡ free_on self.now (pos x) (pos y) }
    {
        x + self.size.w <= Yard::CELL * self.yard.w as usize
            && y + self.size.h <= Yard::CELL * self.yard.h as usize
            && self.wall_in(self.block_at(x, y)).is_none()
    }

    // Whether the carrier is free at (x, y), for any words.
    #[tactic(auto, using(crate::proofs::Squares::signs))]
    pub fn is_free(&self, x: i32, y: i32) -> bool
        ensures place { result ≡ free_on self.now x y }
    {
        x >= 0 && y >= 0 && self.free_at(x as usize, y as usize)
    }
}
