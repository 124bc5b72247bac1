// Rule 9, a test for each of its parts in their order: ranges; then cells, sizes, starts.
ghost use Rattle.std.specs.Prelude.{◌≡◌, true, ◌+◌, ◌*◌, ◌≤◌, ◌<◌, length};
ghost use Rattle.yard.specs.Ranges.{from_one};
ghost use Rattle.yard.specs.Boxes.{CellsFit, BoxesFit, SizeFits, size_of};
ghost use Rattle.yard.specs.Rule9.{size_holds, sizes_hold, start_holds, starts_hold};
ghost use Rattle.yard.specs.Says.{RangesHoldSays, CellsHoldSays};

use super::words::is_between;
use super::world::{Ground, Size, Word, Yard, word_of};

// 1 to most.
fn is_from_one(n: u32, most: u32) -> bool
    ensures range { result ≡ from_one n most }
{
    (1..=most).contains(&n)
}

// W, H and B are in range.
#[tactic(auto, unfolding(crate::specs::Rule9::ranges_hold))]
pub fn ranges_hold(yard: Yard) -> bool
    ensures ranges { RangesHoldSays yard result }
{
    is_from_one(yard.w, Yard::SIDE)
        && is_from_one(yard.h, Yard::SIDE)
        && is_from_one(yard.b, basis::Limit::CARRIERS)
}

// `room`, below, asks of any words that are long enough: `word_of` and `Size::at` promise as much
// of worlds that are not tested yet, of which a type over `BoxesFit` would ask more. Sizes and
// starts have a test each, as the rule has.

// No cell byte is above 1.
pub fn cells_hold(cells: &[u8]) -> bool
    ensures cells { CellsHoldSays cells.now result }
{
    cells.iter().all(|cell| *cell <= Yard::WALL)
}

#[tactic(auto, unfolding(crate::specs::Rule9::size_holds))]
fn size_holds(boxes: &[i32], i: usize) -> bool
    requires room { (i < 32) × (4 * i + 4 ≤ length boxes.now) }
    ensures size { result ≡ size_holds boxes.now i }
{
    is_between(1, word_of(boxes, i, Word::W), Size::MOST)
        && is_between(1, word_of(boxes, i, Word::H), Size::MOST)
}

// Every size is in range.
pub fn sizes_hold(yard: Yard, boxes: &[i32]) -> bool
    requires room { BoxesFit yard boxes.now }
    ensures sizes { result ≡ sizes_hold yard boxes.now }
{
    (0..yard.b as usize).all(|i| size_holds(boxes, i))
}

#[tactic(auto, unfolding(crate::specs::Rule9::start_holds))]
fn start_holds(yard: Yard, cells: &[u8], boxes: &[i32], i: usize) -> bool
    requires laid { CellsFit yard cells.now }
    requires room { (i < 32) × (4 * i + 4 ≤ length boxes.now) }
    requires sized { SizeFits (size_of boxes.now i) }
    ensures start { result ≡ start_holds yard cells.now boxes.now i }
{
    let size = Size::at(boxes, i);
    Ground { yard, cells, size }.is_free(word_of(boxes, i, Word::X), word_of(boxes, i, Word::Y))
}

// Every start is free; the sizes hold.
pub fn starts_hold(yard: Yard, cells: &[u8], boxes: &[i32]) -> bool
    requires laid { CellsFit yard cells.now }
    requires room { BoxesFit yard boxes.now }
    requires sized { sizes_hold yard boxes.now ≡ true }
    ensures starts { result ≡ starts_hold yard cells.now boxes.now }
{
    (0..yard.b as usize).all(|i| start_holds(yard, cells, boxes, i))
}
