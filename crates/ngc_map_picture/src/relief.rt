//! A map of heights, and the colour of each pixel of its picture.
ghost use Rattle.std.specs.Prelude.{◌≡◌, ◌<◌, ◌≤◌};
ghost use Rattle.ngc_map_picture.specs.Maps.{shade, usual_side};

use ngc_cells::Grid;

/// What is left of a block of material: for each cell of a grid the height of its material, in
/// nanometres from the bottom, and whether it is marked since something may touch material there.
/// `top` is the height of the whole block, and `side` the number of pixels along a side of a cell: from 1
/// to 1000.
#[derive(Clone, Copy)]
pub struct Relief<'a> {
    pub grid: Grid,
    pub top: u32,
    pub heights: &'a [u32],
    pub touched: &'a [bool],
    pub side: u32,
}

/// Returns a usual number of pixels along a side of a cell: the greatest with which a picture is at most
/// 1000 pixels wide and high, or one.
#[tactic(auto, using(crate::proofs::Rows::few_pixels))]
pub fn usual_side(grid: &Grid) -> u32
    requires { 0 < grid.now.columns }
    ensures value { result ≡ usual_side grid.now }
    ensures most { result ≤ 1000 }
    ensures least { 0 < result }
{
    (1000 / grid.columns.max(grid.rows)).max(1)
}

/// Returns the index of a cell's colour.
#[tactic(auto, using(crate::proofs::Rows::grey_fits))]
fn shade(top: u32, high: u32, touched: bool) -> u8
    ensures { result ≡ shade top high touched }
{
    if touched {
        0
    } else if high == 0 {
        2
    } else if high < top {
        (3 + u64::from(high) * 253 / u64::from(top)) as u8
    } else {
        1
    }
}

impl<'a> Relief<'a> {
    ghost use Rattle.std.specs.Prelude.{◌≡◌, ◌*◌, ◌<◌};
    ghost use Rattle.ngc_map_picture.specs.Maps.{IsRelief, cell_at, pixel, width, height};

    /// Returns how many pixels wide the picture is.
    pub(crate) fn width(&self) -> u32
        requires { IsRelief self.now }
        ensures { result ≡ width self.now }
    {
        self.grid.columns * self.side
    }

    /// Returns how many pixels high the picture is.
    pub(crate) fn height(&self) -> u32
        requires { IsRelief self.now }
        ensures { result ≡ height self.now }
    {
        self.grid.rows * self.side
    }

    /// Returns the cell that a pixel shows.
    fn cell_at(&self, x: u32, y: u32) -> usize
        requires relief { IsRelief self.now }
        requires x { x < width self.now }
        requires y { y < height self.now }
        ensures value { result ≡ cell_at self.now x y }
        ensures within { result < self.now.grid.columns * self.now.grid.rows }
    {
        let row = self.grid.rows - 1 - y / self.side;
        let column = x / self.side;
        row as usize * self.grid.columns as usize + column as usize
    }

    /// Returns the index of the colour of a pixel.
    pub(crate) fn pixel(&self, x: u32, y: u32) -> u8
        requires relief { IsRelief self.now }
        requires x { x < width self.now }
        requires y { y < height self.now }
        ensures { result ≡ pixel self.now x y }
    {
        let cell = self.cell_at(x, y);
        shade(self.top, self.heights[cell], self.touched[cell])
    }
}
