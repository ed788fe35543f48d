//! The picture of a map of heights, byte for byte: its checks by Python's zlib, and all else by the
//! description of PNG.
use crate::checks::{holds, same};
use ngc_cells::{Grid, Spot};
use ngc_map_picture::{Relief, write_map};
use ngc_text::Device;
use std::process::Abort;
use std::test::Fail;

// Bytes of the picture of four cells, and the byte that they begin at: 2 by 2 pixels of 8 bits with a palette;
// its length, the first three colours and the first grey; and all after its last colour.
const PARTS: &[(usize, &[u8])] = &[
    (
        0,
        b"\x89PNG\x0d\x0a\x1a\x0a\x00\x00\x00\x0dIHDR\x00\x00\x00\x02\x00\x00\x00\x02\x08\x03\x00\x00\x00Eh\xfd\x16",
    ),
    (
        33,
        b"\x00\x00\x03\x00PLTE\xe6\x00\x00\xaa\xc8\xe6\x00(n\x03\x03\x03",
    ),
    (
        809,
        b"\xadF~i\
            \x00\x00\x00\x02IDATx\x01\xec\x1a~\xd2\
            \x00\x00\x00\x0bIDAT\x01\x06\x00\xf9\xff\x00\x01\x00\x00\x81\x02#]5\x02\
            \x00\x00\x00\x04IDAT\x01\x0f\x00\x85\xc4\x11\xb0\xf0\
            \x00\x00\x00\x00IEND\xaeB`\x82",
    ),
];

// Half of a block of four cells is cut: the first cell to its middle, and the next one through. Motions may
// touch the last one. The first pixel is that of the third cell, which is whole.
#[test]
fn a_map_of_four_cells(rt: HostRuntime) -> Result<(), Fail> {
    let relief = Relief {
        grid: Grid {
            corner: Spot { x: 0, y: 0 },
            half: 1_000,
            columns: 2,
            rows: 2,
        },
        top: 1_000,
        heights: &[500, 0, 1_000, 1_000],
        touched: &[false, false, false, true],
        side: 1,
    };
    let mut sink = Device::new(Vec::new(rt.alloc()));
    same(&rt, &"done", &write_map(&relief, &mut sink).is_ok(), &true);
    let written = sink.into_inner();
    same(&rt, &"length", &written.len(), &878);
    for (first, bytes) in PARTS {
        let is_there = match written.as_slice().get(*first..) {
            Some(rest) => rest.starts_with(bytes),
            None => false,
        };
        holds(&rt, first, is_there);
    }
    Ok(())
}
