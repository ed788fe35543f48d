//! Paths along arcs by columns, which no command uses, and the number of roots for the other ones.
ghost use Rattle.std.specs.Prelude.{◌≡◌, ◌≤◌, unsigned_abs};
ghost use Rattle.ngc_arc_geometry.specs.Shape.{IsNear};

use crate::checks::holds;
use ngc_arc_geometry::{Arc, Ends, Offsets};
use ngc_fixed_length::{Nm, Plane, Point3, Turn, Units};
use ngc_step_kernel::{ArcKernel, ArcPath, ColumnPath, Path};
use std::process::Abort;
use std::test::Fail;

fn length(rt: &impl Abort, nanometres: i64) -> Nm
    ensures value { result ≡ nanometres }
    ensures near { unsigned_abs result ≤ 90000000000 }
{
    assert!(rt; nanometres.unsigned_abs() <= 90_000_000_000);
    Nm::from_nanometres(i128::from(nanometres)).unwrap()
}

fn point(rt: &impl Abort, place: (i64, i64, i64)) -> Point3
    ensures { IsNear result }
{
    let (x, y, z) = place;
    Point3 {
        x: length(rt, x),
        y: length(rt, y),
        z: length(rt, z),
    }
}

// Returns an arc clockwise from zero about a point on its first axis.
fn arc(rt: &impl Abort, plane: Plane, end: (i64, i64, i64), centre: i64) -> Result<Arc, Fail> {
    let ends = Ends {
        plane,
        turn: Turn::Clockwise,
        start: point(rt, (0, 0, 0)),
        end: point(rt, end),
        has_axis_word: true,
    };
    let offsets = Offsets {
        u: Some(length(rt, centre)),
        v: None,
    };
    Ok(Arc::centre_format(Units::Millimetres, &ends, &offsets)?)
}

// The plane, the end and the centre of an arc, and the least number of moves of its path, in steps
// of 10,000 nm.
const ARCS: &[(Plane, (i64, i64, i64), i64, u64)] = &[
    (Plane::XY, (10_000_000, 0, 0), 5_000_000, 1_000),
    (Plane::XY, (0, 0, 0), 50_000, 10),
    (Plane::YZ, (1_000_000, 0, 0), 7_000_000, 2_792),
    (Plane::ZX, (0, 0, -10_000_000), -5_000_000, 1_000),
    (Plane::XY, (100, 0, 0), 2_000, 0),
];

fn run_to_its_end<K: ArcKernel>(path: &mut K) {
    for _ in 0..path.remaining() {
        if path.remaining() > 0 {
            path.advance();
        }
    }
}

#[test]
fn arcs_by_columns(rt: HostRuntime) -> Result<(), Fail> {
    for (plane, end, centre, moves) in ARCS {
        let arc = arc(&rt, *plane, *end, *centre)?;
        let mut path = ColumnPath::new(&arc, length(&rt, 10_000));
        holds(&rt, end, path.remaining() >= *moves);
        run_to_its_end(&mut path);
        let goal = point(&rt, *end).to_grid(length(&rt, 10_000));
        holds(&rt, end, path.remaining() == 0 && path.position() == goal);
    }
    Ok(())
}

// Roots are computed for a half circle at the start, and none afterwards.
#[test]
fn roots_are_taken_at_first(rt: HostRuntime) -> Result<(), Fail> {
    let half = arc(&rt, Plane::XY, (10_000_000, 0, 0), 5_000_000)?;
    let mut path = ArcPath::new(&half, length(&rt, 10_000));
    let roots = path.roots();
    run_to_its_end(&mut path);
    holds(&rt, &"roots", 0 < roots && roots <= 16);
    holds(
        &rt,
        &"the end",
        path.remaining() == 0 && path.roots() == roots,
    );
    Ok(())
}
