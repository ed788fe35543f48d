//! Motions straight down.
ghost use Rattle.std.specs.Prelude.{◌≡◌, ◌-ℤ◌};
ghost use Rattle.ngc_tool_figures.specs.Dives.{begun, deepened, dive_after, dived, fall, goes_down};
ghost use Rattle.ngc_tool_figures.specs.Dives.{is_feed};

use ngc_commands::{Motion, Pace, Way};
use ngc_fixed_length::Nm;

/// The lowest height to which feeds have gone straight down since the axes last moved aside, and
/// whether the axes are above it now.
#[derive(Clone, Copy)]
pub struct Dive {
    pub bottom: Nm,
    pub is_out: bool,
}

fn difference(a: Nm, b: Nm) -> i64
    ensures { result ≡ a -ℤ b }
{
    a.nanometres() - b.nanometres()
}

/// Returns how far a path goes straight down, less than 0 upwards; `None` if it goes aside.
pub(crate) fn fall(way: &Way) -> Option<i64>
    ensures { result ≡ fall way.now }
{
    match way {
        Way::Line { start, end }
            if start.x.nanometres() == end.x.nanometres()
                && start.y.nanometres() == end.y.nanometres() => {
            Some(difference(start.z, end.z))
        }
        _ => None,
    }
}

fn is_feed(pace: &Pace) -> bool
    ensures { result ≡ is_feed pace.now }
{
    match pace {
        Pace::Rapid => false,
        Pace::Feed(_) => true,
    }
}

// Returns whether a motion is a feed down, where its path goes this far down.
fn goes_down(pace: &Pace, fall: i64) -> bool
    ensures { result ≡ goes_down pace.now fall }
{
    is_feed(pace) && 0 < fall
}

impl Dive {
    // Returns the dive that a motion straight to a height begins, if it is a feed down.
    fn begun(down: bool, z: Nm) -> Option<Dive>
        ensures { result ≡ begun down z }
    {
        if down {
            Some(Dive {
                bottom: z,
                is_out: false,
            })
        } else {
            None
        }
    }

    // Returns the dive after one more motion straight to a height.
    fn deepened(&self, down: bool, z: Nm) -> Dive
        ensures { result ≡ deepened down z self.now }
    {
        if down && z.nanometres() < self.bottom.nanometres() {
            Dive {
                bottom: z,
                is_out: false,
            }
        } else {
            Dive {
                bottom: self.bottom,
                is_out: self.bottom.nanometres() < z.nanometres(),
            }
        }
    }
}

fn dived(down: bool, z: Nm, dive: Option<Dive>) -> Option<Dive>
    ensures { result ≡ dived down z dive }
{
    match dive {
        None => Dive::begun(down, z),
        Some(dive) => Some(dive.deepened(down, z)),
    }
}

/// Returns the dive after a motion, or `None` after one that goes aside.
pub(crate) fn dive_after(dive: Option<Dive>, motion: &Motion) -> Option<Dive>
    ensures { result ≡ dive_after dive motion.now }
{
    match fall(&motion.way) {
        None => None,
        Some(fall) => dived(goes_down(&motion.pace, fall), motion.way.end().z, dive),
    }
}
