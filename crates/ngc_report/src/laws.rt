//! Laws about the definitions only.
ghost use Rattle.ngc_findings.specs.Extents.{ExtentHoldsPaths, ExtentHoldsStart};
ghost use Rattle.ngc_findings.specs.Extents.{FitExtentHoldsPieces, FitExtentHoldsStart};
ghost use Rattle.ngc_findings.specs.Extents.{ExtentInTravelHolds};
ghost use Rattle.ngc_findings.specs.Gaps.{GapIsReported};
ghost use Rattle.ngc_findings.specs.Margins.{TightestIsReported};
ghost use Rattle.ngc_report.specs.Printed.{PrintedIsEnough};
ghost use Rattle.ngc_report.specs.Reports.{FitStaysInside, SettingStaysInside};
ghost use Rattle.ngc_findings.specs.Rooms.{SpaceIsReported};
ghost use Rattle.ngc_findings.specs.Shifts.{ShiftClears, ShiftStaysInside, ShiftIsReported};

/// States that the extent of a program holds the start point and each point of each path that a
/// motion may take.
pub fn extent_holds()
    ensures paths { ExtentHoldsPaths }
    ensures start { ExtentHoldsStart }
{}

/// States that the extent of a program that fits holds the start point and the box of each piece of
/// its certificate.
pub fn fit_extent_holds()
    ensures pieces { FitExtentHoldsPieces }
    ensures start { FitExtentHoldsStart }
{}

/// States that the part of an extent within the travel holds each of its points that lies within
/// the travel limits.
pub fn extent_in_travel_holds()
    ensures { ExtentInTravelHolds }
{}

/// States that no margin in the report of a program that fits is negative: if each box of each
/// piece lies within the travel limits, no margin on either side of an axis is below zero. The same
/// holds for a setting at which nothing is refused.
pub fn fit_stays_inside()
    ensures program { FitStaysInside }
    ensures setting { SettingStaysInside }
{}

/// States that a box lies within the travel exactly if no margin on either side of an axis is
/// negative.
pub fn space_is_reported()
    ensures { SpaceIsReported }
{}

/// States that a box lies within the travel exactly if it does so on the side with the least
/// margin.
pub fn tightest_is_reported()
    ensures { TightestIsReported }
{}

/// States that a box is apart from a fixture exactly if the gap between them isn't below zero.
pub fn gap_is_reported()
    ensures { GapIsReported }
{}

/// States that a number of steps is at least the reported distance in a direction exactly if, after
/// a move by that number, each part of the tool is past the fixture or beside it. Therefore the
/// tool's body doesn't meet the fixture after a move by the reported distance or by more. The
/// distance that is printed in words isn't less than that.
pub fn shift_clears()
    ensures tells { ShiftIsReported }
    ensures clears { ShiftClears }
    ensures printed { PrintedIsEnough }
{}

/// States that a box lies within the travel along an axis after the reported move.
pub fn shift_stays_inside()
    ensures { ShiftStaysInside }
{}
