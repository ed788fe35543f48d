//! Laws about the definitions only.
ghost use Rattle.ngc_certificate.specs.Covered.{Covered, SafeOnPath};
ghost use Rattle.ngc_certificate.specs.NoFault.{NoPiecesFaultIsValid, NoPlaceFaultIsClear};
ghost use Rattle.ngc_certificate.specs.Uncleared.{FirstUnclearedIsRefused, MadeNamesUncleared};
ghost use Rattle.ngc_certificate.specs.Uncleared.{NoneUnclearedIsMade};
ghost use Rattle.ngc_certificate.specs.Valid.{ValidIsSafeEachWay};

/// States that each point of a motion's path is in the derived box of one of its pieces.
pub fn covered()
    ensures { Covered }
{}

/// States that if a motion's pieces are valid with the tool that is mounted, each point of each of
/// its paths is safe.
pub fn safe_on_path()
    ensures { SafeOnPath }
{}

/// States that no piece of a motion is refused if and only if the pieces are valid, and that the
/// tool's body meets no fixture at a position if and only if it is clear of all of them.
pub fn no_fault_is_valid()
    ensures pieces { NoPiecesFaultIsValid }
    ensures place { NoPlaceFaultIsClear }
{}

/// States that if the machine's rapids are free and a certificate is valid for the commands of a
/// setting, each point in the box of a traverse's ends, in whole nanometres, is safe for the tool
/// mounted then. So any way that a control takes within that box is safe. The ends are positions of
/// motor steps.
pub fn valid_is_safe_each_way()
    ensures { ValidIsSafeEachWay }
{}

/// States how the two results for a setting agree. If motions are made for it, it may have no
/// command that isn't cleared; if it is refused at a command, that may be the first one that isn't
/// cleared. Conversely, if all commands may be cleared, motions may be made for it, and otherwise it
/// may be refused at the first one that isn't.
pub fn uncleared_as_made()
    ensures says { MadeNamesUncleared }
    ensures made { NoneUnclearedIsMade }
    ensures refused { FirstUnclearedIsRefused }
{}
