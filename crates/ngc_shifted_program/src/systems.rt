ghost use Rattle.std.specs.Prelude.{◌≡◌, ◌<◌};
ghost use Rattle.ngc_offsets.specs.Frames.{index};

use ngc_fixed_length::System;

/// Returns the index of a system's origin.
pub(crate) fn index_of(system: System) -> usize
    ensures value { result ≡ index system }
    ensures nine { result < 9 }
{
    match system {
        System::First => 0,
        System::Second => 1,
        System::Third => 2,
        System::Fourth => 3,
        System::Fifth => 4,
        System::Sixth => 5,
        System::Seventh => 6,
        System::Eighth => 7,
        System::Ninth => 8,
    }
}
