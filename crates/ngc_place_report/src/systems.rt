//! The names of coordinate systems.
ghost use Rattle.std.specs.Prelude.{◌≡◌, ◌<◌, option_map};
ghost use Rattle.ngc_offsets.specs.Frames.{index};
ghost use Rattle.ngc_place_report.specs.Systems.{code_text, system_in, system_named};

use ngc_fixed_length::System;

fn system_in(name: &[u8]) -> Option<System>
    ensures { result ≡ system_in name.now }
{
    match name {
        b"54" => Some(System::First),
        b"55" => Some(System::Second),
        b"56" => Some(System::Third),
        b"57" => Some(System::Fourth),
        b"58" => Some(System::Fifth),
        b"59" => Some(System::Sixth),
        b"59.1" => Some(System::Seventh),
        b"59.2" => Some(System::Eighth),
        b"59.3" => Some(System::Ninth),
        _ => None,
    }
}

/// Returns the coordinate system with this name: 54 to 59, 59.1, 59.2 or 59.3. Without a name it is
/// the first, G54. Returns `None` if no system has the name.
pub fn system_named(name: Option<&str>) -> Option<System>
    ensures { result ≡ system_named (option_map (λ n. n.now) name.entry) }
{
    match name {
        Some(name) => system_in(name.as_bytes()),
        None => Some(System::First),
    }
}

/// Returns the code that selects a system.
pub(crate) fn code_text(system: System) -> &'static [u8]
    ensures { result.now ≡ code_text system }
{
    match system {
        System::First => b"G54",
        System::Second => b"G55",
        System::Third => b"G56",
        System::Fourth => b"G57",
        System::Fifth => b"G58",
        System::Sixth => b"G59",
        System::Seventh => b"G59.1",
        System::Eighth => b"G59.2",
        System::Ninth => b"G59.3",
    }
}

/// Returns the index of a system's origin.
pub(crate) fn index_of(system: System) -> usize
    ensures value { result ≡ index system }
    ensures nine { result < 9 }
{
    match system {
        System::First => 0,
        System::Second => 1,
        System::Third => 2,
        System::Fourth => 3,
        System::Fifth => 4,
        System::Sixth => 5,
        System::Seventh => 6,
        System::Eighth => 7,
        System::Ninth => 8,
    }
}
