//! The header of a table that isn't known.
ghost use Rattle.std.specs.Prelude.{◌≡◌, ◌≤◌, length};
ghost use Rattle.ngc_machine_figures.specs.Words.{bytes_of};
ghost use Rattle.ngc_refused_files.specs.Headers as spec;

use arrayvec::ArrayVec;
use ngc_machine_figures::KeyWord;

/// What is around the name of a table in its header.
#[derive(Clone, Copy)]
pub(crate) enum Brackets {
    /// `[[name]]`
    Double,
    /// `[name]`
    Single,
    /// `[name.other]`
    Inner,
    /// `[axis.name]`
    Axis,
}

impl Brackets {
    fn opening(self) -> &'static [u8]
        ensures text { result.now ≡ spec.opening self }
        ensures short { length result.now ≤ 8 }
    {
        match self {
            Brackets::Double => b"[[",
            Brackets::Single | Brackets::Inner => b"[",
            Brackets::Axis => b"[axis.",
        }
    }

    fn closing(self) -> &'static [u8]
        ensures text { result.now ≡ spec.closing self }
        ensures short { length result.now ≤ 8 }
    {
        match self {
            Brackets::Double => b"]]",
            Brackets::Single | Brackets::Axis => b"]",
            Brackets::Inner => b".",
        }
    }
}

fn name_bytes(name: &KeyWord) -> &[u8]
    ensures text { result.now ≡ bytes_of name.now }
    ensures short { length result.now ≤ 40 }
{
    name.as_bytes()
}

/// Returns the header of the table with this name, or its beginning.
pub(crate) fn header_of(brackets: Brackets, name: &KeyWord) -> ArrayVec<u8, 64>
    ensures { result.items ≡ spec.header_of brackets (bytes_of name.now) }
{
    let mut header = ArrayVec::new();
    // A name has at most 40 bytes, so all three fit.
    let _taken = header.try_extend_from_slice(brackets.opening());
    let _taken = header.try_extend_from_slice(name_bytes(name));
    let _taken = header.try_extend_from_slice(brackets.closing());
    header
}
