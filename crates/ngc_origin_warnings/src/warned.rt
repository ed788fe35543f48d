//! The origins that were warned of.
ghost use Rattle.std.specs.Prelude.{◌≡◌};
ghost use Rattle.ngc_origin_warnings.specs.Warnings.{if_new, is_line, is_warned, none_warned};
ghost use Rattle.ngc_origin_warnings.specs.Warnings.{with_warned};

use crate::origin::Origin;
use ngc_frames::index_of;

/// The line that the last warning of each coordinate system named.
#[derive(Clone, Copy)]
pub(crate) struct Warned {
    pub(crate) lines: [Option<u32>; 9],
}

fn is_line(line: u32, named: Option<u32>) -> bool
    ensures { result ≡ is_line line named }
{
    match named {
        Some(last) => last == line,
        None => false,
    }
}

impl Warned {
    /// Returns the state before the first warning.
    pub(crate) fn none() -> Warned
        ensures { result.lines ≡ none_warned }
    {
        Warned { lines: [None; 9] }
    }

    fn is_warned(&self, origin: &Origin) -> bool
        ensures { result ≡ is_warned self.now.lines origin.now }
    {
        is_line(origin.line, self.lines[index_of(origin.system)])
    }

    /// Returns an origin, unless the last warning of its system named the same line.
    pub(crate) fn if_new(&self, origin: Option<Origin>) -> Option<Origin>
        ensures { result ≡ if_new self.now.lines origin }
    {
        match origin {
            Some(origin) if !self.is_warned(&origin) => Some(origin),
            _ => None,
        }
    }

    /// Returns the state after a warning, if there is one.
    pub(crate) fn with(&self, warned: &Option<Origin>) -> Warned
        ensures { result.lines ≡ with_warned self.now.lines warned.now }
    {
        let mut lines = self.lines;
        if let Some(origin) = warned {
            lines[index_of(origin.system)] = Some(origin.line);
        }
        Warned { lines }
    }
}
