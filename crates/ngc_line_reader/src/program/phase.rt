ghost use Rattle.std.specs.Prelude.{◌≡◌, ◌≤◌};
ghost use Rattle.ngc_line_reader.specs.Load.{is_blank as is_blank_line};
ghost use Rattle.ngc_line_reader.specs.Load.{is_percent as is_percent_line, phase_after, number_in};
ghost use Rattle.ngc_line_reader.specs.Load.{after_blanks};

/// The phase of reading a file: only blank lines so far, or else whether the first other line was a
/// `%`.
#[derive(Clone, Copy)]
pub enum Phase {
    Start,
    Marked,
    Unmarked,
}

// Returns the bytes after the leading blanks.
fn skip_blanks(bytes: &[u8]) -> &[u8]
    ensures { result.now ≡ after_blanks bytes.now }
{
    let mut rest = bytes;
    while let Some((first, afterwards)) = rest.split_first() {
        if *first != b' ' && *first != b'\t' {
            return rest;
        }
        rest = afterwards;
    }
    rest
}

#[tactic(auto, using(crate::proofs::Blanks::blank_by_bytes))]
fn is_blank(bytes: &[u8]) -> bool
    ensures { result ≡ is_blank_line bytes.now }
{
    matches!(skip_blanks(bytes), [] | [b'\r'])
}

// Returns whether a line is a percent sign and white space, in at most 256 bytes.
#[tactic(auto, using(crate::proofs::Blanks::percent_by_bytes))]
pub(crate) fn is_percent(bytes: &[u8]) -> bool
    ensures { result ≡ is_percent_line bytes.now }
{
    match skip_blanks(bytes).split_first() {
        Some((b'%', rest)) => bytes.len() <= 256 && is_blank(rest),
        _ => false,
    }
}

impl Phase {
    // Returns the phase after a line that was read.
    pub(crate) fn after(self, bytes: &[u8]) -> Phase
        ensures { result ≡ phase_after self bytes.now }
    {
        if self == Phase::Start && !is_blank(bytes) {
            return Phase::Unmarked;
        }
        self
    }

    // Returns the number in the file of the line after `done` lines.
    pub(crate) fn number(self, done: usize) -> u32
        requires { done ≤ 100000 }
        ensures { result ≡ number_in self done }
    {
        match self {
            Phase::Start | Phase::Unmarked => done as u32 + 1,
            Phase::Marked => done as u32 + 2,
        }
    }
}
