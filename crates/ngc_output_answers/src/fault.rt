//! Why the file of `--out` isn't written.
ghost use Rattle.std.specs.Prelude.{◌≡◌};
ghost use Rattle.ngc_output_answers.specs.Faults.{output_fault_text};

/// The reason why the output isn't in its file: 902.
#[derive(Clone, Copy, PartialEq, Eq)]
pub enum OutputFault {
    /// The command line names the file as one to read.
    Input,
    /// The file can't be made.
    NotMade,
    /// The file doesn't get its name.
    NotWritten,
}

impl OutputFault {
    /// Returns the lines for standard error.
    pub fn text(self) -> &'static [u8]
        ensures { result.now ≡ output_fault_text self }
    {
        match self {
            OutputFault::Input =>
                b"ngc: fault 902\nngc: the file of --out is one that the command reads\n",
            OutputFault::NotMade => b"ngc: fault 902\nngc: the file of --out can't be made\n",
            OutputFault::NotWritten => b"ngc: fault 902\nngc: the file of --out can't be written\n",
        }
    }
}
