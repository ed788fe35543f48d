ghost use Rattle.std.specs.Prelude.{◌≡◌};

/// The reasons why the flow can't go on.
#[derive(Clone, Copy, Debug, PartialEq, Eq)]
pub enum Cause {
    /// No subprogram or line has this label.
    LabelMissing,
    /// Two subprograms or lines have this label.
    LabelTwice,
    /// The end of the block is missing.
    EndMissing,
    /// No open loop is ended here.
    NotOpen,
    /// No open call is ended here.
    NotCalled,
    /// Subprograms are nested over 10 deep.
    TooDeep,
    /// Over 32 loops are open.
    TooManyLoops,
    /// Over 2,000,000 lines were executed.
    TooManyLines,
    /// P is missing.
    WordMissing,
    /// P or L isn't a whole number.
    NotWhole,
    /// P or L is there twice.
    WordTwice,
}

impl Cause {
    ghost use Rattle.ngc_dialect_flow.specs.Faults.{cause_number};

    /// Returns the fault's number, which messages print.
    pub fn number(self) -> u16
        ensures { result ≡ cause_number self }
    {
        match self {
            Cause::LabelMissing
            | Cause::LabelTwice
            | Cause::EndMissing
            | Cause::NotOpen
            | Cause::NotCalled => 136,
            Cause::TooDeep | Cause::TooManyLoops => 137,
            Cause::TooManyLines => 138,
            Cause::WordMissing | Cause::NotWhole | Cause::WordTwice => 211,
        }
    }
}
