//! Why a subprogram, a loop or a jump isn't executed, in words.
ghost use Rattle.std.specs.Prelude.{◌≡◌};
ghost use Rattle.ngc_dialect_faults.specs.Flow.{flow_words};

use ngc_dialect_flow::Cause as FlowCause;

pub(crate) fn flow_words(cause: FlowCause) -> &'static [u8]
    ensures { result.now ≡ flow_words cause }
{
    match cause {
        FlowCause::LabelMissing => b"no subprogram or line has this label",
        FlowCause::LabelTwice => b"the label is there twice",
        FlowCause::EndMissing => b"the end of the block is missing",
        FlowCause::NotOpen => b"no loop is open that this belongs to",
        FlowCause::NotCalled => b"no call is open that this belongs to",
        FlowCause::TooDeep => b"subprograms nested over 10 deep",
        FlowCause::TooManyLoops => b"loops nested over 32 deep",
        FlowCause::TooManyLines => b"over 2,000,000 lines were executed",
        FlowCause::WordMissing => b"P is missing",
        FlowCause::NotWhole => b"P or L isn't a whole number from 0 up",
        FlowCause::WordTwice => b"P or L is there twice",
    }
}
