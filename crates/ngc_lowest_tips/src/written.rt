//! How the lowest heights of a program are written.
ghost use Rattle.std.specs.Prelude.{◌≡◌, OnOk, OnErr};
ghost use Rattle.std.specs.Io.KnownBytes.{Appends};
ghost use Rattle.ngc_certificate_text.specs.Collects.{Collects};
ghost use Rattle.ngc_text.specs.Failures.{CountsFailure};
ghost use Rattle.ngc_text.specs.Written.{AppendsPrefix};
ghost use Rattle.ngc_lowest_tips.specs.Texts.{tip_text, tips_text};

use crate::texts::add_tip;
use crate::tip::LowestTip;
use ngc_report::Form;
use ngc_text::{Chunk, Sink, WriteFault};

fn collect_tip<W: Sink>(
    chunk: &mut Chunk,
    form: Form,
    tip: &LowestTip,
    sink: &mut W,
) -> Result<(), WriteFault>
    ensures text { Collects (W.written sink.old) (W.written sink.new) chunk.old chunk.new result
        (tip_text form tip.now) }
    ensures counts { CountsFailure (W.failures sink.old) (W.failures sink.new) result }
{
    match chunk.make_space(sink) {
        Ok(()) => {
            add_tip(chunk, form, tip);
            Ok(())
        }
        Err(fault) => Err(fault),
    }
}

fn collect_tips<W: Sink>(
    chunk: &mut Chunk,
    form: Form,
    tips: &[LowestTip],
    sink: &mut W,
) -> Result<(), WriteFault>
    ensures text { Collects (W.written sink.old) (W.written sink.new) chunk.old chunk.new result
        (tips_text form tips.now) }
    ensures counts { CountsFailure (W.failures sink.old) (W.failures sink.new) result }
{
    for tip in tips {
        match collect_tip(chunk, form, tip, sink) {
            Ok(()) => {}
            Err(fault) => return Err(fault),
        }
    }
    Ok(())
}

/// Writes lowest heights, each as a line or as a fact.
///
/// The function allocates no memory. After a fault (902, only if the sink failed) a prefix of the
/// text is written.
pub fn write_lowest_tips<W: Sink>(
    form: Form,
    tips: &[LowestTip],
    sink: &mut W,
) -> Result<(), WriteFault>
    ensures ok { OnOk result
        (Appends (W.written sink.old) (W.written sink.new) (tips_text form tips.now)) }
    ensures fault { OnErr result
        (AppendsPrefix (W.written sink.old) (W.written sink.new) (tips_text form tips.now)) }
    ensures counts { CountsFailure (W.failures sink.old) (W.failures sink.new) result }
{
    let mut chunk = Chunk::new();
    match collect_tips(&mut chunk, form, tips, sink) {
        Ok(()) => chunk.write_out(sink),
        Err(fault) => Err(fault),
    }
}
