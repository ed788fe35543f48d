//! How all breaches of limits are written.
ghost use Rattle.std.specs.Prelude.{OnOk, OnErr};
ghost use Rattle.std.specs.Io.KnownBytes.{Appends};
ghost use Rattle.ngc_text.specs.Failures.{CountsFailure};
ghost use Rattle.ngc_text.specs.Written.{AppendsPrefix};
ghost use Rattle.ngc_sentences.specs.Saying.{Says};
ghost use Rattle.ngc_limit_warnings.specs.Spelling.{kind_line, limit_warnings};

use crate::breach::Kind;
use crate::breaches::breaches_of;
use crate::spelling::say_breaches;
use ngc_commands::Command;
use ngc_file_figures::ToolLimits;
use ngc_report::Form;
use ngc_sentences::Page;
use ngc_text::{Sink, WriteFault};

fn say_kind<W: Sink>(
    form: Form,
    kind: Kind,
    table: &[ToolLimits],
    commands: &[Command],
    page: &mut Page,
    output: &mut W,
)
    ensures { Says (W.written output.old) (W.written output.new)
        (W.failures output.old) (W.failures output.new) page.old page.new
        (kind_line form kind table.now commands.now) }
{
    let found = breaches_of(kind, table, commands);
    say_breaches(form, kind, &found, page, output);
}

/// Writes the warnings about motions that cut with a tool outside the limits that its table says for it.
/// `commands` are the program's commands at a setting of block delete.
///
/// A motion cuts if it is at a feed with a tool and doesn't go straight up. The kinds are feeds outside
/// those of the tool, feeds straight down above those of the tool, and feeds while the spindle turns at
/// another speed than the tool's. A feed straight down is of the first kind only if the tool has no
/// limit for it. Feeds in inverse time have no feed, and a spindle that is off no speed. Each kind that
/// occurs has a line with the number of its motions, and the program's line of the first, from 1, with
/// its numbers. A table without limits has no line.
///
/// The function allocates no memory. After a fault (902, only if the sink failed) a prefix of the
/// text is written.
pub fn write_limit_warnings<W: Sink>(
    form: Form,
    table: &[ToolLimits],
    commands: &[Command],
    output: &mut W,
) -> Result<(), WriteFault>
    ensures ok { OnOk result
        (Appends (W.written output.old) (W.written output.new)
        (limit_warnings form table.now commands.now)) }
    ensures fault { OnErr result
        (AppendsPrefix (W.written output.old) (W.written output.new)
        (limit_warnings form table.now commands.now)) }
    ensures counts { CountsFailure (W.failures output.old) (W.failures output.new) result }
{
    let mut page = Page::new();
    say_kind(form, Kind::Feed, table, commands, &mut page, output);
    say_kind(form, Kind::Plunge, table, commands, &mut page, output);
    say_kind(form, Kind::Speed, table, commands, &mut page, output);
    page.finish(output)
}
