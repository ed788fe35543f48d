//! The text before and after the reports of programs.
ghost use Rattle.std.specs.Prelude.{◌≡◌, ◌≤◌, ◌++◌, [], length, OnOk, OnErr, if◌then◌else◌, true};
ghost use Rattle.std.specs.Io.KnownBytes.{Appends};
ghost use Rattle.ngc_text.specs.Failures.{CountsFailure};
ghost use Rattle.ngc_text.specs.Written.{AppendsPrefix};
ghost use Rattle.ngc_report.specs.Forms.{closing, opening};
ghost use Rattle.ngc_sentences.specs.Saying.{Says};
ghost use Rattle.ngc_program_report.specs.Texts.{ending, heading as heading_text, hint};
ghost use Rattle.ngc_machine_files.specs.Machine.{file_of};
ghost use Rattle.ngc_margins.specs.Lines.{kept_by, nothing_kept};
ghost use Rattle.ngc_program_report.specs.Texts.{kept_text, origins_text, setting_line};
ghost use Rattle.ngc_program_report.specs.Writing.{Writes};

use crate::subject::Heading;
use ngc_certificate::Setting;
use ngc_machine_files::Machine;
use ngc_margins::{Kept, say_kept_facts, say_kept_words};
use ngc_origins::{Origins, say_origin_facts, say_origin_words};
use ngc_report::Form;
use ngc_sentences::{Page, Part, say};
use ngc_text::{Sink, WriteFault};
use std::alloc::Allocator;

// Returns the line that names a setting.
fn setting_line(form: Form, setting: Setting) -> &'static [u8]
    ensures { result.now ≡ setting_line form setting }
{
    match (form, setting) {
        (Form::Words, Setting::Off) => b"With block delete off:\n",
        (Form::Words, Setting::On) => b"With block delete on:\n",
        (Form::Json, Setting::Off) => b",\n{\"fact\":\"setting\",\"block_delete\":false}",
        (Form::Json, Setting::On) => b",\n{\"fact\":\"setting\",\"block_delete\":true}",
    }
}

/// Returns the text before a report: nothing in words, and the first fact of the JSON document.
pub fn opening(form: Form) -> &'static [u8]
    ensures text { result.now ≡ opening form }
    ensures short { length result.now ≤ 40 }
{
    match form {
        Form::Words => b"",
        Form::Json => b"[{\"fact\":\"report\",\"version\":1}",
    }
}

/// Returns the text after a report.
pub(crate) fn closing(form: Form) -> &'static [u8]
    ensures { result.now ≡ closing form }
{
    match form {
        Form::Words => b"",
        Form::Json => b"\n]\n",
    }
}

fn say_origins<W: Sink>(form: Form, origins: &Origins, page: &mut Page, output: &mut W)
    ensures { Says (W.written output.old) (W.written output.new)
        (W.failures output.old) (W.failures output.new) page.old page.new
        (origins_text form origins.now) }
{
    match form {
        Form::Words => say_origin_words(origins, page, output),
        Form::Json => say_origin_facts(origins, page, output),
    }
}

fn say_kept<W: Sink>(form: Form, kept: &Kept, page: &mut Page, output: &mut W)
    ensures { Says (W.written output.old) (W.written output.new)
        (W.failures output.old) (W.failures output.new) page.old page.new
        (kept_text form kept.now) }
{
    match form {
        Form::Words => say_kept_words(kept, page, output),
        Form::Json => say_kept_facts(kept, page, output),
    }
}

// Says the text before the first setting of a report.
fn say_beginning<W: Sink>(
    form: Form,
    origins: &Origins,
    kept: &Kept,
    page: &mut Page,
    output: &mut W,
)
    ensures { Says (W.written output.old) (W.written output.new)
        (W.failures output.old) (W.failures output.new) page.old page.new
        (opening form ++ (origins_text form origins.now ++ kept_text form kept.now)) }
{
    say!(page, output; Part::Text(opening(form)));
    say_origins(form, origins, page, output);
    say_kept(form, kept, page, output);
}

// Says the name of a setting.
fn say_setting<W: Sink>(form: Form, setting: Setting, page: &mut Page, output: &mut W)
    ensures { Says (W.written output.old) (W.written output.new)
        (W.failures output.old) (W.failures output.new) page.old page.new
        (setting_line form setting) }
{
    say!(page, output; Part::Text(setting_line(form, setting)));
}

// Says the beginning, before the first setting of a report.
fn say_beginning_if<W: Sink>(
    first: bool,
    form: Form,
    origins: &Origins,
    kept: &Kept,
    page: &mut Page,
    output: &mut W,
)
    ensures { Says (W.written output.old) (W.written output.new)
        (W.failures output.old) (W.failures output.new) page.old page.new
        (if first then opening form ++ (origins_text form origins.now ++ kept_text form kept.now)
        else []) }
{
    if first {
        say_beginning(form, origins, kept, page, output);
    }
}

// Says the name of a setting, if the two settings differ.
fn say_setting_if<W: Sink>(
    named: bool,
    form: Form,
    setting: Setting,
    page: &mut Page,
    output: &mut W,
)
    ensures { Says (W.written output.old) (W.written output.new)
        (W.failures output.old) (W.failures output.new) page.old page.new
        (if named then setting_line form setting else []) }
{
    if named {
        say_setting(form, setting, page, output);
    }
}

// Writes the text before the first setting of a report, or before the other.
fn write_frame<W: Sink>(
    form: Form,
    origins: &Origins,
    kept: &Kept,
    heading: Heading,
    output: &mut W,
) -> Result<(), WriteFault>
    ensures { Writes (W.written output.old) (W.written output.new) (W.failures output.old)
        (W.failures output.new) result
        (heading_text form origins.now kept.now heading.first heading.named heading.setting) }
{
    let mut page = Page::new();
    say_beginning_if(heading.first, form, origins, kept, &mut page, output);
    say_setting_if(heading.named, form, heading.setting, &mut page, output);
    page.finish(output)
}

pub(crate) fn write_heading<A: Allocator, W: Sink>(
    form: Form,
    origins: &Origins,
    machine: &Machine<A>,
    heading: Heading,
    output: &mut W,
) -> Result<(), WriteFault>
    ensures { Writes (W.written output.old) (W.written output.new) (W.failures output.old)
        (W.failures output.new) result
        (heading_text form origins.now (kept_by (file_of machine.now)) heading.first heading.named
        heading.setting) }
{
    let kept = Kept::by(machine);
    write_frame(form, origins, &kept, heading, output)
}

// Writes the heading of a program that is refused before its machine counts.
pub(crate) fn write_early_heading<W: Sink>(
    form: Form,
    origins: &Origins,
    heading: Heading,
    output: &mut W,
) -> Result<(), WriteFault>
    ensures { Writes (W.written output.old) (W.written output.new) (W.failures output.old)
        (W.failures output.new) result
        (heading_text form origins.now nothing_kept heading.first heading.named heading.setting) }
{
    let kept = Kept::nothing();
    write_frame(form, origins, &kept, heading, output)
}

/// Writes the beginning of the report of a program that is refused at a setting of block delete: the
/// origins that replace those of the machine file, and the setting if it is to be named.
///
/// After a fault (902, only if the sink failed) a prefix of the text is written.
pub fn write_rejection_heading<W: Sink>(
    form: Form,
    origins: &Origins,
    named: bool,
    setting: Setting,
    output: &mut W,
) -> Result<(), WriteFault>
    ensures ok { OnOk result
        (Appends (W.written output.old) (W.written output.new)
        (heading_text form origins.now nothing_kept true named setting)) }
    ensures fault { OnErr result
        (AppendsPrefix (W.written output.old) (W.written output.new)
        (heading_text form origins.now nothing_kept true named setting)) }
    ensures counts { CountsFailure (W.failures output.old) (W.failures output.new) result }
{
    let heading = Heading {
        first: true,
        named,
        setting,
    };
    write_early_heading(form, origins, heading, output)
}

// Says the number of the reported fault, in words with `ngc explain`.
fn say_hint<W: Sink>(form: Form, number: u16, page: &mut Page, output: &mut W)
    ensures { Says (W.written output.old) (W.written output.new)
        (W.failures output.old) (W.failures output.new) page.old page.new (hint form number) }
{
    let number = Part::Number(u128::from(number));
    match form {
        Form::Words => say!(page, output; b"`ngc explain ", number, b"` tells more.\n"),
        Form::Json => say!(page, output; b",\n{\"fact\":\"fault\",\"number\":", number, b"}"),
    }
}

/// Writes the end of a report of a refused program: the number of its fault, with `ngc explain` in
/// words, and the closing.
pub fn write_ending<W: Sink>(form: Form, number: u16, output: &mut W) -> Result<(), WriteFault>
    ensures ok { OnOk result
        (Appends (W.written output.old) (W.written output.new) (ending form number)) }
    ensures fault { OnErr result
        (AppendsPrefix (W.written output.old) (W.written output.new) (ending form number)) }
    ensures counts { CountsFailure (W.failures output.old) (W.failures output.new) result }
{
    let mut page = Page::new();
    say_hint(form, number, &mut page, output);
    say!(page, output; Part::Text(closing(form)));
    page.finish(output)
}
