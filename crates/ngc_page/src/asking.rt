//! The options of each call, as the command line reads them. The files are named `program`,
//! `machine`, `tools` and `certificate`.
ghost use Rattle.std.specs.Prelude.{◌≡◌};
ghost use Rattle.ngc_page.specs.Asked.{RequestsAdapt, RequestsCertify, RequestsCheck, RequestsDraw};
ghost use Rattle.ngc_page.specs.Asked.{RequestsList, RequestsMachine, RequestsPulses, RequestsReport, RequestsShow};
ghost use Rattle.ngc_page.specs.Asked.{control_name, requested_format, view_name};

use ngc_command_line::{
    AdaptOptions, CertifyOptions, CheckOptions, DrawOptions, Format, ListOptions, MachineOptions,
    Options, Recording, ReportOptions, RunThroughOptions, ShowOptions,
};
use ngc_margins::Changes;

/// Returns the options of a report.
pub fn report_options(all: bool, json: bool) -> Options<'static>
    ensures { RequestsReport all json result }
{
    Options::Report(ReportOptions {
        machine: "machine",
        tools: "tools",
        program: Some("program"),
        cuts: 8,
        all,
        json,
        changes: Changes::none(),
        cells: None,
        dialect: None,
    })
}

fn view_name(view: u32) -> &'static str
    ensures { result.now ≡ view_name view }
{
    match view {
        1 => "front",
        2 => "side",
        3 => "iso",
        _ => "top",
    }
}

/// Returns the options of a picture without a certificate.
pub fn draw_options(view: u32, delete: bool) -> Options<'static>
    ensures { RequestsDraw view delete result }
{
    Options::Draw(DrawOptions {
        machine: "machine",
        tools: "tools",
        certificate: None,
        program: Some("program"),
        view: Some(view_name(view)),
        delete,
        bodies: false,
        whole: false,
        map: false,
        cells: None,
        changes: Changes::none(),
        dialect: None,
    })
}

/// Returns the options of a listing.
pub fn list_options(delete: bool) -> Options<'static>
    ensures { RequestsList delete result }
{
    Options::List(ListOptions {
        program: Some("program"),
        machine: Some("machine"),
        tools: Some("tools"),
        delete,
        changes: Changes::none(),
        dialect: None,
    })
}

fn requested_format(second: bool) -> Format
    ensures { result ≡ requested_format second }
{
    if second { Format::Two } else { Format::One }
}

/// Returns the options of a certificate, in version 2 of the text or in version 1.
pub fn certify_options(second: bool) -> Options<'static>
    ensures { RequestsCertify second result }
{
    Options::Certify(CertifyOptions {
        machine: "machine",
        tools: "tools",
        program: Some("program"),
        cuts: 8,
        format: requested_format(second),
        changes: Changes::none(),
        dialect: None,
    })
}

/// Returns the options of a check.
pub fn check_options() -> Options<'static>
    ensures { RequestsCheck result }
{
    Options::Check(CheckOptions {
        machine: "machine",
        tools: "tools",
        certificate: "certificate",
        program: Some("program"),
        changes: Changes::none(),
        dialect: None,
    })
}

/// Returns the options of a run to the end that writes its pulses.
pub fn pulses_options(delete: bool) -> Options<'static>
    ensures { RequestsPulses delete result }
{
    Options::RunThrough(RunThroughOptions {
        recording: Recording::Pulses,
        machine: "machine",
        tools: "tools",
        certificate: "certificate",
        program: Some("program"),
        delete,
        output: None,
        inverted: 0,
        changes: Changes::none(),
        dialect: None,
    })
}

/// Returns the options of a setup sheet.
pub fn show_options() -> Options<'static>
    ensures { RequestsShow result }
{
    Options::Show(ShowOptions {
        machine: "machine",
        tools: Some("tools"),
        warnings: false,
    })
}

fn control_name(control: u32) -> &'static str
    ensures { result.now ≡ control_name control }
{
    match control {
        1 => "grbl",
        2 => "mach3",
        3 => "fanuc",
        _ => "linuxcnc",
    }
}

/// Returns the options to print a program for another control as one in our own language.
pub fn adapt_options(control: u32, delete: bool) -> Options<'static>
    ensures { RequestsAdapt control delete result }
{
    Options::Adapt(AdaptOptions {
        from: control_name(control),
        machine: Some("machine"),
        tools: Some("tools"),
        program: Some("program"),
        delete,
    })
}

/// Returns the options to make a machine file from a dump of GRBL's settings, which is the file
/// `program`.
pub fn machine_options() -> Options<'static>
    ensures { RequestsMachine result }
{
    Options::Machine(MachineOptions {
        grbl: Some("program"),
        steps: None,
        travel: None,
        feed: None,
        acceleration: None,
        corner: None,
        ticks: None,
        frame: None,
        jump: None,
        turn: None,
        start: None,
        home28: None,
        home30: None,
        ring: None,
        arc_feed: false,
        rates: false,
    })
}
