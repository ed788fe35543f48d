//! The commands of the program: it lists part programs, makes their certificates, checks them, runs
//! the machine and shows it.
#![tactic(auto)]

mod adapting;
mod certifier;
mod checking;
mod dialect_certificates;
mod dialect_lister;
mod dialect_pictures;
mod dialect_places;
mod dialect_refusals;
mod dialect_reports;
mod dialect_runs;
mod dialects;
mod done;
mod drawing;
mod drawing_files;
mod faults_files;
mod guide;
mod lister;
mod live_request;
mod living;
mod making;
mod mapping;
mod mistaken_files;
mod place_request;
mod placing;
mod program;
mod report_shop;
mod reporting;
mod reporting_files;
mod running;
mod showing;
mod through;
mod unread_files;
mod writing;

pub use certifier::certify;
pub use checking::check_program;
pub use done::{Done, Notes};
pub use drawing::{draw_certified, draw_program};
pub use lister::list;
pub use live_request::LiveRequest;
pub use living::run_live;
pub use ngc_canonical::{
    Action, Command, CoolantState, Fault, Feed, Motion, Pace, ProgramFault, SpindleState, Way,
    interpret,
};
pub use ngc_certificate::{MakeFault, PieceFault, Setting};
pub use ngc_certificate_text::{Certificate, CertificateFault};
pub use ngc_checker::{Accepted, CheckFault, check};
pub use ngc_command_line::{
    AdaptOptions, CertifyOptions, CheckOptions, DrawOptions, Format, HelpFault, ListOptions,
    LiveOptions, MachineOptions, Options, PlaceOptions, Recording, ReportOptions, RunOptions,
    RunThroughOptions, ShowOptions, UsageFault, help_text, read_options,
};
pub use ngc_controller::{Controller, MemoryFault};
pub use ngc_drawing::{DrawFault, RefusedMotion, View, WorkOrigin, write_svg};
pub use ngc_events::{Ending, Event, EventFault, EventLine, EventsFault, Reply, read_events};
pub use ngc_fault_texts::{ExplainFault, explain};
pub use ngc_inputs::{AnswerFault, Files, Verdict, judge};
pub use ngc_listing::write_list;
pub use ngc_machine_files::{FileFault, Fixture, Machine, Tool, Tools, built_in_machine};
pub use ngc_program_report::{ReportRequest, RunTime};
pub use ngc_report::Form;
pub use ngc_run_log::{
    LiveFault, LiveForm, LiveRun, run, write_pulses, write_samples, write_timed_log,
};
pub use ngc_run_through::{
    Report, RunFault, run_through, write_pulses_through, write_samples_through,
    write_timed_log_through,
};
pub use ngc_setup_sheet::write_sheet;
pub use ngc_step_kernel::{ArcKernel, ArcPath};
pub use place_request::PlaceRequest;
pub use placing::place_program;
pub use program::answer;
pub use reporting::report_program;
pub use running::run_program;
pub use through::run_program_through;
pub use writing::Writing;
