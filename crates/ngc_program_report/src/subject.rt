//! What the parts of a report share.
use crate::program_time::ProgramTime;
use crate::reported::ReportedText;
use ngc_certificate::Setting;
use ngc_commands::Command;
use ngc_frames::FrameHistory;
use ngc_lowest_tips::LowestTip;
use ngc_machine_files::{Machine, Tools};
use ngc_origins::Origins;
use ngc_report::Form;
use ngc_stock_report::Walk;
use std::alloc::Allocator;

/// The program that is reported, on its machine with its tools, and the form of the report.
#[derive(Drop)]
pub(crate) struct Subject<'a, A: Allocator> {
    pub(crate) form: Form,
    /// The origins that replace those of the machine file.
    pub(crate) origins: &'a Origins,
    pub(crate) text: &'a ReportedText<'a, A>,
    pub(crate) machine: &'a Machine<A>,
    pub(crate) tools: &'a Tools<A>,
}

/// The heading of what is reported at a setting of block delete.
#[derive(Clone, Copy)]
pub(crate) struct Heading {
    /// Whether the report begins here.
    pub(crate) first: bool,
    /// Whether the setting is named.
    pub(crate) named: bool,
    pub(crate) setting: Setting,
}

/// The commands of a program at a setting of block delete, and the frames in which they were
/// executed.
#[derive(Drop)]
pub(crate) struct Execution<'a, A: Allocator> {
    pub(crate) commands: &'a [Command],
    pub(crate) history: &'a FrameHistory<A>,
}

/// What is found of the commands of a setting if they fit.
#[derive(Drop)]
pub(crate) struct Fit<'a, A: Allocator> {
    pub(crate) history: &'a FrameHistory<A>,
    pub(crate) time: ProgramTime<A>,
    pub(crate) tips: Vec<LowestTip, A>,
    /// The straight traverses that may touch material, if a walk was made.
    pub(crate) material: Option<Walk<A>>,
}
