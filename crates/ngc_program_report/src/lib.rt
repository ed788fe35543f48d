//! Reports of jobs: a job that fits, with its margins and its time, or one that doesn't, with its
//! obstacles.
#![tactic(auto)]

mod coordinates;
mod demanded;
mod fault_writer;
mod fit_writer;
mod framed;
mod job_report;
pub mod laws;
mod met;
mod program_time;
mod refusal_writer;
mod report_frame;
mod report_time;
mod reported;
mod request;
mod run_time;
mod subject;
mod time_line;
mod timing;
mod use_times;

pub use fault_writer::write_faults;
pub use framed::{FramedJob, framed_job};
pub use job_report::{report_fit, report_refusal};
pub use met::met_at;
pub use refusal_writer::{refused_line, write_rejection};
pub use report_frame::{opening, write_ending, write_rejection_heading};
pub use reported::{OtherText, ReportedText};
pub use request::ReportRequest;
pub use run_time::RunTime;
pub use time_line::add_time_line;
