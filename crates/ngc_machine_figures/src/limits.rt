//! The kinds of values that only a tool table has: cutters, and limits of which reports warn.
ghost use Rattle.std.specs.Prelude.{◌≡◌};
ghost use Rattle.toml.specs.View.{view};
ghost use Rattle.ngc_machine_figures.specs.Limits as spec;

use crate::key::Key;
use crate::refusal::{FileRefusal, Form, Wrong};
use crate::tool_key::ToolWrong;
use crate::written::{Written, found, no_text, said};
use ngc_file_figures::{Cutter, Limits};
use ngc_quantities::{Fault, Range, speed_limits_of, turning_limits_of};
use toml::Value;

/// Limits of feeds, in nanometres per minute.
#[derive(Clone, Copy)]
pub struct FeedLimits {
    pub limits: Limits,
}

/// Limits of spindle speeds, in millionths of a turn per minute.
#[derive(Clone, Copy)]
pub struct TurningLimits {
    pub limits: Limits,
}

// Returns the limits of a range, which isn't below zero.
fn limits(range: Range) -> Limits
    ensures { result ≡ spec.limits range }
{
    Limits {
        least: range.low.unsigned_abs(),
        greatest: range.high.unsigned_abs(),
    }
}

#[tactic(auto, unfolding(crate::specs::Limits::feeds_in))]
fn feeds_in(text: &str) -> Result<FeedLimits, Fault>
    ensures { result ≡ spec.feeds_in text.now }
{
    Ok(FeedLimits {
        limits: limits(speed_limits_of(text.as_bytes())?),
    })
}

impl Written for FeedLimits {
    ghost reading = { spec.feeds_value };

    #[tactic(auto, unfolding(crate::specs::Limits::feeds_value))]
    fn read(key: Key, value: &Value) -> Result<FeedLimits, FileRefusal> {
        match value.as_str() {
            Some(text) => said(key, feeds_in(text)),
            None => Err(no_text(key, Form::Feeds, value)),
        }
    }
}

#[tactic(auto, unfolding(crate::specs::Limits::turning_in))]
fn turning_in(text: &str) -> Result<TurningLimits, Fault>
    ensures { result ≡ spec.turning_in text.now }
{
    Ok(TurningLimits {
        limits: limits(turning_limits_of(text.as_bytes())?),
    })
}

impl Written for TurningLimits {
    ghost reading = { spec.turning_value };

    #[tactic(auto, unfolding(crate::specs::Limits::turning_value))]
    fn read(key: Key, value: &Value) -> Result<TurningLimits, FileRefusal> {
        match value.as_str() {
            Some(text) => said(key, turning_in(text)),
            None => Err(no_text(key, Form::Turning, value)),
        }
    }
}

fn cutter_in(value: &Value) -> Option<Cutter>
    ensures { result ≡ spec.cutter_in (view value.now) }
{
    Cutter::named(value.as_str()?)
}

impl Written for Cutter {
    ghost reading = { spec.cutter_value };

    #[tactic(auto, unfolding(crate::specs::Limits::cutter_value))]
    fn read(key: Key, value: &Value) -> Result<Cutter, FileRefusal> {
        found(key, Wrong::Tool(ToolWrong::NoCutter), cutter_in(value))
    }
}
