//! `ngc live`: a run over events that arrive on standard input.
ghost use Rattle.std.specs.Prelude.{◌≡◌, ℕ, [], List, IfErr, Err, Option, Some, option_map, MatchBool, OnOk};
ghost use Rattle.std.specs.Io.KnownBytes.{IsAtEnd};
ghost use Rattle.ngc_canonical.specs.State.{Setup};
ghost use Rattle.ngc_text.specs.Failures.{Rises};
ghost use Rattle.ngc_job.specs.Job.{JobData};
ghost use Rattle.ngc_simulator.specs.Answers.{LiveResult, OwnLiveResult, live_inputs};
ghost use Rattle.ngc_simulator.specs.Answers.{own_live_inputs, requested_live};
ghost use Rattle.ngc_simulator.specs.DialectRuns.{IsJobVerdict, LivesJob};
ghost use Rattle.ngc_inputs.specs.Faults.{FailsByOutput, OfLiving};
ghost use Rattle.ngc_inputs.specs.Judging.{IsVerdict};
ghost use Rattle.ngc_run_log.specs.Living.{FailsBeforeRest, FailsLive, IsLive, LivesOn, LivesToRest};
ghost use Rattle.ngc_run_log.specs.declared.live_form.LiveForm.{LiveForm as Written};
ghost use Rattle.ngc_simulator.specs.Lives.{Lives, live_named};
ghost use Rattle.ngc_inputs.specs.Unread.{FailsByInput, SourceFails};

use crate::dialect_runs::live_dialect;
use crate::done::Done;
use crate::live_request::LiveRequest;
use ngc_command_line::LiveOptions;
use ngc_inputs::{AnswerFault, Files, Verdict, judge_file, open_file, read_placed, read_program};
use ngc_run_log::{LiveFault, LiveForm, LiveRun, feed_from, feed_to_rest};
use ngc_text::{InputFault, Sink, Source};
use std::alloc::{Allocator, Global};

// Returns the form with this name, if one has it.
fn live_form(output: Option<&str>, inverted: u8) -> Option<LiveForm>
    ensures { result ≡ live_named (option_map (λ name. name.now) output.entry) inverted }
{
    match output {
        None => Some(LiveForm::Log),
        Some(name) => {
            if name == "samples" {
                Some(LiveForm::Samples(inverted))
            } else if name == "log" {
                Some(LiveForm::Log)
            } else if name == "times" {
                Some(LiveForm::Times)
            } else {
                None
            }
        }
    }
}

// Feeds a run with the bytes of a source to its end. Unless the run is aborted there, the machine
// comes to rest.
fn feed_all<A: Allocator + Copy, S: Source, W: Sink>(
    live: &mut LiveRun<A>,
    aborts: bool,
    source: &mut S,
    output: &mut W,
) -> Result<(), LiveFault>
    ensures lives { (form : Written) (first : Option (List ℕ)) →
        IsLive form live.old [] first (W.written output.old) →
        MatchBool aborts
        (LivesOn form live.new (S.remaining source.old) (S.remaining source.new) first
        (W.written output.new) result)
        (LivesToRest form live.new (S.remaining source.old) (S.remaining source.new) first
        (W.written output.new) result) }
    ensures job { live.new.job ≡ live.old.job }
    ensures feeds_ring { live.new.feeds ≡ live.old.feeds }
    ensures end { OnOk result (IsAtEnd (S.remaining source.new)) }
    ensures source { FailsBeforeRest result (S.failures source.old) (S.failures source.new) }
    ensures failures { FailsLive result (W.failures output.old) (W.failures output.new) }
{
    if aborts {
        return feed_from(live, source, output);
    }
    feed_to_rest(live, source, output)
}

/// Runs a program at a setting of block delete over the events of a source as they arrive, and
/// writes the whole result of each line before it processes the next one.
///
/// `verdict` is what `check` or `judge` returned for the program. A program that is refused isn't
/// run, and nothing is read or written. A line that isn't an event (711) ends the run; the output
/// of the lines before it is written. At the end, also after a wrong line, the machine is held until
/// it is at rest, unless the run is aborted there. Where a write fails, a prefix of the output is
/// written.
pub fn run_live<A: Allocator + Copy, S: Source, W: Sink>(
    alloc: A,
    verdict: Verdict<A>,
    source: &mut S,
    block_delete: bool,
    request: LiveRequest,
    output: &mut W,
) -> Result<(), AnswerFault>
    // For any files that the verdict is about: the result is that of these files and of the bytes
    // from the source.
    ensures lives { (setup : Setup) (bytes text : List ℕ) → IsVerdict setup bytes text verdict →
        Lives request setup bytes text block_delete (S.remaining source.old) (S.remaining source.new)
        (W.written output.old) (W.written output.new) result }
    // For any job and certificate that the verdict is about: the same of these.
    ensures job { (j : JobData) (text : List ℕ) → IsJobVerdict j text verdict →
        LivesJob request j text block_delete (S.remaining source.old) (S.remaining source.new)
        (W.written output.old) (W.written output.new) result }
    // The source failed if the result says so.
    ensures source { result ≡ Err (AnswerFault.Input InputFault.Device) →
        Rises (S.failures source.old) (S.failures source.new) }
    ensures sink { FailsByOutput result (W.failures output.old) (W.failures output.new) }
    ensures faults { IfErr result OfLiving }
{
    let accepted = verdict?;
    let mut live = LiveRun::new(
        alloc,
        accepted,
        block_delete,
        request.form,
        request.feeds_ring,
    )?;
    feed_all(&mut live, request.aborts, source, output)?;
    Ok(())
}

// Makes a live run of a program in our own language. Each file is read before the next one is opened,
// and standard input is opened once all are read.
fn live_own<F: Files, W: Sink>(
    alloc: Global,
    options: &LiveOptions<'_>,
    form: LiveForm,
    files: &mut F,
    output: &mut W,
) -> Result<Done, AnswerFault>
    ensures comes { OwnLiveResult (F.bytes files.old) options.now form (W.written output.old)
        (W.written output.new) result }
    ensures unread { FailsByInput (SourceFails F.R.remaining F.R.failures) (F.bytes files.old)
        (own_live_inputs options.now) (F.failures files.old) (F.failures files.new) result }
    ensures sink { FailsByOutput result (W.failures output.old) (W.failures output.new) }
{
    let shop = read_placed(
        alloc,
        Some(options.machine),
        Some(options.tools),
        &options.changes,
        files,
    )?;
    let program = read_program(alloc, Some(options.program), files)?;
    let verdict = judge_file(alloc, &program, &shop, options.certificate, files)?;
    let mut events = open_file(None, files)?;
    let request = LiveRequest {
        form,
        feeds_ring: options.feed_ring,
        aborts: options.aborts,
    };
    run_live(alloc, verdict, &mut events, options.delete, request, output)?;
    Ok(Done::Quietly)
}

/// Makes a live run in the requested form. The form is looked up before a file is read.
pub(crate) fn requested_live<F: Files, W: Sink>(
    alloc: Global,
    options: &LiveOptions<'_>,
    files: &mut F,
    output: &mut W,
) -> Result<Done, AnswerFault>
    ensures comes { LiveResult (F.bytes files.old) options.now (requested_live options.now)
        (W.written output.old) (W.written output.new) result }
    ensures unread { FailsByInput (SourceFails F.R.remaining F.R.failures) (F.bytes files.old)
        (live_inputs options.now (requested_live options.now)) (F.failures files.old)
        (F.failures files.new) result }
    ensures sink { FailsByOutput result (W.failures output.old) (W.failures output.new) }
{
    let Some(form) = live_form(options.output, options.inverted) else {
        return Err(AnswerFault::UnknownForm);
    };
    match options.dialect {
        None => live_own(alloc, options, form, files, output),
        Some(control) => live_dialect(alloc, control, options, form, files, output),
    }
}
