//! The mistakes in the words of a program.
ghost use Rattle.std.specs.Prelude.{◌≡◌, ◌+◌, ◌-◌, ◌≤◌, ◌<◌, nat_le, length, slice_get, drop, None};
ghost use Rattle.std.specs.Prelude.{take_while};
ghost use Rattle.ngc_commands.specs.Reached.{after_all};
ghost use Rattle.ngc_machine_files.specs.Machine.{file_of};
ghost use Rattle.ngc_line_reader.specs.ProgramView.{text_in};
ghost use Rattle.ngc_line_reader.specs.ReadLine.{line_read};
ghost use Rattle.ngc_line_reader.specs.ScanLine.{parts_of, parsed_line_of};
ghost use Rattle.ngc_word_warnings.specs.Slips.{mounts_tool, is_mounted, unmounted, slip_in};
ghost use Rattle.ngc_word_warnings.specs.Slips.{last_line, is_executed, step_taken};
ghost use Rattle.ngc_word_warnings.specs.Slips.{step_said, step_read};
ghost use Rattle.ngc_word_warnings.specs.Slips.{slips_of, counted, count_of, given};
ghost use Rattle.ngc_word_warnings.specs.Slips.{other_offset, wrong_offset, goes_home, names_some};
ghost use Rattle.ngc_word_warnings.specs.Slips.{part_home, beginning, is_feed, feeds};
ghost use Rattle.ngc_word_warnings.specs.Slips.{feeds_down, bare_tool, bare_feed, without_offset};
ghost use Rattle.ngc_word_warnings.specs.Slips.{stale_tool, stale_feed, with_stale};
ghost use Rattle.ngc_word_warnings.specs.Slips.{slip_of_kind, slips_of_kind, step_of_kind};
ghost use Rattle.ngc_word_warnings.specs.Offsets.{offset_after};
ghost use Rattle.ngc_word_warnings.specs.Words.{number_after};
ghost use Rattle.ngc_word_warnings.specs.declared.slip.Kind.{Kind};
ghost use Rattle.ngc_line_reader.specs.declared.letter.Letter.TheVariants as letters;
ghost use Rattle.std.specs.Option.{option_and_then};

use crate::between::{Between, Step};
use crate::offset::{Offset, is_apart, is_other};
use crate::said::{axis_words, has_code, number_after, zero_words};
use crate::slip::{AllSlips, Found, LineSlips, Slip, Slips};
use ngc_commands::{Action, Command, Pace, Reached};
use ngc_line_reader::{Letter, Line, Program};
use ngc_machine_files::{Machine, Tool};
use std::alloc::Allocator;

// Returns whether an action mounts the tool of this number, in millionths.
fn mounts_tool(number: i64, action: &Action) -> bool
    ensures { result ≡ mounts_tool number action.now }
{
    match action {
        Action::Mount(Some(tool)) => number == i64::from(tool.number) * 1_000_000,
        _ => false,
    }
}

fn is_mounted(commands: &[Command], number: i64) -> bool
    ensures { result ≡ is_mounted commands.now number }
{
    commands
        .iter()
        .any(|command| mounts_tool(number, &command.action))
}

fn unmounted(commands: &[Command], number: i64) -> Option<Slip>
    ensures { result ≡ unmounted commands.now number }
{
    if 0 < number && !is_mounted(commands, number) {
        Some(Slip::Unmounted { tool: number })
    } else {
        None
    }
}

fn other_offset(mounted: Option<Tool>, offset: i64) -> Option<Slip>
    ensures { result ≡ other_offset mounted offset }
{
    match &mounted {
        Some(tool) if is_other(tool, offset) => Some(Slip::OtherOffset {
            offset,
            tool: tool.number,
        }),
        _ => None,
    }
}

fn wrong_offset(mounted: Option<Tool>, line: &Line) -> Option<Slip>
    ensures { result ≡ wrong_offset mounted (parts_of line.now) }
{
    if !has_code(line, Letter::G, 43_000_000) {
        return None;
    }
    match number_after(line, Letter::H) {
        Some(offset) => other_offset(mounted, offset),
        None => None,
    }
}

fn goes_home(line: &Line) -> bool
    ensures { result ≡ goes_home (parts_of line.now) }
{
    has_code(line, Letter::G, 28_000_000) || has_code(line, Letter::G, 30_000_000)
}

fn names_some(words: u8, zeros: u8) -> bool
    ensures { result ≡ names_some words zeros }
{
    (words == 1 || words == 2) && words == zeros
}

fn part_home(line: &Line) -> Option<Slip>
    ensures { result ≡ part_home (parts_of line.now) }
{
    if goes_home(line) && names_some(axis_words(line), zero_words(line)) {
        Some(Slip::PartHome)
    } else {
        None
    }
}

fn is_feed(pace: &Pace) -> bool
    ensures { result ≡ is_feed pace.now }
{
    match pace {
        Pace::Rapid => false,
        Pace::Feed(_) => true,
    }
}

fn feeds_down(before: &Reached, action: &Action) -> bool
    ensures { result ≡ feeds_down before.now action.now }
{
    match action {
        Action::Move(motion) => {
            is_feed(&motion.pace) && motion.way.end().z.nanometres() < before.place.z.nanometres()
        }
        _ => false,
    }
}

fn bare_tool(tool: &Option<Tool>, down: bool) -> Option<Slip>
    ensures { result ≡ bare_tool tool.now down }
{
    match tool {
        Some(tool) if down && tool.offset.nanometres() != 0 => Some(Slip::NoOffset {
            tool: tool.number,
        }),
        _ => None,
    }
}

fn bare_feed(reached: Reached, commands: &[Command]) -> Option<Slip>
    ensures { result ≡ bare_feed reached commands.now }
{
    let mut before = reached;
    for command in commands {
        let slip = bare_tool(&before.tool, feeds_down(&before, &command.action));
        if slip.is_some() {
            return slip;
        }
        before = before.after(&command.action);
    }
    None
}

fn without_offset(offset: &Offset, reached: Reached, commands: &[Command]) -> Option<Slip>
    ensures { result ≡ without_offset offset.now reached commands.now }
{
    if offset.is_applied() {
        None
    } else {
        bare_feed(reached, commands)
    }
}

fn feeds(action: &Action) -> bool
    ensures { result ≡ feeds action.now }
{
    match action {
        Action::Move(motion) => is_feed(&motion.pace),
        _ => false,
    }
}

fn stale_tool(tools: &[Tool], number: &i64, tool: &Option<Tool>, feeding: bool) -> Option<Slip>
    ensures { result ≡ stale_tool tools.now number.now tool.now feeding }
{
    match tool {
        Some(tool) if feeding && is_apart(tools, *number, tool) => Some(Slip::StaleOffset {
            offset: *number,
            tool: tool.number,
        }),
        _ => None,
    }
}

fn stale_feed(tools: &[Tool], number: &i64, reached: Reached, commands: &[Command]) -> Option<Slip>
    ensures { result ≡ stale_feed tools.now number.now reached commands.now }
{
    let mut before = reached;
    for command in commands {
        let slip = stale_tool(tools, number, &before.tool, feeds(&command.action));
        if slip.is_some() {
            return slip;
        }
        before = before.after(&command.action);
    }
    None
}

fn with_stale(
    tools: &[Tool],
    offset: &Offset,
    reached: Reached,
    commands: &[Command],
) -> Option<Slip>
    ensures { result ≡ with_stale tools.now offset.now reached commands.now }
{
    match offset {
        Offset::Of(number) => stale_feed(tools, number, reached, commands),
        Offset::Off | Offset::Other => None,
    }
}

/// Returns the commands of the lines up to this one.
fn up_to(number: u32, commands: &[Command]) -> &[Command]
    ensures value { result.now ≡ take_while (λ c. nat_le c.line number) commands.now }
    ensures few { length result.now ≤ length commands.now }
{
    for (i, command) in commands.iter().enumerate() {
        if number < command.line {
            return &commands[..i];
        }
    }
    commands
}

impl Between {
    fn at_start<A: Allocator>(machine: &Machine<A>) -> Between
        ensures { result ≡ beginning (file_of machine.now) }
    {
        Between {
            count: 0,
            reached: Reached::at_start(machine),
            offset: Offset::Off,
        }
    }

    // Returns the commands of the line with this number.
    fn given<'a>(&self, number: u32, commands: &'a [Command]) -> &'a [Command]
        requires { self.now.count ≤ length commands.now }
        ensures value { result.now ≡ given number commands.now self.now }
        ensures few { self.now.count + length result.now ≤ length commands.now }
    {
        up_to(number, &commands[self.count..])
    }

    // Returns the state after a line with these commands.
    fn after_line(&self, line: &Line, given: &[Command]) -> Between
        requires { self.now.count + length given.now ≤ usize.MAX }
        ensures { result ≡ record {
          count = self.now.count + length given.now;
          reached = after_all self.now.reached given.now;
          offset = offset_after (after_all self.now.reached given.now).tool self.now.offset
              (parts_of line.now);
        } }
    {
        let reached = self.reached.after_all(given);
        Between {
            count: self.count + given.len(),
            reached,
            offset: self.offset.after(&reached.tool, line),
        }
    }
}

fn unmounted_in(commands: &[Command], line: &Line) -> Option<Slip>
    ensures { result ≡ option_and_then (unmounted commands.now)
        (number_after letters.T (parts_of line.now)) }
{
    match number_after(line, Letter::T) {
        Some(number) => unmounted(commands, number),
        None => None,
    }
}

fn slips_in(
    tools: &[Tool],
    commands: &[Command],
    before: &Between,
    given: &[Command],
    line: &Line,
    after: &Between,
) -> LineSlips
    ensures { (kind : Kind) → slip_of_kind kind result ≡ slip_in kind tools.now commands.now
        before.now given.now (parts_of line.now) after.now }
{
    LineSlips {
        unmounted: unmounted_in(commands, line),
        other_offset: wrong_offset(after.reached.tool, line),
        no_offset: without_offset(&after.offset, before.reached, given),
        stale_offset: with_stale(tools, &after.offset, before.reached, given),
        part_home: part_home(line),
    }
}

fn last_line(commands: &[Command]) -> u32
    ensures { result ≡ last_line (slice_get commands.now (length commands.now - 1)) }
{
    match commands.last() {
        Some(command) => command.line,
        None => 0,
    }
}

fn is_executed(deletes: bool, commands: &[Command], number: u32, deleted: bool) -> bool
    ensures { result ≡ is_executed deletes commands.now number deleted }
{
    number <= last_line(commands) && !(deletes && deleted)
}

fn step_taken(
    tools: &[Tool],
    commands: &[Command],
    before: &Between,
    number: u32,
    line: &Line,
) -> Step
    requires { before.now.count ≤ length commands.now }
    ensures value { (kind : Kind) → step_of_kind kind result ≡
        step_taken kind tools.now commands.now before.now number (parts_of line.now) }
    ensures few { result.between.count ≤ length commands.now }
{
    let given = before.given(number, commands);
    let after = before.after_line(line, given);
    Step {
        slips: slips_in(tools, commands, before, given, line, &after),
        between: after,
    }
}

fn step_said(
    tools: &[Tool],
    deletes: bool,
    commands: &[Command],
    before: &Between,
    number: u32,
    line: &Line,
) -> Step
    requires { before.now.count ≤ length commands.now }
    ensures value { (kind : Kind) → step_of_kind kind result ≡
        step_said kind tools.now deletes commands.now before.now number (parsed_line_of line.now) }
    ensures few { result.between.count ≤ length commands.now }
{
    if is_executed(deletes, commands, number, line.deleted) {
        step_taken(tools, commands, before, number, line)
    } else {
        Step::nothing(before)
    }
}

// Reads a line into space that the caller keeps.
fn step_read(
    tools: &[Tool],
    deletes: bool,
    commands: &[Command],
    before: &Between,
    number: u32,
    bytes: &[u8],
    line: &mut Line,
) -> Step
    requires { before.now.count ≤ length commands.now }
    ensures value { (kind : Kind) → step_of_kind kind result ≡
        step_read kind tools.now deletes commands.now before.now number (line_read bytes.now) }
    ensures few { result.between.count ≤ length commands.now }
{
    match line.read(bytes) {
        Ok(()) => step_said(tools, deletes, commands, before, number, line),
        Err(_) => Step::nothing(before),
    }
}

fn counted(found: Option<Slips>, line: u32, slip: Option<Slip>) -> Option<Slips>
    requires { count_of found < usize.MAX }
    ensures value { result ≡ counted found line slip }
    ensures few { count_of result ≤ count_of found + 1 }
{
    match (found, slip) {
        (found, None) => found,
        (None, Some(slip)) => Some(Slips {
            first: Found { line, slip },
            count: 1,
        }),
        (Some(slips), Some(_)) => Some(Slips {
            count: slips.count + 1,
            ..slips
        }),
    }
}

impl AllSlips {
    fn none() -> AllSlips
        ensures { (kind : Kind) → slips_of_kind kind result ≡ None }
    {
        AllSlips {
            unmounted: None,
            other_offset: None,
            no_offset: None,
            stale_offset: None,
            part_home: None,
        }
    }

    // Returns the mistakes with those of one more line.
    fn with(&self, line: u32, slips: &LineSlips) -> AllSlips
        requires { (kind : Kind) → count_of (slips_of_kind kind self.now) < usize.MAX }
        ensures { (kind : Kind) → slips_of_kind kind result ≡
            counted (slips_of_kind kind self.now) line (slip_of_kind kind slips.now) }
    {
        AllSlips {
            unmounted: counted(self.unmounted, line, slips.unmounted),
            other_offset: counted(self.other_offset, line, slips.other_offset),
            no_offset: counted(self.no_offset, line, slips.no_offset),
            stale_offset: counted(self.stale_offset, line, slips.stale_offset),
            part_home: counted(self.part_home, line, slips.part_home),
        }
    }
}

/// Returns the mistakes of each kind in the lines of a program that are executed on a machine with its
/// tools: `None` if no line has one. `commands` are the program's commands at the same setting of block
/// delete. Each line is read once, and the time is in proportion to the lines and the commands.
pub fn slips_of<A: Allocator, B: Allocator>(
    deletes: bool,
    program: &Program<A>,
    machine: &Machine<B>,
    tools: &[Tool],
    commands: &[Command],
) -> AllSlips
    ensures { (kind : Kind) → slips_of_kind kind result ≡ slips_of kind tools.now deletes
        (file_of machine.now) commands.now (text_in program.now).lines }
{
    let mut found = AllSlips::none();
    let mut between = Between::at_start(machine);
    let mut line = Line::empty();
    for index in 0..program.len() {
        let number = program.number(index);
        let step = step_read(
            tools,
            deletes,
            commands,
            &between,
            number,
            program.bytes(index),
            &mut line,
        );
        found = found.with(number, &step.slips);
        between = step.between;
    }
    found
}
