//! The uses of tools in a program.
ghost use Rattle.std.specs.Prelude.{◌≡◌, ◌^◌, ◌<◌, ◌∷◌, [], ◌||◌, MatchOption, None, count_by, sum_by};
ghost use Rattle.std.specs.List.{list_any};
ghost use Rattle.ngc_findings.specs.Uses.{is_change, is_traverse, is_feed, is_arc, is_dwell, is_stop};
ghost use Rattle.ngc_findings.specs.Uses.{traversed, fed, stretch, use_of, moves, changes, tool_uses};
ghost use Rattle.ngc_findings.specs.Uses.{uses_left, IsNextTool};

use crate::ways::length_of;
use ngc_commands::{Action, Command, Motion, Pace, Way};
use ngc_machine_files::Tool;

/// The use of a tool, from the command that mounts it to the next change or to the end. Its motions
/// are traverses, feeds along lines, and arcs.
#[derive(Clone, Copy)]
pub struct ToolUse {
    /// The tool as it is mounted; `None` without a tool.
    pub tool: Option<Tool>,
    pub traverses: usize,
    /// The sum of the traverses' lengths in nanometres, each rounded down.
    pub traverse_way: u128,
    /// The number of feeds along lines.
    pub feeds: usize,
    /// The sum of the feeds' lengths in nanometres, each rounded down.
    pub feed_way: u128,
    pub arcs: usize,
    pub dwells: usize,
    /// The number of M0, M1 and M60.
    pub stops: usize,
}

/// The uses of tools in a list of commands, in order. First is the use without a tool, if something
/// moves before the first change, and then one for each change. The iteration allocates no memory.
#[derive(Drop)]
pub struct ToolUses<'a> {
    first: bool,
    later: &'a [Command],
}

fn is_change(command: &Command) -> bool
    ensures { result ≡ is_change command.now }
{
    command.action.mounts()
}

fn is_traverse(command: &Command) -> bool
    ensures { result ≡ is_traverse command.now }
{
    match command.action {
        Action::Move(
            Motion {
                way: Way::Line { .. },
                pace: Pace::Rapid,
                ..
            },
        ) => true,
        _ => false,
    }
}

fn is_feed(command: &Command) -> bool
    ensures { result ≡ is_feed command.now }
{
    match command.action {
        Action::Move(
            Motion {
                way: Way::Line { .. },
                pace: Pace::Feed(_),
                ..
            },
        ) => true,
        _ => false,
    }
}

fn is_arc(command: &Command) -> bool
    ensures { result ≡ is_arc command.now }
{
    match command.action {
        Action::Move(
            Motion {
                way: Way::Arc(_),
                ..
            },
        ) => true,
        _ => false,
    }
}

fn is_dwell(command: &Command) -> bool
    ensures { result ≡ is_dwell command.now }
{
    match command.action {
        Action::Dwell(_) => true,
        _ => false,
    }
}

fn is_stop(command: &Command) -> bool
    ensures { result ≡ is_stop command.now }
{
    match command.action {
        Action::Stop | Action::OptionalStop => true,
        _ => false,
    }
}

fn traversed(command: &Command) -> u64
    ensures value { result ≡ traversed command.now }
    ensures bound { result < 2 ^ 39 }
{
    if is_traverse(command) {
        length_of(command)
    } else {
        0
    }
}

fn fed(command: &Command) -> u64
    ensures value { result ≡ fed command.now }
    ensures bound { result < 2 ^ 39 }
{
    if is_feed(command) {
        length_of(command)
    } else {
        0
    }
}

/// Returns the commands before the next change.
fn stretch(commands: &[Command]) -> &[Command]
    ensures { result.now ≡ stretch commands.now }
{
    for (i, command) in commands.iter().enumerate() {
        if is_change(command) {
            return &commands[..i];
        }
    }
    commands
}

fn traverses_in(commands: &[Command]) -> usize
    ensures { result ≡ count_by is_traverse commands.now }
{
    commands.iter().filter(|c| is_traverse(c)).count()
}

fn traverse_way_in(commands: &[Command]) -> u128
    ensures { result ≡ sum_by traversed commands.now }
{
    let mut way = 0;
    for command in commands {
        way += u128::from(traversed(command));
    }
    way
}

fn feeds_in(commands: &[Command]) -> usize
    ensures { result ≡ count_by is_feed commands.now }
{
    commands.iter().filter(|c| is_feed(c)).count()
}

fn feed_way_in(commands: &[Command]) -> u128
    ensures { result ≡ sum_by fed commands.now }
{
    let mut way = 0;
    for command in commands {
        way += u128::from(fed(command));
    }
    way
}

fn arcs_in(commands: &[Command]) -> usize
    ensures { result ≡ count_by is_arc commands.now }
{
    commands.iter().filter(|c| is_arc(c)).count()
}

fn dwells_in(commands: &[Command]) -> usize
    ensures { result ≡ count_by is_dwell commands.now }
{
    commands.iter().filter(|c| is_dwell(c)).count()
}

fn stops_in(commands: &[Command]) -> usize
    ensures { result ≡ count_by is_stop commands.now }
{
    commands.iter().filter(|c| is_stop(c)).count()
}

fn has_traverse(commands: &[Command]) -> bool
    ensures { result ≡ list_any is_traverse commands.now }
{
    commands.iter().any(|c| is_traverse(c))
}

fn has_feed(commands: &[Command]) -> bool
    ensures { result ≡ list_any is_feed commands.now }
{
    commands.iter().any(|c| is_feed(c))
}

fn has_arc(commands: &[Command]) -> bool
    ensures { result ≡ list_any is_arc commands.now }
{
    commands.iter().any(|c| is_arc(c))
}

fn has_motion(commands: &[Command]) -> bool
    ensures { result ≡ (list_any is_traverse commands.now
        || (list_any is_feed commands.now || list_any is_arc commands.now)) }
{
    has_traverse(commands) || has_feed(commands) || has_arc(commands)
}

/// Returns whether something moves before the first change of the tool.
pub fn moves_first(commands: &[Command]) -> bool
    ensures { result ≡ moves (use_of None commands.now) }
{
    let before = stretch(commands);
    has_motion(before)
}

impl ToolUse {
    /// Returns the use of a tool that is mounted before these commands.
    pub fn of(tool: Option<Tool>, commands: &[Command]) -> ToolUse
        ensures { result ≡ use_of tool commands.now }
    {
        let commands = stretch(commands);
        ToolUse {
            tool,
            traverses: traverses_in(commands),
            traverse_way: traverse_way_in(commands),
            feeds: feeds_in(commands),
            feed_way: feed_way_in(commands),
            arcs: arcs_in(commands),
            dwells: dwells_in(commands),
            stops: stops_in(commands),
        }
    }
}

/// Returns the tool of the next change, and the commands after it.
fn next_change(commands: &[Command]) -> Option<(Option<Tool>, &[Command])>
    ensures { MatchOption result (changes commands.now ≡ [])
        (λ p. changes commands.now ≡ use_of p.0 p.1.now ∷ changes p.1.now) }
{
    for (i, command) in commands.iter().enumerate() {
        if let Action::Mount(tool) = command.action {
            return Some((tool, &commands[i + 1..]));
        }
    }
    None
}

impl<'a> ToolUses<'a> {
    /// Returns an iteration over all uses.
    pub fn new(commands: &'a [Command]) -> ToolUses<'a>
        ensures { uses_left result ≡ tool_uses commands.now }
    {
        ToolUses {
            first: moves_first(commands),
            later: commands,
        }
    }

    /// Returns the next use, or `None` after the last one.
    pub fn next_use(&mut self) -> Option<ToolUse>
        ensures { MatchOption result (uses_left self.old ≡ [])
            (λ u. uses_left self.old ≡ u ∷ uses_left self.new) }
    {
        if self.first {
            self.first = false;
            return Some(ToolUse::of(None, self.later));
        }
        match next_change(self.later) {
            None => None,
            Some((tool, later)) => {
                self.later = later;
                Some(ToolUse::of(tool, later))
            }
        }
    }

    /// Returns the tool of the next use, `None` within for no tool, or `None` after the last use.
    /// It takes less time than the whole use.
    pub fn next_tool(&mut self) -> Option<Option<Tool>>
        ensures { MatchOption result (uses_left self.old ≡ [])
            (λ tool. IsNextTool self.old tool self.new) }
    {
        if self.first {
            self.first = false;
            return Some(None);
        }
        match next_change(self.later) {
            None => None,
            Some((tool, later)) => {
                self.later = later;
                Some(tool)
            }
        }
    }
}
