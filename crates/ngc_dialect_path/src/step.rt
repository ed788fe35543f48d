//! A line where compensation is on, begins or ends: where the tool is after it, and the plain lines.
ghost use Rattle.std.specs.Prelude.{◌≡◌, ◌≤◌, ◌+◌, IfOk};
ghost use Rattle.arrayvec.specs.ArrayVec.{array_vec_len};
ghost use Rattle.ngc_line_reader.specs.Scan.{Gives};
ghost use Rattle.ngc_machine_files.specs.Tools.{tools_of};
ghost use Rattle.ngc_dialect_path.specs.Steps as spec;
ghost use Rattle.ngc_dialect_path.specs.Steps.{written_in};

use crate::beginning::{begun, radius_of};
use crate::line::{PathLine, path_line};
use crate::path::{Beside, Path, in_distance, is_holding, known_at, left_at, programmed};
use crate::tables::PROGRAM_ENDS;
use crate::target::{last_move, next_moves, straight_end};
use crate::writing::{add_code_line, add_lift, add_move, add_straight};
use ngc_compensation::{Move, Outcome};
use ngc_dialect_parameters::Word;
use ngc_dialect_rules::{
    Action, Code, Fault, Front, InForce, Known, PlainLines, add_action, is_among,
};
use ngc_fixed_length::{Distance, Point3};
use ngc_machine_files::Tools;
use std::alloc::Allocator;

/// The plain lines of a line: those of the held move, and the line's own.
#[derive(Drop)]
pub struct PathLines {
    pub made: PlainLines,
    pub own: PlainLines,
}

/// Where the tool is while a line is carried out.
#[derive(Clone, Copy)]
pub struct Course {
    pub path: Option<Path>,
    /// Whether the held move is made, and what waits for it is executed.
    pub releases: bool,
    /// The tool's place after the plain lines so far.
    pub place: Point3,
}

/// What a line does, besides its plain lines.
#[derive(Clone, Copy)]
pub struct PathStep {
    pub front: Front,
    pub path: Option<Path>,
    /// Whether the held move is made, and what waits for it is executed, before the line's own plain
    /// lines.
    pub releases: bool,
    /// Whether the line's own plain lines wait for the held move.
    pub waits: bool,
    /// A stop that waits for the line's own move.
    pub stop: Option<Code>,
}

// Returns the compensation that goes on after a move.
fn on_with(moves: &Outcome, distance: Distance, line: u32) -> Option<Path>
    ensures { result ≡ spec.on_with moves.now distance line }
{
    Some(Path::On(Beside {
        moves: moves.next,
        distance,
        line,
    }))
}

// ---- G40

// Ends compensation after its held move.
#[tactic(auto, unfolding(crate::specs::Steps::left))]
fn leave(
    known: &Known,
    beside: &Beside,
    last: &Move,
    lines: &mut PathLines,
) -> Result<Course, Fault>
    requires { array_vec_len lines.old.made ≤ 32 }
    ensures says { Gives (λ c. (c, written_in lines.new)) result
        (spec.left known.now beside.now last.now (written_in lines.old)) }
    ensures made { array_vec_len lines.new.made ≤ array_vec_len lines.old.made + 16 }
    ensures own { array_vec_len lines.new.own ≡ array_vec_len lines.old.own }
{
    match add_move(known, last, &mut lines.made) {
        Ok(()) => Ok(Course {
            path: Some(Path::Left(left_at(known.modes.plane, beside))),
            releases: true,
            place: last.end.at_height(known.modes.plane, beside.moves.height),
        }),
        Err(fault) => Err(fault),
    }
}

// Ends compensation.
#[tactic(auto, unfolding(crate::specs::Steps::ended))]
fn end_path(known: &Known, course: &Course, lines: &mut PathLines) -> Result<Course, Fault>
    requires { array_vec_len lines.old.made ≤ 32 }
    ensures says { Gives (λ c. (c, written_in lines.new)) result
        (spec.ended known.now course.now (written_in lines.old)) }
    ensures made { array_vec_len lines.new.made ≤ array_vec_len lines.old.made + 16 }
    ensures own { array_vec_len lines.new.own ≡ array_vec_len lines.old.own }
{
    match &course.path {
        None | Some(Path::Left(_)) => Ok(*course),
        Some(Path::On(beside)) => match last_move(beside) {
            Ok(None) => Ok(Course {
                path: None,
                ..*course
            }),
            Ok(Some(last)) => leave(known, beside, &last, lines),
            Err(fault) => Err(fault),
        },
    }
}

// Ends compensation if the line has G40.
fn end_if(
    known: &Known,
    ends: bool,
    course: &Course,
    lines: &mut PathLines,
) -> Result<Course, Fault>
    requires { array_vec_len lines.old.made ≤ 32 }
    ensures says { Gives (λ c. (c, written_in lines.new)) result
        (spec.ended_if known.now ends course.now (written_in lines.old)) }
    ensures made { array_vec_len lines.new.made ≤ array_vec_len lines.old.made + 16 }
    ensures own { array_vec_len lines.new.own ≡ array_vec_len lines.old.own }
{
    if ends {
        end_path(known, course, lines)
    } else {
        Ok(*course)
    }
}

// ---- G41, G42

// Begins compensation, if the line does.
fn start_if<A: Allocator>(
    known: &Known,
    tools: &Tools<A>,
    line: &PathLine,
    course: &Course,
) -> Result<Course, Fault>
    ensures { result ≡ spec.started known.now (tools_of tools.now) line.now course.now line.now.start }
{
    match &line.start {
        None => Ok(*course),
        Some(start) => {
            let radius = radius_of(tools, start)?;
            let path = begun(
                &programmed(known, &course.path),
                &course.path,
                line,
                start,
                radius,
            )?;
            Ok(Course { path, ..*course })
        }
    }
}

// ---- the motion

// Leads the tool back to programmed places.
#[tactic(auto, unfolding(crate::specs::Steps::led_back))]
fn lead_back(
    known: &Known,
    force: &InForce,
    action: &Action,
    course: &Course,
    lines: &mut PlainLines,
) -> Result<Course, Fault>
    requires { array_vec_len lines.old ≤ 21 }
    ensures says { Gives (λ c. (c, lines.new.items)) result
        (spec.led_back known.now force.now action.now course.now lines.old.items) }
    ensures room { array_vec_len lines.new ≤ array_vec_len lines.old + 16 }
{
    let straight = straight_end(&programmed(known, &course.path), force, action)?;
    let here = known_at(known, &course.place, force.distance);
    match add_straight(&here, &straight, lines) {
        Ok(()) => Ok(Course {
            path: None,
            releases: course.releases,
            place: straight.end,
        }),
        Err(fault) => Err(fault),
    }
}

// Goes round a corner, if there is a move for it. Returns where the tool is then.
#[tactic(auto, unfolding(crate::specs::Steps::rounded))]
fn round_corner(
    known: &Known,
    corner: &Option<Move>,
    lines: &mut PlainLines,
) -> Result<Point3, Fault>
    requires { array_vec_len lines.old ≤ 21 }
    ensures says { Gives (λ p. (p, lines.new.items)) result
        (spec.rounded known.now corner.now lines.old.items) }
    ensures room { array_vec_len lines.new ≤ array_vec_len lines.old + 16 }
{
    match corner {
        None => Ok(known.place),
        Some(corner) => match add_move(known, corner, lines) {
            Ok(()) => Ok(corner.end.at_height(known.modes.plane, corner.height)),
            Err(fault) => Err(fault),
        },
    }
}

// Makes the held move, and goes round the corner.
#[tactic(auto, unfolding(crate::specs::Steps::settled))]
fn settle(
    known: &Known,
    distance: Distance,
    beside: &Beside,
    moves: &Outcome,
    last: &Move,
    lines: &mut PathLines,
) -> Result<Point3, Fault>
    requires made { array_vec_len lines.old.made ≤ 16 }
    requires own { array_vec_len lines.old.own ≤ 21 }
    ensures says { Gives (λ p. (p, written_in lines.new)) result
        (spec.settled known.now distance beside.now moves.now last.now (written_in lines.old)) }
    ensures made { array_vec_len lines.new.made ≤ 32 }
    ensures own { array_vec_len lines.new.own ≤ 37 }
{
    match add_move(known, last, &mut lines.made) {
        Ok(()) => {}
        Err(fault) => return Err(fault),
    }
    let there = last.end.at_height(known.modes.plane, beside.moves.height);
    round_corner(
        &known_at(known, &there, distance),
        &moves.corner,
        &mut lines.own,
    )
}

// Goes on after the programmed move: the held move is made, or none was held, or the move is along the
// third axis alone.
#[tactic(auto, unfolding(crate::specs::Steps::followed))]
fn follow(
    known: &Known,
    number: u32,
    line: &PathLine,
    action: &Action,
    beside: &Beside,
    moves: &Outcome,
    lines: &mut PathLines,
) -> Result<Course, Fault>
    requires made { array_vec_len lines.old.made ≤ 16 }
    requires own { array_vec_len lines.old.own ≤ 21 }
    ensures says { Gives (λ c. (c, written_in lines.new)) result
        (spec.followed known.now number line.now action.now beside.now moves.now
        (written_in lines.old)) }
    ensures made { array_vec_len lines.new.made ≤ 32 }
    ensures own { array_vec_len lines.new.own ≤ 37 }
{
    let distance = line.force.distance;
    match &moves.made {
        Some(last) => match settle(known, distance, beside, moves, last, lines) {
            Ok(place) => Ok(Course {
                path: on_with(moves, distance, number),
                releases: true,
                place,
            }),
            Err(fault) => Err(fault),
        },
        None => {
            if beside.moves.held.is_none() {
                return Ok(Course {
                    path: on_with(moves, distance, number),
                    releases: false,
                    place: known.place,
                });
            }
            add_lift(known, action, &mut lines.own);
            Ok(Course {
                path: on_with(moves, distance, beside.line),
                releases: false,
                place: known.place,
            })
        }
    }
}

// Carries out the motion where compensation is on.
fn go_beside(
    known: &Known,
    number: u32,
    line: &PathLine,
    action: &Action,
    beside: &Beside,
    lines: &mut PathLines,
) -> Result<Course, Fault>
    requires made { array_vec_len lines.old.made ≤ 16 }
    requires own { array_vec_len lines.old.own ≤ 21 }
    ensures says { Gives (λ c. (c, written_in lines.new)) result
        (spec.gone_beside known.now number line.now action.now beside.now (written_in lines.old)) }
    ensures made { array_vec_len lines.new.made ≤ 32 }
    ensures own { array_vec_len lines.new.own ≤ 37 }
{
    let seen = programmed(known, &Some(Path::On(*beside)));
    match next_moves(&seen, beside, &line.force, action) {
        Ok(moves) => follow(known, number, line, action, beside, &moves, lines),
        Err(fault) => Err(fault),
    }
}

// Carries out the motion where compensation has ended.
#[tactic(auto, unfolding(crate::specs::Steps::gone_back))]
fn go_back(
    known: &Known,
    force: &InForce,
    action: &Action,
    course: &Course,
    lines: &mut PathLines,
) -> Result<Course, Fault>
    requires made { array_vec_len lines.old.made ≤ 16 }
    requires own { array_vec_len lines.old.own ≤ 21 }
    ensures says { Gives (λ c. (c, written_in lines.new)) result
        (spec.gone_back known.now force.now action.now course.now (written_in lines.old)) }
    ensures made { array_vec_len lines.new.made ≤ 32 }
    ensures own { array_vec_len lines.new.own ≤ 37 }
{
    lead_back(known, force, action, course, &mut lines.own)
}

// Carries out the motion.
#[tactic(auto, unfolding(crate::specs::Steps::moved))]
fn go(
    known: &Known,
    number: u32,
    line: &PathLine,
    action: &Action,
    course: &Course,
    lines: &mut PathLines,
) -> Result<Course, Fault>
    requires made { array_vec_len lines.old.made ≤ 16 }
    requires own { array_vec_len lines.old.own ≤ 21 }
    ensures says { Gives (λ c. (c, written_in lines.new)) result
        (spec.moved known.now number line.now action.now course.now (written_in lines.old)) }
    ensures made { array_vec_len lines.new.made ≤ 32 }
    ensures own { array_vec_len lines.new.own ≤ 37 }
{
    match &course.path {
        None => {
            add_action(&mut lines.own, line.force.units, action);
            Ok(*course)
        }
        Some(Path::Left(_)) => go_back(known, &line.force, action, course, lines),
        Some(Path::On(beside)) => go_beside(known, number, line, action, beside, lines),
    }
}

// Carries out the motion, if the line has one.
fn go_if(
    known: &Known,
    number: u32,
    line: &PathLine,
    course: &Course,
    lines: &mut PathLines,
) -> Result<Course, Fault>
    requires made { array_vec_len lines.old.made ≤ 16 }
    requires own { array_vec_len lines.old.own ≤ 21 }
    ensures says { Gives (λ c. (c, written_in lines.new)) result
        (spec.moved_if known.now number line.now course.now (written_in lines.old)
        line.now.motion) }
    ensures made { array_vec_len lines.new.made ≤ 32 }
    ensures own { array_vec_len lines.new.own ≤ 37 }
{
    match &line.motion {
        None => Ok(*course),
        Some(action) => go(known, number, line, action, course, lines),
    }
}

// ---- the stop

// Makes the held move before the program ends.
#[tactic(auto, unfolding(crate::specs::Steps::last_made))]
fn make_last(
    known: &Known,
    distance: Distance,
    waits: bool,
    course: &Course,
    last: &Move,
    lines: &mut PathLines,
) -> Result<Course, Fault>
    requires made { array_vec_len lines.old.made ≤ 32 }
    requires own { array_vec_len lines.old.own ≤ 37 }
    ensures says { Gives (λ c. (c, written_in lines.new)) result
        (spec.last_made known.now distance waits course.now last.now (written_in lines.old)) }
    ensures own { array_vec_len lines.new.own ≤ 53 }
{
    let made = if waits {
        add_move(known, last, &mut lines.made)
    } else {
        add_move(
            &known_at(known, &course.place, distance),
            last,
            &mut lines.own,
        )
    };
    match made {
        Ok(()) => Ok(Course {
            path: None,
            releases: waits || course.releases,
            place: course.place,
        }),
        Err(fault) => Err(fault),
    }
}

// Ends compensation before the program ends.
#[tactic(auto, unfolding(crate::specs::Steps::over))]
fn end_before(
    known: &Known,
    distance: Distance,
    waits: bool,
    course: &Course,
    lines: &mut PathLines,
) -> Result<Course, Fault>
    requires made { array_vec_len lines.old.made ≤ 32 }
    requires own { array_vec_len lines.old.own ≤ 37 }
    ensures says { Gives (λ c. (c, written_in lines.new)) result
        (spec.over known.now distance waits course.now (written_in lines.old)) }
    ensures own { array_vec_len lines.new.own ≤ 53 }
{
    match &course.path {
        None | Some(Path::Left(_)) => Ok(*course),
        Some(Path::On(beside)) => match last_move(beside) {
            Ok(None) => Ok(*course),
            Ok(Some(last)) => make_last(known, distance, waits, course, &last, lines),
            Err(fault) => Err(fault),
        },
    }
}

// Ends compensation if the line ends the program.
fn end_before_if(
    known: &Known,
    line: &PathLine,
    waits: bool,
    course: &Course,
    lines: &mut PathLines,
) -> Result<Course, Fault>
    requires made { array_vec_len lines.old.made ≤ 32 }
    requires own { array_vec_len lines.old.own ≤ 37 }
    ensures says { Gives (λ c. (c, written_in lines.new)) result
        (spec.over_if known.now line.now waits course.now (written_in lines.old) line.now.stop) }
    ensures own { array_vec_len lines.new.own ≤ 53 }
{
    match line.stop {
        None => Ok(*course),
        Some(code) => {
            if is_among(&PROGRAM_ENDS, code) {
                end_before(known, line.force.distance, waits, course, lines)
            } else {
                Ok(*course)
            }
        }
    }
}

// Writes a stop, unless it waits for the line's own move. Returns the one that waits.
fn stop_if(
    waits: bool,
    path: &Option<Path>,
    stop: Option<Code>,
    lines: &mut PathLines,
) -> Option<Code>
    requires own { array_vec_len lines.old.own ≤ 53 }
    ensures waiting { result ≡ spec.waiting waits path.now stop }
    ensures lines { written_in lines.new ≡ spec.stopped waits path.now (written_in lines.old) stop }
{
    match stop {
        None => None,
        Some(code) => {
            if !waits && is_holding(path) {
                return Some(code);
            }
            add_code_line(code, &mut lines.own);
            None
        }
    }
}

// ---- the line

// Carries out a line up to its stop.
#[tactic(auto, unfolding(crate::specs::Steps::course_of))]
fn course_of<A: Allocator>(
    known: &Known,
    tools: &Tools<A>,
    number: u32,
    path: &Option<Path>,
    line: &PathLine,
    lines: &mut PathLines,
) -> Result<Course, Fault>
    requires made { array_vec_len lines.old.made ≤ 0 }
    requires own { array_vec_len lines.old.own ≤ 21 }
    ensures says { Gives (λ c. (c, written_in lines.new)) result
        (spec.course_of known.now (tools_of tools.now) number path.now line.now
        (written_in lines.old)) }
    ensures made { array_vec_len lines.new.made ≤ 32 }
    ensures own { array_vec_len lines.new.own ≤ 37 }
{
    let begins = Course {
        path: in_distance(path, line.force.distance),
        releases: false,
        place: known.place,
    };
    let ended = end_if(known, line.ends, &begins, lines)?;
    let started = start_if(known, tools, line, &ended)?;
    go_if(known, number, line, &started, lines)
}

// Carries out a line.
#[tactic(auto, unfolding(crate::specs::Steps::step_of))]
fn step_of<A: Allocator>(
    known: &Known,
    tools: &Tools<A>,
    number: u32,
    path: &Option<Path>,
    line: &PathLine,
    lines: &mut PathLines,
) -> Result<PathStep, Fault>
    requires made { array_vec_len lines.old.made ≤ 0 }
    requires own { array_vec_len lines.old.own ≤ 21 }
    ensures { Gives (λ s. (s, written_in lines.new)) result
        (spec.step_of known.now (tools_of tools.now) number path.now line.now
        (written_in lines.old)) }
{
    let went = course_of(known, tools, number, path, line, lines)?;
    let waited = is_holding(path) && !went.releases;
    let over = end_before_if(known, line, waited, &went, lines)?;
    let waits = is_holding(path) && !over.releases;
    let stop = stop_if(waits, &over.path, line.stop, lines);
    Ok(PathStep {
        front: line.front,
        path: over.path,
        releases: over.releases,
        waits,
        stop,
    })
}

/// Carries out a line where compensation is on, begins or ends: puts the plain lines of the held move and
/// the line's own into `lines`, and returns what it does besides. `known` is what our own interpreter
/// knows, and `number` is the line's. Returns the first refusal; the contents of `lines` are then
/// unspecified.
///
/// The plain lines of the held move belong to its own line, `held_line`; what waits for it follows, and
/// then the line's own.
#[tactic(auto, unfolding(crate::specs::Steps::path_step))]
pub fn path_step<A: Allocator>(
    known: &Known,
    tools: &Tools<A>,
    number: u32,
    path: &Option<Path>,
    words: &[Word],
    lines: &mut PathLines,
) -> Result<PathStep, Fault>
    ensures { Gives (λ s. (s, written_in lines.new)) result
        (spec.path_step known.now (tools_of tools.now) number path.now words.now) }
{
    lines.made.clear();
    let line = path_line(&programmed(known, path), path, words, &mut lines.own)?;
    step_of(known, tools, number, path, &line, lines)
}

/// Ends compensation after the program's last line: puts the plain lines of the held move into `lines`, and
/// returns whether there is one. Returns the first refusal; the contents of `lines` are then unspecified.
#[tactic(auto, unfolding(crate::specs::Steps::path_end))]
pub fn path_end(known: &Known, path: &Option<Path>, lines: &mut PathLines) -> Result<bool, Fault>
    ensures { Gives (λ releases. (releases, lines.new.made.items)) result
        (spec.path_end known.now path.now) }
{
    lines.made.clear();
    lines.own.clear();
    let begins = Course {
        path: *path,
        releases: false,
        place: known.place,
    };
    match end_path(known, &begins, lines) {
        Ok(course) => Ok(course.releases),
        Err(fault) => Err(fault),
    }
}
