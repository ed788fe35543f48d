//! A loaded command, its path, and the position on the path.
ghost use Rattle.std.specs.Prelude.{◌≡◌, ◌≤◌, ◌<◌, ◌+◌, ◌-◌, length, true};
ghost use Rattle.ngc_fixed_length.specs.Length.{IsStep};
ghost use Rattle.ngc_fixed_length.specs.LinePath.{point};
ghost use Rattle.ngc_planner.specs.ArcFeed.{helix_length};
ghost use Rattle.ngc_planner.specs.Bounds.{IsMotion};
ghost use Rattle.ngc_planner.specs.Caps.{STEPS_LIMIT};
ghost use Rattle.ngc_machine_model.specs.State.{Job, path_steps};
ghost use Rattle.ngc_machine_model.specs.Step.{MayTake};
ghost use Rattle.ngc_controller.specs.Loaded.{points_of, place_of, next_place, IsLoaded};

use ngc_commands::{Action, Command, Way};
use ngc_fixed_length::{Nm, StepPos};
use ngc_planner::helix_length;
use ngc_step_kernel::{ArcKernel, LinePath, Path};
use std::marker::Model;

/// The path of a command, and the position on it. A command that is no motion has no path.
#[derive(Drop)]
enum Route<K: ArcKernel + Drop> {
    Line(LinePath),
    Arc(K),
    Still,
}

impl<K: ArcKernel + Drop> Route<K> {
    /// Returns a path of the action on a grid of this step, at its beginning.
    fn of(action: &Action, step: Nm) -> Route<K>
        requires { IsStep step }
        ensures takes { (job : Job) → job.machine.step ≡ step →
            MayTake job action.now (points_of K.points result) }
        ensures place { place_of K.place result ≡ 0 }
        ensures moves { 1 ≤ length (points_of K.points result) - 1 → IsMotion action.now }
    {
        match action {
            Action::Move(motion) => match &motion.way {
                Way::Line { start, end } => Route::Line(LinePath::new(*start, *end, step)),
                Way::Arc(arc) => Route::Arc(K::new(arc, step)),
            },
            _ => Route::Still,
        }
    }

    /// Returns the number of path steps, at the beginning of the path.
    fn path_steps(&self) -> u64
        requires { place_of K.place self.now ≡ 0 }
        ensures value { result ≡ length (points_of K.points self.now) - 1 }
        ensures few { result ≤ STEPS_LIMIT }
    {
        match self {
            Route::Line(line) => line.remaining(),
            Route::Arc(arc) => arc.remaining(),
            Route::Still => 0,
        }
    }

    /// Returns the current point, or zero if there is no path.
    fn position(&self) -> StepPos
        ensures { result ≡ point (points_of K.points self.now) (place_of K.place self.now) }
    {
        match self {
            Route::Line(line) => line.position(),
            Route::Arc(arc) => arc.position(),
            Route::Still => StepPos { x: 0, y: 0, z: 0 },
        }
    }

    /// Returns the number of path steps from the position to the end.
    fn steps_left(&self) -> u64
        requires { 1 < length (points_of K.points self.now) }
        ensures { place_of K.place self.now + result + 1 ≡ length (points_of K.points self.now) }
    {
        match self {
            Route::Line(line) => line.remaining(),
            Route::Arc(arc) => arc.remaining(),
            Route::Still => unreachable!(),
        }
    }

    /// Goes to the next point, if it is due, and returns the current point.
    fn follow(&mut self, due: bool) -> StepPos
        requires moves { 1 < length (points_of K.points self.old) }
        requires room { due ≡ true → place_of K.place self.old + 1
            < length (points_of K.points self.old) }
        ensures points { points_of K.points self.new ≡ points_of K.points self.old }
        ensures place { place_of K.place self.new ≡ next_place (place_of K.place self.old) due }
        ensures point { result ≡ point (points_of K.points self.new) (place_of K.place self.new) }
    {
        match self {
            Route::Line(line) => {
                if due {
                    line.advance();
                }
                line.position()
            }
            Route::Arc(arc) => {
                if due {
                    arc.advance();
                }
                arc.position()
            }
            Route::Still => unreachable!(),
        }
    }
}

/// A loaded command, with the path that was chosen for it and the position on that path.
#[derive(Drop)]
pub struct Loaded<K: ArcKernel + Drop> {
    command: Command,
    route: Route<K>,
    steps: u64,
    /// The step of the grid, and the length of a helix on it. It is stored, so that no tick
    /// computes a root for it.
    step: Nm,
    length: u64,
}

impl<K: ArcKernel + Drop> Model for Loaded<K> {
    ghost use Rattle.ngc_controller.specs.Loaded.{LoadedData, points_of, place_of, IsLoaded};

    ghost Value = { LoadedData };

    ghost view = { λ l.
        record {
          queued = record { command = l.command; path = points_of K.points l.route };
          place = place_of K.place l.route;
        } };

    ghost invariant = { λ l. IsLoaded
        (record { command = l.command; path = points_of K.points l.route }) l.steps l.step
        l.length };
}

impl<K: ArcKernel + Drop> Loaded<K> {
    /// Returns a loaded command at the beginning of a path on a grid of this step.
    pub fn new(command: &Command, step: Nm) -> Loaded<K>
        requires { IsStep step }
        ensures command { result.queued.command ≡ command.now }
        ensures takes { (job : Job) → job.machine.step ≡ step →
            MayTake job command.now.action result.queued.path }
        ensures place { result.place ≡ 0 }
        ensures few { path_steps result.queued ≤ STEPS_LIMIT }
    {
        let route = Route::of(&command.action, step);
        let steps = route.path_steps();
        Loaded {
            command: *command,
            route,
            steps,
            step,
            length: helix_length(&command.action, steps, step),
        }
    }

    /// Returns the command.
    pub fn command(&self) -> &Command
        ensures { result.now ≡ self.now.queued.command }
    {
        &self.command
    }

    /// Returns the number of steps of the path, at most 10^9: 0 for a command that is no motion.
    pub fn path_steps(&self) -> u64
        ensures value { result ≡ path_steps self.now.queued }
        ensures few { result ≤ STEPS_LIMIT }
        ensures moves { 1 ≤ result → IsMotion self.now.queued.command.action }
    {
        self.steps
    }

    /// Returns the length of a helix on a grid of this step, as `helix_length` does: 0 for any
    /// other command. On the grid of its path it was computed when the command was loaded.
    pub fn helix_length(&self, step: Nm) -> u64
        requires { IsStep step }
        ensures { result ≡ helix_length step self.now.queued.command.action
            (path_steps self.now.queued) }
    {
        if step == self.step {
            self.length
        } else {
            helix_length(&self.command.action, self.steps, step)
        }
    }

    /// Returns the current point of the path, or zero for a command that is no motion.
    pub fn position(&self) -> StepPos
        ensures { result ≡ point self.now.queued.path self.now.place }
    {
        self.route.position()
    }

    /// Returns the number of path steps from the position to the end of the path.
    pub fn steps_left(&self) -> u64
        requires { 1 ≤ path_steps self.now.queued }
        ensures { self.now.place + result ≡ path_steps self.now.queued }
    {
        self.route.steps_left()
    }

    /// Returns the last point of the path on a grid of this step, or zero for a command that is no
    /// motion.
    pub fn end(&self, step: Nm) -> StepPos
        requires { IsStep step }
        ensures { (job : Job) → job.machine.step ≡ step →
            MayTake job self.now.queued.command.action self.now.queued.path →
            1 ≤ path_steps self.now.queued →
            result ≡ point self.now.queued.path (path_steps self.now.queued) }
    {
        match &self.command.action {
            Action::Move(motion) => motion.way.end().to_grid(step),
            _ => StepPos { x: 0, y: 0, z: 0 },
        }
    }

    /// Goes to the next point of the path, if it is due, and returns the current point.
    pub fn follow(&mut self, due: bool) -> StepPos
        requires moves { 1 ≤ path_steps self.old.queued }
        requires room { due ≡ true → self.old.place + 1 < length self.old.queued.path }
        ensures queued { self.new.queued ≡ self.old.queued }
        ensures place { self.new.place ≡ next_place self.old.place due }
        ensures point { result ≡ point self.new.queued.path self.new.place }
        ensures motion { IsMotion self.new.queued.command.action }
    {
        self.route.follow(due)
    }
}
