//! Prints the tool's moves beside programmed ones. A line of standard input has moves that are
//! separated by bars, and words that stay in force: G41 or G42 with the radius R at the place where
//! it begins, G0 to G3 with U, V and the height W where a move ends and with I and J for an arc's
//! centre, and G40. Lengths are in nanometres, and what is missing is 0. A colon begins a comment.
#![tactic(auto)]

mod words;

use ngc_compensation::{Compensation, Motion, Move, Outcome, Refusal, Side};
use ngc_fixed_length::{Plane, Point2, Turn};
use std::io;
use words::Words;

fn print_straight(rt: &impl Print, name: &str, made: &Move) -> io::Result<()> {
    let u = made.end.u.nanometres();
    let v = made.end.v.nanometres();
    let w = made.height.nanometres();
    println!(rt; "  {name} {u} {v} {w}")
}

fn print_arc(rt: &impl Print, name: &str, centre: Point2, made: &Move) -> io::Result<()> {
    let i = centre.u.nanometres();
    let j = centre.v.nanometres();
    let u = made.end.u.nanometres();
    let v = made.end.v.nanometres();
    let w = made.height.nanometres();
    println!(rt; "  arc {name} {i} {j} to {u} {v} {w}")
}

fn print_move(rt: &impl Print, made: &Move) -> io::Result<()> {
    match made.motion {
        Motion::Traverse => print_straight(rt, "traverse", made),
        Motion::Feed => print_straight(rt, "feed", made),
        Motion::Arc(Turn::Clockwise, centre) => print_arc(rt, "cw", centre, made),
        Motion::Arc(Turn::Counterclockwise, centre) => print_arc(rt, "ccw", centre, made),
    }
}

fn print_refusal(rt: &impl Print, refusal: Refusal) -> io::Result<()> {
    let number = refusal.number();
    println!(rt; "  refused {number}: {refusal}")
}

/// A move along the third axis, at the feed or at traverse rate.
#[derive(Clone, Copy)]
struct Lift {
    is_feed: bool,
    height: i64,
}

/// Compensation that is on, and the moves along the third axis that wait for the end of the held
/// move.
#[derive(Drop)]
struct Run {
    compensation: Option<Compensation>,
    waiting: Vec<Lift>,
}

// Returns whether a step took a move along the third axis alone.
fn is_lift(before: &Compensation, outcome: &Outcome) -> bool {
    before.held.is_some() && outcome.made.is_none()
}

fn print_lift(rt: &impl Print, lift: &Lift, made: &Move) -> io::Result<()> {
    let name = if lift.is_feed { "feed" } else { "traverse" };
    let u = made.end.u.nanometres();
    let v = made.end.v.nanometres();
    let w = lift.height;
    println!(rt; "  {name} {u} {v} {w}")
}

// Prints the moves along the third axis at the end of the held move.
fn print_waiting(rt: &impl Print, waiting: &[Lift], made: &Move) -> io::Result<()> {
    for lift in waiting {
        print_lift(rt, lift, made)?;
    }
    Ok(())
}

impl Run {
    // Prints the held move as it is made, and the moves that waited for its end.
    fn print_made(&mut self, rt: &impl Print, made: &Move) -> io::Result<()> {
        print_move(rt, made)?;
        print_waiting(rt, &self.waiting, made)?;
        self.waiting.clear();
        Ok(())
    }

    fn start(&mut self, rt: &impl Print, side: Side, words: &Words) -> io::Result<()> {
        let is_on = self.compensation.is_some();
        let plane = match words.plane {
            18 => Plane::ZX,
            19 => Plane::YZ,
            _ => Plane::XY,
        };
        let height = words.height;
        match Compensation::start(is_on, plane, side, words.radius, &words.place, height) {
            Ok(started) => {
                self.compensation = started;
                Ok(())
            }
            Err(refusal) => print_refusal(rt, refusal),
        }
    }

    fn finish(&mut self, rt: &impl Print) -> io::Result<()> {
        let Some(compensation) = self.compensation else {
            return Ok(());
        };
        self.compensation = None;
        match compensation.finish() {
            Ok(Some(made)) => self.print_made(rt, &made),
            Ok(None) => Ok(()),
            Err(refusal) => print_refusal(rt, refusal),
        }
    }

    fn take(&mut self, rt: &impl Print, outcome: &Outcome) -> io::Result<()> {
        if let Some(made) = &outcome.made {
            self.print_made(rt, made)?;
        }
        if let Some(corner) = &outcome.corner {
            print_move(rt, corner)?;
        }
        self.compensation = Some(outcome.next);
        Ok(())
    }

    // Keeps a move along the third axis until the end of the held move is known.
    fn keep(&mut self, next: &Move) -> io::Result<()> {
        self.waiting.push(Lift {
            is_feed: matches!(next.motion, Motion::Feed),
            height: next.height.nanometres(),
        })?;
        Ok(())
    }

    fn step(&mut self, rt: &impl Print, next: &Move) -> io::Result<()> {
        let Some(compensation) = self.compensation else {
            return print_move(rt, next);
        };
        match compensation.step(next) {
            Ok(outcome) => {
                if is_lift(&compensation, &outcome) {
                    self.keep(next)?;
                }
                self.take(rt, &outcome)
            }
            Err(refusal) => print_refusal(rt, refusal),
        }
    }

    fn execute(&mut self, rt: &impl Print, words: &Words) -> io::Result<()> {
        match words.code {
            40 => self.finish(rt),
            41 => self.start(rt, Side::Left, words),
            42 => self.start(rt, Side::Right, words),
            _ => match words.programmed() {
                Some(next) => self.step(rt, &next),
                None => println!(rt; "  no move"),
            },
        }
    }
}

fn print_path(rt: &impl Print, run: &mut Run, text: &str) -> io::Result<()> {
    let mut words = Words::new();
    for part in text.split('|') {
        if words.take(part).is_none() {
            return println!(rt; "  no words");
        }
        run.execute(rt, &words)?;
    }
    Ok(())
}

fn main(rt: HostRuntime) -> io::Result<()> {
    for line in rt.lines(rt.alloc()) {
        let line = line?;
        let text = line.as_str();
        println!(rt; "{text}")?;
        let path = match text.split_once(':') {
            Some((path, _)) => path,
            None => text,
        };
        let mut run = Run {
            compensation: None,
            waiting: Vec::new(rt.alloc()),
        };
        print_path(&rt, &mut run, path)?;
    }
    Ok(())
}
