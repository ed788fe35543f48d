//! Prints the moves of lines that have a canned cycle. A line of standard input has the figures of a
//! cycle, as words: its code and modes, X, Y and Z where the tool is, I the initial level, R, D the
//! depth, P the dwell, Q the peck, B the distance back, U and V the place of the first hole, J and K
//! the distance to the next, L the number of holes, M3 if the spindle turns. Lengths are in
//! nanometres, a dwell is in millionths of a second, and what is missing is 0; B is 254000 and L is 1.
//! A colon begins a comment.
#![tactic(auto)]

mod figures;

use figures::Figures;
use ngc_canned_cycles::CycleMove;
use ngc_dialect_cycles::CycleMoves;
use ngc_fixed_length::Point3;
use std::io;

// A program ends at a million commands; here some lines of output are enough.
const MOST_MOVES: usize = 40;

fn print_point(rt: &impl Print, text: &str, point: Point3) -> io::Result<()> {
    let x = point.x.nanometres();
    let y = point.y.nanometres();
    let z = point.z.nanometres();
    println!(rt; "  {text} {x} {y} {z}")
}

fn print_move(rt: &impl Print, taken: CycleMove) -> io::Result<()> {
    match taken {
        CycleMove::Traverse(point) => print_point(rt, "traverse", point),
        CycleMove::Feed(point) => print_point(rt, "feed", point),
        CycleMove::Dwell(seconds) => {
            let millionths = seconds.millionths();
            println!(rt; "  dwell {millionths}")
        }
        CycleMove::StopSpindle => println!(rt; "  spindle off"),
        CycleMove::StartSpindle => println!(rt; "  spindle on"),
    }
}

fn print_moves(rt: &impl Print, moves: &mut CycleMoves) -> io::Result<()> {
    for _ in 0..MOST_MOVES {
        match moves.next_move() {
            Some(taken) => print_move(rt, taken)?,
            None => return Ok(()),
        }
    }
    println!(rt; "  and so on")
}

fn print_cycle(rt: &impl Print, figures: &Figures) -> io::Result<()> {
    let Some(series) = figures.series() else {
        return println!(rt; "  no cycle");
    };
    match CycleMoves::start(&series, &figures.line()) {
        Ok(mut moves) => print_moves(rt, &mut moves),
        Err(refusal) => println!(rt; "  refused: {refusal:?}"),
    }
}

fn main(rt: HostRuntime) -> io::Result<()> {
    for line in rt.lines(rt.alloc()) {
        let line = line?;
        let text = line.as_str();
        println!(rt; "{text}")?;
        let words = match text.split_once(':') {
            Some((words, _)) => words,
            None => text,
        };
        match Figures::read(words) {
            Some(figures) => print_cycle(&rt, &figures)?,
            None => println!(rt; "  no figures")?,
        }
    }
    Ok(())
}
