//! The boxes of a certificate, with the tools that are mounted then.
ghost use Rattle.std.specs.Prelude.{◌≡◌, ◌+◌, ◌*◌, ◌≤◌, ◌++◌, ◌∷◌, List, Option, map, IfOk};
ghost use Rattle.ngc_machine_files.specs.declared.tools.Tool.{Tool};
ghost use Rattle.ngc_commands.specs.declared.command.Action.TheVariants.{Move};
ghost use Rattle.ngc_commands.specs.declared.movement.Motion.{Motion};
ghost use Rattle.ngc_commands.specs.declared.command.Action.{Action};
ghost use Rattle.ngc_certificate_text.specs.Certificate.{MOTION_LIMIT, PIECE_LIMIT};
ghost use Rattle.ngc_drawing.specs.Bodies.{sweep_of, is_same_x, is_same_y, is_same_z};
ghost use Rattle.ngc_drawing.specs.Bodies.{are_seen_alike, takes, joint, joined_with, finished};
ghost use Rattle.ngc_drawing.specs.Bodies.{held_with, held_last, joined, box_count, together};
ghost use Rattle.ngc_drawing.specs.Bodies.{sweeps};
ghost use Rattle.ngc_drawing.specs.Sweeping.{sweeps_ahead};
ghost use Rattle.ngc_drawing.specs.declared.sweep.Sweep.{Sweep};

use ngc_certificate_text::{Motions, Piece};
use ngc_commands::{Action, Command};
use ngc_fixed_length::GridBox;
use ngc_machine_files::Tool;
use ngc_picture_shapes::{View, number_of, rank_of};
use std::alloc::{AllocError, Allocator};

/// Boxes that are drawn as one: the rank of their tool, the number of boxes, and the smallest box
/// that holds them.
#[derive(Clone, Copy)]
pub(crate) struct Sweep {
    pub rank: usize,
    pub count: usize,
    pub bounds: GridBox,
}

/// The state between two commands: the rank of the mounted tool, the next motion of the
/// certificate, and the boxes that are drawn as one so far.
#[derive(Clone, Copy)]
pub(crate) struct Sweeping {
    pub rank: usize,
    pub next: usize,
    pub held: Option<Sweep>,
}

fn is_same_x(a: &GridBox, b: &GridBox) -> bool
    ensures { result ≡ is_same_x a.now b.now }
{
    a.low.x == b.low.x && a.high.x == b.high.x
}

fn is_same_y(a: &GridBox, b: &GridBox) -> bool
    ensures { result ≡ is_same_y a.now b.now }
{
    a.low.y == b.low.y && a.high.y == b.high.y
}

fn is_same_z(a: &GridBox, b: &GridBox) -> bool
    ensures { result ≡ is_same_z a.now b.now }
{
    a.low.z == b.low.z && a.high.z == b.high.z
}

fn are_seen_alike(view: View, a: &GridBox, b: &GridBox) -> bool
    ensures { result ≡ are_seen_alike view a.now b.now }
{
    match view {
        View::Top => is_same_x(a, b) && is_same_y(a, b),
        View::Front => is_same_x(a, b) && is_same_z(a, b),
        View::Side => is_same_y(a, b) && is_same_z(a, b),
        View::Iso => is_same_x(a, b) && is_same_y(a, b) && is_same_z(a, b),
    }
}

fn joint(a: &GridBox, b: &GridBox) -> GridBox
    ensures { result ≡ joint a.now b.now }
{
    GridBox {
        low: a.low.lesser(&b.low),
        high: a.high.greater(&b.high),
    }
}

impl Sweep {
    fn of(rank: usize, piece: &Piece) -> Sweep
        ensures { result ≡ sweep_of rank piece.now }
    {
        Sweep {
            rank,
            count: 1,
            bounds: piece.bounds,
        }
    }

    fn takes(&self, view: View, most: usize, next: &Sweep) -> bool
        ensures { result ≡ takes view most self.now next.now }
    {
        self.rank == next.rank
            && (self.count < most || are_seen_alike(view, &self.bounds, &next.bounds))
    }

    fn joined_with(&self, most: usize, next: &Sweep) -> Sweep
        ensures { result ≡ joined_with most self.now next.now }
    {
        let count = if self.count < most {
            self.count + 1
        } else {
            self.count
        };
        Sweep {
            rank: self.rank,
            count,
            bounds: joint(&self.bounds, &next.bounds),
        }
    }
}

fn held_with(view: View, most: usize, held: &Option<Sweep>, next: &Sweep) -> Sweep
    ensures { result ≡ held_with view most held.now next.now }
{
    match held {
        Some(sweep) if sweep.takes(view, most, next) => sweep.joined_with(most, next),
        _ => *next,
    }
}

fn finish<A: Allocator>(
    list: &mut Vec<Sweep, A>,
    view: View,
    most: usize,
    held: &Option<Sweep>,
    next: &Sweep,
) -> Result<(), AllocError>
    ensures { IfOk result
        (λ _. list.new.items ≡ list.old.items ++ finished view most held.now next.now) }
{
    match held {
        Some(sweep) if !sweep.takes(view, most, next) => match list.push(*sweep) {
            Ok(()) => Ok(()),
            Err(_) => Err(AllocError),
        },
        _ => Ok(()),
    }
}

fn finish_last<A: Allocator>(
    list: &mut Vec<Sweep, A>,
    held: &Option<Sweep>,
) -> Result<(), AllocError>
    ensures { IfOk result (λ _. list.new.items ≡ list.old.items ++ held_last held.now) }
{
    match held {
        None => Ok(()),
        Some(sweep) => match list.push(*sweep) {
            Ok(()) => Ok(()),
            Err(_) => Err(AllocError),
        },
    }
}

/// Visits the pieces of a motion, and returns the boxes that are drawn as one after them.
fn sweep_pieces<A: Allocator>(
    list: &mut Vec<Sweep, A>,
    view: View,
    most: usize,
    rank: usize,
    pieces: &[Piece],
    before: &Option<Sweep>,
) -> Result<Option<Sweep>, AllocError>
    // For any boxes that follow.
    ensures { IfOk result (λ held. (rest : List Sweep) →
        list.old.items ++ joined view most before.now (map (sweep_of rank) pieces.now ++ rest)
        ≡ list.new.items ++ joined view most held rest) }
{
    let mut held = *before;
    for piece in pieces {
        let next = Sweep::of(rank, piece);
        match finish(list, view, most, &held, &next) {
            Ok(()) => {}
            Err(refused) => return Err(refused),
        }
        held = Some(held_with(view, most, &held, &next));
    }
    Ok(held)
}

impl Sweeping {
    /// Visits the next motion of the certificate, if it has one.
    fn motion<A: Allocator, B: Allocator>(
        &self,
        list: &mut Vec<Sweep, A>,
        view: View,
        most: usize,
        motions: &Motions<B>,
    ) -> Result<Sweeping, AllocError>
        ensures { IfOk result
            (λ new. (used : List (Option Tool)) (m : Motion) (rest : List Action) →
            list.old.items ++ sweeps_ahead view most used self.now (Move m ∷ rest) motions.now
            ≡ list.new.items ++ sweeps_ahead view most used new rest motions.now) }
    {
        if self.next >= motions.len() {
            return Ok(*self);
        }
        match sweep_pieces(
            list,
            view,
            most,
            self.rank,
            motions.pieces(self.next),
            &self.held,
        ) {
            Ok(held) => Ok(Sweeping {
                rank: self.rank,
                next: self.next + 1,
                held,
            }),
            Err(refused) => Err(refused),
        }
    }

    /// Visits an action.
    fn action<A: Allocator, B: Allocator>(
        &self,
        list: &mut Vec<Sweep, A>,
        view: View,
        most: usize,
        tools: &[Option<Tool>],
        motions: &Motions<B>,
        action: &Action,
    ) -> Result<Sweeping, AllocError>
        // For any actions that follow.
        ensures { IfOk result (λ new. (rest : List Action) →
            list.old.items ++ sweeps_ahead view most tools.now self.now
            (action.now ∷ rest) motions.now ≡ list.new.items
            ++ sweeps_ahead view most tools.now new rest motions.now) }
    {
        match action {
            Action::Move(_) => self.motion(list, view, most, motions),
            Action::Mount(tool) => Ok(Sweeping {
                rank: rank_of(tools, number_of(tool)),
                next: self.next,
                held: self.held,
            }),
            _ => Ok(*self),
        }
    }
}

fn box_count<A: Allocator>(motions: &Motions<A>) -> usize
    ensures value { result ≡ box_count motions.now }
    ensures limit { result ≤ MOTION_LIMIT * PIECE_LIMIT }
{
    let mut count = 0;
    for i in 0..motions.len() {
        count += motions.pieces(i).len();
    }
    count
}

/// Returns how many boxes are drawn as one.
fn together<A: Allocator>(motions: &Motions<A>) -> usize
    ensures { result ≡ together motions.now }
{
    box_count(motions) / 20_000 + 1
}

/// Returns the boxes of a certificate's motions as they are drawn. It fails where memory is
/// refused.
pub(crate) fn sweeps<A: Allocator, B: Allocator>(
    alloc: A,
    view: View,
    tools: &[Option<Tool>],
    commands: &[Command],
    motions: &Motions<B>,
) -> Result<Vec<Sweep, A>, AllocError>
    ensures { IfOk result (λ v. v.items ≡ sweeps view tools.now commands.now motions.now) }
{
    let most = together(motions);
    let mut list = Vec::new(alloc);
    let mut sweeping = Sweeping {
        rank: rank_of(tools, 0),
        next: 0,
        held: None,
    };
    for command in commands {
        match sweeping.action(&mut list, view, most, tools, motions, &command.action) {
            Ok(next) => sweeping = next,
            Err(refused) => return Err(refused),
        }
    }
    match finish_last(&mut list, &sweeping.held) {
        Ok(()) => Ok(list),
        Err(refused) => Err(refused),
    }
}
