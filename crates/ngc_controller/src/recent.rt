//! The latest replies.
ghost use Rattle.std.specs.Prelude.{◌≡◌, ◌++◌, ◌∷◌, [], List, replicate, None, IfOk};
ghost use Rattle.circular_buffer.specs.Buffer.{keep_last};
ghost use Rattle.ngc_events.specs.declared.reply.Reply.{Reply as TheReply};
ghost use Rattle.ngc_events.specs.declared.reply.Reply.TheVariants.{Ticked};
ghost use Rattle.ngc_controller.specs.Controller.{KEPT, from_the_last};
ghost use Rattle.ngc_controller.specs.Recent.{replies};

use circular_buffer::HeapCircularBuffer;
use ngc_events::Reply;
use std::alloc::{AllocError, Allocator};
use std::marker::Model;

/// The number of replies that are stored.
const KEPT: usize = 256;

/// The reply to a tick with nothing to report.
pub(crate) const QUIET: Reply = Reply::Ticked {
    position: None,
    ending: None,
};

/// A reply, and the number of quiet ones directly before it.
#[derive(Clone, Copy)]
struct CountedReply {
    before: u64,
    reply: Reply,
}

/// The replies to the last 256 events that were handled. Replies to ticks with nothing to report
/// are only counted, so that many of them are stored at once.
#[derive(Drop)]
pub struct Recent<A: Allocator> {
    told: HeapCircularBuffer<CountedReply, A>,
    /// The number of quiet ones at the end, at most the number that is stored.
    quiet: u64,
}

impl<A: Allocator> Model for Recent<A> {
    ghost use Rattle.std.specs.Prelude.{◌≡◌, ◌≤◌, List};
    ghost use Rattle.ngc_events.specs.declared.reply.Reply.{Reply as TheReply};
    ghost use Rattle.ngc_controller.specs.Controller.{KEPT};
    ghost use Rattle.ngc_controller.specs.Recent.{latest};

    ghost Value = { List TheReply };

    ghost view = { λ r. latest r.told.items r.quiet };

    ghost invariant = { λ r. (r.told.capacity ≡ KEPT) × (r.quiet ≤ KEPT) };
}

// Returns the reply `index` positions before the last of these, counting the quiet ones before
// each.
fn reported_before<A: Allocator>(
    told: &HeapCircularBuffer<CountedReply, A>,
    index: u64,
) -> Option<Reply>
    ensures { result ≡ from_the_last index (replies told.now.items) }
{
    let mut left = index;
    for place in 0..told.len() {
        let Some(last) = told.nth_back(place) else {
            return None;
        };
        if left == 0 {
            return Some(last.reply);
        }
        left -= 1;
        if left < last.before {
            return Some(QUIET);
        }
        left -= last.before;
    }
    None
}

impl<A: Allocator> Recent<A> {
    /// Returns an empty list of replies, with all the memory that it needs.
    pub fn new(alloc: A) -> Result<Recent<A>, AllocError>
        ensures { IfOk result (λ (r : List TheReply). r ≡ []) }
    {
        let told = HeapCircularBuffer::with_capacity(alloc, KEPT)?;
        Ok(Recent { told, quiet: 0 })
    }

    /// Stores a reply.
    pub fn push(&mut self, reply: Reply)
        ensures { self.new ≡ keep_last KEPT (self.old ++ reply ∷ []) }
    {
        match reply {
            Reply::Ticked {
                position: None,
                ending: None,
            } => self.rest(1),
            _ => self.tell(reply),
        }
    }

    // Stores a reply after the quiet ones.
    fn tell(&mut self, reply: Reply)
        ensures { self.new ≡ keep_last KEPT (self.old ++ reply ∷ []) }
    {
        let told = CountedReply {
            before: self.quiet,
            reply,
        };
        self.told.push_back(told);
        self.quiet = 0;
    }

    /// Stores the replies to `count` ticks with nothing to report.
    pub fn rest(&mut self, count: u64)
        ensures { self.new ≡ keep_last KEPT (self.old ++ replicate count (Ticked None None)) }
    {
        // More of them would remove each other.
        self.quiet = self.quiet.saturating_add(count).min(KEPT as u64);
    }

    /// Returns the reply `index` positions before the last one.
    pub fn from_the_last(&self, index: usize) -> Option<Reply>
        ensures { result ≡ from_the_last index self.now }
    {
        let quiet = self.quiet;
        if index >= KEPT {
            return None;
        }
        let index = index as u64;
        if index < quiet {
            return Some(QUIET);
        }
        reported_before(&self.told, index - quiet)
    }
}
