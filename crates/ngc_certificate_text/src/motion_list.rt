//! Lists of motions with their pieces, however they are stored.
ghost use Rattle.std.specs.Prelude.{◌≡◌, ◌<◌, ◌≤◌, List, length};
ghost use Rattle.ngc_certificate_text.specs.Certificate.{Entry, AreEntries, entry_at, piece_at};
ghost use Rattle.ngc_certificate_text.specs.Certificate.{MOTION_LIMIT, PIECE_LIMIT};

use crate::piece::Piece;

/// The motions of a setting in order, each with its pieces. A type may store the pieces, or compute
/// each of them when it is needed.
pub trait MotionList {
    /// The motions that the value represents.
    ghost entries: { Self → List Entry };

    /// Returns the number of motions, at most 1,000,000.
    fn count(&self) -> usize
        ensures value { result ≡ length (entries self.now) }
        ensures limit { result ≤ MOTION_LIMIT }
        ensures are { AreEntries (entries self.now) };

    /// Returns the index of motion `i` in the list of commands, at most 999,999. `i` is below
    /// `count`.
    fn command_index(&self, i: usize) -> u32
        requires { i < length (entries self.now) }
        ensures { result ≡ (entry_at (entries self.now) i).index };

    /// Returns the number of pieces of motion `i`, 1 to 65,535. `i` is below `count`.
    fn piece_count(&self, i: usize) -> usize
        requires { i < length (entries self.now) }
        ensures value { result ≡ length (entry_at (entries self.now) i).pieces }
        ensures some { 1 ≤ result }
        ensures limit { result ≤ PIECE_LIMIT };

    /// Returns piece `k` of motion `i`. `i` is below `count`, and `k` below the number of its
    /// pieces.
    fn piece(&self, i: usize, k: usize) -> Piece
        requires motion { i < length (entries self.now) }
        requires piece { k < length (entry_at (entries self.now) i).pieces }
        ensures { result ≡ piece_at (entries self.now) i k };
}
