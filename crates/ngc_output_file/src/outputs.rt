ghost use Rattle.std.specs.Prelude.{◌≡◌, ℕ, List, [], Option, IfOk, IfSome, OnErr, OnOk, true};
ghost use Rattle.ngc_output_file.specs.Outputs.{IsWritten, KeepsAll};

use ngc_text::{Sink, WriteFault};

/// Where a command may write a file.
pub trait Outputs {
    /// A file that is being written, and doesn't have its name yet.
    type Draft: Sink + Drop;

    // The bytes of a file by its name, where they are known.
    ghost bytes: { Self → List ℕ → Option (List ℕ) };

    /// Returns whether two names belong to the same file, as far as that can be told.
    fn is_same(&mut self, name: &str, other: &str) -> bool
        ensures same { name.now ≡ other.now → result ≡ true }
        ensures keeps { KeepsAll (bytes self.old) (bytes self.new) };

    /// Begins a file that may get this name. No file is changed; 902 where it can't be made.
    fn begin(&mut self, name: &str) -> Result<Self::Draft, WriteFault>
        ensures empty { IfOk result (λ draft. IfSome (Self.Draft.written draft) (λ text. text ≡ [])) }
        ensures keeps { KeepsAll (bytes self.old) (bytes self.new) };

    /// Gives a file its name, in place of another file of that name. After 902 no file is changed.
    fn finish(&mut self, draft: Self::Draft, name: &str) -> Result<(), WriteFault>
        ensures ok { OnOk result
            (IsWritten (bytes self.old) (bytes self.new) name.now (Self.Draft.written draft)) }
        ensures fault { OnErr result (KeepsAll (bytes self.old) (bytes self.new)) };

    /// Throws a file away. No file is changed.
    fn discard(&mut self, draft: Self::Draft)
        ensures keeps { KeepsAll (bytes self.old) (bytes self.new) };
}
