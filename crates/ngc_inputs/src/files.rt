ghost use Rattle.std.specs.Prelude.{◌≡◌, ℕ, List, Option, IfOk, IfErr, IsSome, option_map};
ghost use Rattle.ngc_text.specs.Failures.{CountsFailure};
ghost use Rattle.ngc_line_reader.specs.declared.program.fault.ReadFault.TheVariants.{Device};
ghost use Rattle.ngc_inputs.specs.Setups.{KeepsFiles, KeepsNamed};

use ngc_line_reader::ReadFault;
use ngc_text::Source;

/// The files of a run.
pub trait Files {
    /// The source of a file's bytes.
    type R: Source + Drop;

    // The number of times that a file couldn't be opened so far.
    ghost failures: { Self → ℕ };

    // The bytes of a file by its name, or of standard input, where they are known.
    ghost bytes: { Self → Option (List ℕ) → Option (List ℕ) };

    /// Returns the named file, or standard input; 901 where it can't be opened. A named file is
    /// opened without changing any, and standard input without changing the named ones.
    fn source(&mut self, name: Option<&str>) -> Result<Self::R, ReadFault>
        ensures bytes { IfOk result
            (λ source. Self.R.remaining source ≡ bytes self.old
            (option_map (λ n. n.now) name.entry)) }
        ensures keeps { IsSome name.entry → KeepsFiles (bytes self.old) (bytes self.new) }
        ensures named { KeepsNamed (bytes self.old) (bytes self.new) }
        ensures fault { IfErr result (λ fault. fault ≡ Device) }
        ensures counts { CountsFailure (failures self.old) (failures self.new) result };
}
