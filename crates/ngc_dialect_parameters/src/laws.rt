//! Laws of the definitions. The functions do nothing: what they ensure holds.
ghost use Rattle.std.specs.Prelude.{◌≡◌, ℕ, List, length, IfOk, IsSome};
ghost use Rattle.ngc_dialect_names.specs.declared.dialect.Dialect.{Dialect as Language};
ghost use Rattle.ngc_dialect_reader.specs.declared.part.PartKind.{PartKind as Kind};
ghost use Rattle.ngc_dialect_reader.specs.Line.{line_of};
ghost use Rattle.ngc_dialect_parameters.specs.Known.{Known};
ghost use Rattle.ngc_dialect_parameters.specs.Evaluation.{Sums, step};
ghost use Rattle.ngc_dialect_parameters.specs.Heights.{height, height_after};

/// Each part of a line that was read finds its values on the stack.
pub fn lines_find_values()
    ensures { (dialect : Language) (line : List ℕ) →
        IfOk (line_of dialect line) (λ parts. IsSome (height parts 0)) }
{}

/// A part takes as many values from the stack, and puts as many there, as *taken* and *put* say.
pub fn parts_change_heights()
    ensures { (k : Known) (text : List ℕ) (kind : Kind) (s : Sums) →
        IfOk (step k text kind s) (λ t. length t.stack ≡ height_after kind (length s.stack)) }
{}
