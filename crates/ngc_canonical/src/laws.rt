//! Laws about the definitions alone.
ghost use Rattle.ngc_canonical.specs.Joined.{Joined, ArcsHaveEvenRadii, FewCommands, EndsLast};
ghost use Rattle.ngc_canonical.specs.Joined.{HaveEnd, SameAtBoth};

/// States that the motions of a program are joined: the first begins at the machine's start point,
/// and each further one where the motion before it ends.
pub fn joined()
    ensures { Joined }
{}

/// States that each arc of a program has a radius of at most a little over two metres. Its radii at
/// start and end differ by a few micrometres at most.
pub fn arcs_have_even_radii()
    ensures { ArcsHaveEvenRadii }
{}

/// States that a program has at most a million commands.
pub fn few_commands()
    ensures { FewCommands }
{}

/// States that nothing follows the end in a program.
pub fn ends_last()
    ensures { EndsLast }
{}

/// States that the last command of a program is the end.
pub fn have_end()
    ensures { HaveEnd }
{}

/// States that a program without lines that begin with `/` means the same at both settings of block
/// delete.
pub fn same_at_both()
    ensures { SameAtBoth }
{}
