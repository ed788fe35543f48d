ghost use Rattle.std.specs.Prelude.{◌≡◌};

use ngc_dialect_names::Dialect;

/// What the dialects' lines differ in.
#[derive(Clone, Copy)]
pub struct Switches {
    /// Parameters, settings, expressions and functions.
    pub expressions: bool,
    /// Named parameters, and names as labels.
    pub names: bool,
    /// O words with a label alone.
    pub labels: bool,
    /// O words that do something.
    pub flow: bool,
    /// Fanuc's statements, its order of operators, and its forms of settings, `ATAN` and labels.
    pub macros: bool,
    /// The letters `@` and `^`.
    pub polar: bool,
    /// Levels of block delete, as in `/2`.
    pub levels: bool,
    /// Comments must be closed; else one reaches the end of its line.
    pub closed_comments: bool,
    /// Grbl's command `$H`.
    pub commands: bool,
}

impl Switches {
    ghost use Rattle.ngc_dialect_reader.specs.Table.{switches_of};

    /// Returns what is allowed on the lines of a dialect.
    pub fn of(dialect: Dialect) -> Switches
        ensures { result ≡ switches_of dialect }
    {
        match dialect {
            Dialect::LinuxCnc => Switches {
                expressions: true,
                names: true,
                labels: true,
                flow: true,
                macros: false,
                polar: true,
                levels: false,
                closed_comments: true,
                commands: false,
            },
            Dialect::Grbl => Switches {
                expressions: false,
                names: false,
                labels: false,
                flow: false,
                macros: false,
                polar: false,
                levels: false,
                closed_comments: false,
                commands: true,
            },
            Dialect::Mach3 => Switches {
                expressions: true,
                names: false,
                labels: true,
                flow: false,
                macros: false,
                polar: false,
                levels: true,
                closed_comments: false,
                commands: false,
            },
            Dialect::Fanuc => Switches {
                expressions: true,
                names: false,
                labels: true,
                flow: false,
                macros: true,
                polar: false,
                levels: true,
                closed_comments: false,
                commands: false,
            },
        }
    }
}
