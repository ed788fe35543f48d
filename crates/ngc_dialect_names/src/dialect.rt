ghost use Rattle.std.specs.Prelude.{◌≡◌};

/// A language of programs for another control.
#[derive(Clone, Copy)]
pub enum Dialect {
    LinuxCnc,
    Grbl,
    Mach3,
    Fanuc,
}

impl Dialect {
    ghost use Rattle.ngc_dialect_names.specs.Names.{name_of, named_dialect};

    /// Returns the language with this name: `linuxcnc`, `grbl`, `mach3` or `fanuc`.
    pub fn named(name: &str) -> Option<Dialect>
        ensures { result ≡ named_dialect name.now }
    {
        match name {
            "linuxcnc" => Some(Dialect::LinuxCnc),
            "grbl" => Some(Dialect::Grbl),
            "mach3" => Some(Dialect::Mach3),
            "fanuc" => Some(Dialect::Fanuc),
            _ => None,
        }
    }

    /// Returns the language's name.
    pub fn name(self) -> &'static str
        ensures { result.now ≡ name_of self }
    {
        match self {
            Dialect::LinuxCnc => "linuxcnc",
            Dialect::Grbl => "grbl",
            Dialect::Mach3 => "mach3",
            Dialect::Fanuc => "fanuc",
        }
    }
}
