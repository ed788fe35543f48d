ghost use Rattle.std.specs.Prelude.{◌≡◌};

/// The shape of a cutter.
#[derive(Clone, Copy)]
pub enum Cutter {
    Flat,
    Ball,
    Vee,
    Drill,
}

impl Cutter {
    ghost use Rattle.ngc_file_figures.specs.Cutters.{name_of, named_cutter};

    /// Returns the cutter with this name: `flat`, `ball`, `vee` or `drill`.
    pub fn named(name: &str) -> Option<Cutter>
        ensures { result ≡ named_cutter name.now }
    {
        match name {
            "flat" => Some(Cutter::Flat),
            "ball" => Some(Cutter::Ball),
            "vee" => Some(Cutter::Vee),
            "drill" => Some(Cutter::Drill),
            _ => None,
        }
    }

    /// Returns the cutter's name.
    pub fn name(self) -> &'static str
        ensures { result.now ≡ name_of self }
    {
        match self {
            Cutter::Flat => "flat",
            Cutter::Ball => "ball",
            Cutter::Vee => "vee",
            Cutter::Drill => "drill",
        }
    }
}
