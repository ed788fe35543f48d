//! The codes of a line.
ghost use Rattle.std.specs.Prelude.{◌≡◌};
ghost use Rattle.ngc_dialect_rules.specs.Codes as spec;

/// A code of a line: G59.2 is `G(592)`, M30 is `M(30)`.
#[derive(Clone, Copy)]
pub enum Code {
    /// In tenths.
    G(u16),
    M(u16),
}

impl Code {
    /// Returns whether two codes are the same.
    pub fn is(self, other: Code) -> bool
        ensures { result ≡ spec.is_code self other }
    {
        match (self, other) {
            (Code::G(a), Code::G(b)) | (Code::M(a), Code::M(b)) => a == b,
            _ => false,
        }
    }
}

impl Default for Code {
    ghost use Rattle.ngc_dialect_rules.specs.declared.code.Code.TheVariants.{G};

    ghost is_default = { λ c. c ≡ G 0 };

    fn default() -> Code {
        Code::G(0)
    }
}
