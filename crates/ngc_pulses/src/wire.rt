ghost use Rattle.std.specs.Prelude.{◌≡◌, length};
ghost use Rattle.ngc_pulses.specs.Vcd.{change_text};

/// A wire of a motor driver.
#[derive(Clone, Copy)]
pub(crate) enum Wire {
    XStep,
    XDirection,
    YStep,
    YDirection,
    ZStep,
    ZDirection,
}

impl Wire {
    /// Returns the line for its change to high or low.
    pub(crate) fn change(self, high: bool) -> &'static [u8]
        ensures text { result.now ≡ change_text self high }
        ensures short { length result.now ≡ 3 }
    {
        match self {
            Wire::XStep => if high { b"1a\n" } else { b"0a\n" },
            Wire::XDirection => if high { b"1b\n" } else { b"0b\n" },
            Wire::YStep => if high { b"1c\n" } else { b"0c\n" },
            Wire::YDirection => if high { b"1d\n" } else { b"0d\n" },
            Wire::ZStep => if high { b"1e\n" } else { b"0e\n" },
            Wire::ZDirection => if high { b"1f\n" } else { b"0f\n" },
        }
    }
}
