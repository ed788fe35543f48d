use ngc_certificate_text::Cut;

/// The position of a piece in its motion: the cut at which it begins, whether the motion has
/// several pieces, and whether this is the last one.
#[derive(Clone, Copy)]
pub struct Stretch {
    pub begin: Cut,
    pub several: bool,
    pub last: bool,
}
