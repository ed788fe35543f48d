use crate::view::View;

/// The options of a picture.
#[derive(Clone, Copy)]
pub struct Look {
    /// The side from which the machine is seen.
    pub view: View,
    /// Whether the picture has the whole travel, also where the travel is more than three times as
    /// wide or as high as the fixtures and the path.
    pub whole: bool,
    /// Whether the rectangles that the bodies of the tools fill are drawn.
    pub bodies: bool,
}
