/// The unit of a program's lengths: millimetres (G21) or inches (G20).
#[derive(Clone, Copy)]
pub enum Units {
    Millimetres,
    Inches,
}
