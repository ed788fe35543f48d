/// The reason why a program is refused for travel or a fixture: the motion by its place in the list
/// of commands from 0, the fault's number, and the fixture that the tool meets there, from 0.
#[derive(Clone, Copy)]
pub struct RefusedMotion {
    pub command: usize,
    pub fault: u16,
    pub fixture: Option<usize>,
}
