use ngc_run_log::LiveForm;

/// How a live run is written, how its ring is fed, and how it ends.
#[derive(Clone, Copy)]
pub struct LiveRequest {
    /// The form in which the run is written.
    pub form: LiveForm,
    /// Whether commands that are left are loaded before each tick, while the ring has space.
    pub feeds_ring: bool,
    /// Whether the run ends at the last line at once. Otherwise the machine comes to rest first.
    pub aborts: bool,
}
