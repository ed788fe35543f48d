//! The keys of a job file.

use ngc_machine_figures::Key;

/// The keys before all tables, and the tables.
pub const JOB_KEYS: [Key; 10] = [
    Key::Version,
    Key::Machine,
    Key::Tools,
    Key::Dialect,
    Key::Margin,
    Key::TravelMargin,
    Key::Rapids,
    Key::Origins,
    Key::Stock,
    Key::Fixtures,
];
