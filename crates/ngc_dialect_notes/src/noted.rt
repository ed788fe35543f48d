//! Codes by what is noted of them, where the rules have no table of them.
use ngc_dialect_rules::Code;
use ngc_dialect_rules::Code::{G, M};

/// Switches of the panel: M50 to M53.
pub const SWITCHES: [Code; 4] = [M(50), M(51), M(52), M(53)];

/// How a control looks ahead: Fanuc's G5.1 and G187.
pub const LOOK_AHEAD: [Code; 2] = [G(51), G(1870)];

/// G64, which rounds corners.
pub const BLENDING: [Code; 1] = [G(640)];

/// Cycles that dwell: G82, G86 and G89.
pub const DWELLING: [Code; 3] = [G(820), G(860), G(890)];

/// Cycles that peck: G73 and G83.
pub const PECKS: [Code; 2] = [G(730), G(830)];

/// G83, which clears the hole after each peck.
pub const CLEARING: [Code; 1] = [G(830)];

/// G73, which breaks chips.
pub const CHIP_BREAKING: [Code; 1] = [G(730)];

/// G70 and G71, which other controls have for G20 and G21.
pub const OLD_UNITS: [Code; 2] = [G(700), G(710)];

/// G43.4, which follows rotary axes.
pub const TOOL_CENTRE: [Code; 1] = [G(434)];

/// Users of P, besides arcs whose turns it counts. A series of cycles keeps it.
pub const P_USERS: [Code; 16] = [
    G(40),
    G(51),
    G(100),
    G(640),
    G(730),
    G(810),
    G(820),
    G(830),
    G(850),
    G(860),
    G(890),
    G(1870),
    M(50),
    M(51),
    M(52),
    M(53),
];

/// Users of Q. A series of cycles keeps it.
pub const Q_USERS: [Code; 10] = [
    G(51),
    G(640),
    G(730),
    G(810),
    G(820),
    G(830),
    G(850),
    G(860),
    G(890),
    G(1870),
];

/// Users of E.
pub const E_USERS: [Code; 1] = [G(1870)];

/// Arcs and canned cycles: users of R, and of K where it counts holes.
pub const ARCS_AND_CYCLES: [Code; 9] = [
    G(20),
    G(30),
    G(730),
    G(810),
    G(820),
    G(830),
    G(850),
    G(860),
    G(890),
];
