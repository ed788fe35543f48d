//! Codes by what they do.
use crate::code::Code;
use crate::code::Code::{G, M};

/// Straight motions: G0 and G1.
pub const STRAIGHT: [Code; 2] = [G(0), G(10)];

/// G1, G2 and G3, which move at the feed.
pub const FEED_MOTION: [Code; 3] = [G(10), G(20), G(30)];

/// Arcs: G2 and G3.
pub const ARCS: [Code; 2] = [G(20), G(30)];

/// G3, which turns counterclockwise.
pub const COUNTERCLOCKWISE: [Code; 1] = [G(30)];

/// Canned cycles.
pub const CYCLES: [Code; 7] = [G(730), G(810), G(820), G(830), G(850), G(860), G(890)];

/// All of these.
pub const MOTIONS: [Code; 11] = [
    G(0),
    G(10),
    G(20),
    G(30),
    G(730),
    G(810),
    G(820),
    G(830),
    G(850),
    G(860),
    G(890),
];

/// G80, the end of a motion mode. It may be beside another motion code.
pub const MOTION_END: [Code; 1] = [G(800)];

/// The planes.
pub const PLANES: [Code; 3] = [G(170), G(180), G(190)];

/// G18, and G19.
pub const PLANE_ZX: [Code; 1] = [G(180)];

pub const PLANE_YZ: [Code; 1] = [G(190)];

/// The distance modes: G90 and G91.
pub const DISTANCES: [Code; 2] = [G(900), G(910)];

/// G91, by which lengths are relative to the current point.
pub const INCREMENTAL: [Code; 1] = [G(910)];

/// How the centres of arcs are given: G90.1 and G91.1.
pub const CENTRES: [Code; 2] = [G(901), G(911)];

/// G90.1, by which centres are absolute.
pub const ABSOLUTE_CENTRES: [Code; 1] = [G(901)];

/// The feed modes: G93 and G94.
pub const FEED_MODES: [Code; 2] = [G(930), G(940)];

/// G93, inverse time.
pub const INVERSE_TIME: [Code; 1] = [G(930)];

/// The units: G20 and G21, and G70 and G71 of other controls.
pub const UNITS: [Code; 4] = [G(200), G(210), G(700), G(710)];

/// Inches.
pub const INCHES: [Code; 2] = [G(200), G(700)];

/// Cutter compensation, and G40, which ends it.
pub const COMPENSATIONS: [Code; 5] = [G(400), G(410), G(411), G(420), G(421)];

/// The end of cutter compensation.
pub const COMPENSATION_END: [Code; 1] = [G(400)];

/// Tool lengths: G43, G43.1, G43.4 and G49.
pub const LENGTHS: [Code; 4] = [G(430), G(431), G(434), G(490)];

/// G43, and G43.4, which follows rotary axes.
pub const TABLE_LENGTHS: [Code; 2] = [G(430), G(434)];

/// G43.1, whose axis word is the tool length.
pub const WORD_LENGTH: [Code; 1] = [G(431)];

/// G49, the end of a tool length.
pub const LENGTH_END: [Code; 1] = [G(490)];

/// The height to which cycles clear: G98 and G99.
pub const RETRACTS: [Code; 2] = [G(980), G(990)];

/// G98, the height where the series began.
pub const SERIES_RETRACT: [Code; 1] = [G(980)];

/// The coordinate systems.
pub const SYSTEMS: [Code; 9] = [
    G(540),
    G(550),
    G(560),
    G(570),
    G(580),
    G(590),
    G(591),
    G(592),
    G(593),
];

/// Path control: G61, G61.1 and G64.
pub const PATHS: [Code; 3] = [G(610), G(611), G(640)];

/// Codes for their line alone.
pub const NON_MODAL: [Code; 12] = [
    G(40),
    G(100),
    G(280),
    G(281),
    G(300),
    G(301),
    G(520),
    G(530),
    G(920),
    G(921),
    G(922),
    G(923),
];

/// G4, the dwell.
pub const DWELL: [Code; 1] = [G(40)];

/// G10, which sets an origin.
pub const SETTING: [Code; 1] = [G(100)];

/// G28 and G30, which move home.
pub const HOMES: [Code; 2] = [G(280), G(300)];

/// G28.1 and G30.1, which store a home.
pub const HOME_STORES: [Code; 2] = [G(281), G(301)];

/// G52, an offset that replaces that of G92.
pub const LOCAL_OFFSET: [Code; 1] = [G(520)];

/// G53, machine coordinates.
pub const MACHINE_PLACE: [Code; 1] = [G(530)];

/// G92, which sets an offset.
pub const OFFSET: [Code; 1] = [G(920)];

/// G92.3, which restores the offset of G92.
pub const OFFSET_RESTORED: [Code; 1] = [G(923)];

/// G92.1, G92.2 and G92.3.
pub const OFFSET_CHANGES: [Code; 3] = [G(921), G(922), G(923)];

/// Codes for their line alone that take its axis words.
pub const TAKE_AXES: [Code; 5] = [G(100), G(280), G(300), G(520), G(920)];

/// Codes that set what always holds in our language, or that change nothing in it.
pub const IDLE: [Code; 10] = [
    G(80),
    G(131),
    G(150),
    G(250),
    G(401),
    G(500),
    G(501),
    G(670),
    G(690),
    G(970),
];

/// Switches of the panel, M50 to M53, and how a control looks ahead: they are left out.
pub const TOLD: [Code; 6] = [G(51), G(1870), M(50), M(51), M(52), M(53)];

/// Stops and ends: M0, M1, M2, M30, M60.
pub const STOPS: [Code; 5] = [M(0), M(1), M(2), M(30), M(60)];

/// M6, which mounts the tool that is selected.
pub const TOOL_CHANGE: [Code; 1] = [M(6)];

/// The spindle: M3, M4, M5.
pub const SPINDLE: [Code; 3] = [M(3), M(4), M(5)];

/// The coolant: M7, M8, M9.
pub const COOLANT: [Code; 3] = [M(7), M(8), M(9)];

/// The overrides: M48, M49.
pub const OVERRIDES: [Code; 2] = [M(48), M(49)];

/// Tapping: G74 and G84.
pub const TAPPING: [Code; 2] = [G(740), G(840)];

/// Boring on the way out of a hole: G87 and G88.
pub const BACK_BORING: [Code; 2] = [G(870), G(880)];

/// Threads and rigid tapping.
pub const THREADS: [Code; 3] = [G(330), G(331), G(760)];

/// Motions up to a probe's contact.
pub const PROBING: [Code; 4] = [G(382), G(383), G(384), G(385)];

/// Splines. G5.1 is another code in Fanuc's language.
pub const SPLINES: [Code; 4] = [G(50), G(51), G(52), G(53)];

/// Rotation and scaling of the coordinates.
pub const ROTATION: [Code; 2] = [G(510), G(680)];

/// Polar coordinates by G16.
pub const POLAR: [Code; 1] = [G(160)];

/// G54.1, which names more coordinate systems by P.
pub const MORE_SYSTEMS: [Code; 1] = [G(541)];

/// G95 feeds by the turn, and G96 keeps the speed of the surface.
pub const FEED_PER_TURN: [Code; 2] = [G(950), G(960)];

/// G7, diameters of a lathe.
pub const DIAMETERS: [Code; 1] = [G(70)];

/// G43.2, a second tool offset.
pub const SECOND_OFFSET: [Code; 1] = [G(432)];

/// Cutter compensation: G41 and G42 by a tool of the table, G41.1 and G42.1 by a diameter.
pub const COMPENSATION: [Code; 4] = [G(410), G(411), G(420), G(421)];

/// M19, which turns the spindle to an angle.
pub const SPINDLE_ANGLE: [Code; 1] = [M(19)];

/// Outputs and inputs: M62 to M68.
pub const OUTPUTS: [Code; 7] = [M(62), M(63), M(64), M(65), M(66), M(67), M(68)];

/// M61, which names the tool in the spindle.
pub const TOOL_IN_SPINDLE: [Code; 1] = [M(61)];

/// M70 to M73, which save and restore modes.
pub const MODE_SAVING: [Code; 4] = [M(70), M(71), M(72), M(73)];

/// M98 and M99, which call subprograms.
pub const CALLS: [Code; 2] = [M(98), M(99)];

/// Codes of these tables that LinuxCNC doesn't have.
pub const NOT_LINUXCNC: [Code; 10] = [
    G(160),
    G(250),
    G(434),
    G(510),
    G(541),
    G(670),
    G(680),
    G(700),
    G(710),
    G(1870),
];

/// Codes that Grbl doesn't have.
pub const NOT_GRBL: [Code; 24] = [
    G(80),
    G(131),
    G(150),
    G(160),
    G(250),
    G(401),
    G(434),
    G(500),
    G(501),
    G(510),
    G(520),
    G(541),
    G(611),
    G(670),
    G(680),
    G(690),
    G(700),
    G(710),
    G(901),
    G(922),
    G(923),
    G(1870),
    M(98),
    M(99),
];

/// Codes that Mach3 doesn't have. Its G28.1 searches for a switch.
pub const NOT_MACH3: [Code; 8] = [
    G(131),
    G(250),
    G(281),
    G(301),
    G(434),
    G(541),
    G(670),
    G(1870),
];

/// Codes that Fanuc doesn't have.
pub const NOT_FANUC: [Code; 6] = [G(281), G(301), G(431), G(921), G(922), G(923)];

/// Users of P.
pub const P_USERS: [Code; 15] = [
    G(20),
    G(30),
    G(40),
    G(100),
    G(640),
    G(820),
    G(860),
    G(890),
    M(50),
    M(51),
    M(52),
    M(53),
    M(62),
    M(63),
    M(98),
];

/// Users of P where it counts no turns of an arc.
pub const P_USERS_WITHOUT_TURNS: [Code; 13] = [
    G(40),
    G(100),
    G(640),
    G(820),
    G(860),
    G(890),
    M(50),
    M(51),
    M(52),
    M(53),
    M(62),
    M(63),
    M(98),
];

/// Users of Q.
pub const Q_USERS: [Code; 4] = [G(51), G(640), G(730), G(830)];

/// Users of R.
pub const R_USERS: [Code; 10] = [
    G(20),
    G(30),
    G(100),
    G(730),
    G(810),
    G(820),
    G(830),
    G(850),
    G(860),
    G(890),
];

/// Users of L.
pub const L_USERS: [Code; 9] = [
    G(100),
    G(730),
    G(810),
    G(820),
    G(830),
    G(850),
    G(860),
    G(890),
    M(98),
];

/// Users of H.
pub const H_USERS: [Code; 2] = [G(430), G(434)];

/// Users of D.
pub const D_USERS: [Code; 4] = [G(410), G(411), G(420), G(421)];

/// Users of I and J.
pub const I_USERS: [Code; 3] = [G(20), G(30), G(100)];

/// Users of K, besides cycles in Fanuc's language.
pub const K_USERS: [Code; 2] = [G(20), G(30)];
