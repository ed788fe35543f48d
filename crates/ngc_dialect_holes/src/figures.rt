//! The figures of a cycle, read from a line of words.

use ngc_dialect_cycles::{CycleLine, HoleKind, Pecks, Series};
use ngc_fixed_length::{Distance, Nm, Plane, Point2, Point3, RetractMode, Value};

/// The words of a line: codes as numbers, lengths, and a dwell.
#[derive(Clone, Copy)]
pub struct Figures {
    code: i64,
    plane: Plane,
    distance: Distance,
    clear: RetractMode,
    turning: bool,
    place: Point3,
    level: Nm,
    retract: Nm,
    depth: Nm,
    dwell: Value,
    pecks: Pecks,
    first: Point2,
    step: Point2,
    repeats: u32,
}

fn length(number: i64) -> Option<Nm> {
    Nm::from_nanometres(i128::from(number)).ok()
}

impl Figures {
    fn new() -> Option<Figures> {
        let zero = Nm::zero();
        Some(Figures {
            code: 0,
            plane: Plane::XY,
            distance: Distance::Absolute,
            clear: RetractMode::Retract,
            turning: false,
            place: Point3 {
                x: zero,
                y: zero,
                z: zero,
            },
            level: zero,
            retract: zero,
            depth: zero,
            dwell: Value::zero(),
            pecks: Pecks {
                depth: zero,
                back: length(254_000)?,
            },
            first: Point2 { u: zero, v: zero },
            step: Point2 { u: zero, v: zero },
            repeats: 1,
        })
    }

    fn set_code(&mut self, code: i64) {
        match code {
            17 => self.plane = Plane::XY,
            18 => self.plane = Plane::ZX,
            19 => self.plane = Plane::YZ,
            90 => self.distance = Distance::Absolute,
            91 => self.distance = Distance::Incremental,
            98 => self.clear = RetractMode::Series,
            99 => self.clear = RetractMode::Retract,
            _ => self.code = code,
        }
    }

    // Sets the figure of a letter, or returns `None` if there is none.
    fn set_length(&mut self, letter: u8, value: Nm) -> Option<()> {
        match letter {
            b'X' => self.place.x = value,
            b'Y' => self.place.y = value,
            b'Z' => self.place.z = value,
            b'I' => self.level = value,
            b'R' => self.retract = value,
            b'D' => self.depth = value,
            b'Q' => self.pecks.depth = value,
            b'B' => self.pecks.back = value,
            b'U' => self.first.u = value,
            b'V' => self.first.v = value,
            b'J' => self.step.u = value,
            b'K' => self.step.v = value,
            _ => return None,
        }
        Some(())
    }

    fn set(&mut self, letter: u8, number: i64) -> Option<()> {
        match letter {
            b'G' => {
                self.set_code(number);
                Some(())
            }
            b'M' => {
                self.turning = number == 3;
                Some(())
            }
            b'L' => {
                self.repeats = u32::try_from(number).ok()?;
                Some(())
            }
            b'P' => {
                self.dwell = Value::from_millionths(i128::from(number)).ok()?;
                Some(())
            }
            _ => self.set_length(letter, length(number)?),
        }
    }

    /// Reads words that are separated by blanks, or returns `None` if one of them isn't a letter and
    /// a number.
    pub fn read(words: &str) -> Option<Figures> {
        let mut figures = Figures::new()?;
        for word in words.split(' ') {
            let Some(letter) = word.as_bytes().first() else {
                continue;
            };
            let number = word.get(1..)?.parse::<i64>().ok()?;
            figures.set(*letter, number)?;
        }
        Some(figures)
    }

    fn kind(&self) -> Option<HoleKind> {
        match self.code {
            73 => Some(HoleKind::BreakChips(self.pecks)),
            81 => Some(HoleKind::Drill),
            82 => Some(HoleKind::DrillWithDwell(self.dwell)),
            83 => Some(HoleKind::Peck(self.pecks)),
            85 => Some(HoleKind::Bore),
            86 => Some(HoleKind::BoreWithStop(self.dwell)),
            89 => Some(HoleKind::BoreWithDwell(self.dwell)),
            _ => None,
        }
    }

    /// Returns what the series keeps, or `None` without the code of a cycle.
    pub fn series(&self) -> Option<Series> {
        Some(Series {
            kind: self.kind()?,
            level: self.level,
            retract: self.retract,
            depth: self.depth,
        })
    }

    /// Returns the line's modes and holes.
    pub fn line(&self) -> CycleLine {
        CycleLine {
            plane: self.plane,
            distance: self.distance,
            clear: self.clear,
            place: self.place,
            first: self.first,
            step: self.step,
            repeats: self.repeats,
            turning: self.turning,
        }
    }
}
