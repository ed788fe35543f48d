ghost use Rattle.std.specs.Prelude.{◌≡◌, ℤ, count_by};
ghost use Rattle.ngc_line_reader.specs.declared.letter.Letter.{Letter};
ghost use Rattle.ngc_line_reader.specs.Words.{pairs_of};
ghost use Rattle.ngc_modal_state.specs.Block.{is_m_word};
ghost use Rattle.ngc_modal_state.specs.BlockWords.{first_value};

use crate::code::{
    Code, Coolant, LengthCode, MotionMode, NonModal, PathControl, Spindle, Stopping,
};
use crate::fault::ModalFault;
use crate::table::{common_motion, g_code, m_code};
use ngc_fixed_length::{Distance, FeedMode, Plane, RetractMode, System, Units, Value};
use ngc_line_reader::{Letter, Word};

/// The words X, Y, Z of a line.
#[derive(Clone, Copy)]
pub struct AxisWords {
    pub x: Option<Value>,
    pub y: Option<Value>,
    pub z: Option<Value>,
}

/// A line's words: the code of each modal group, and the value of each letter.
#[derive(Clone, Copy)]
pub struct Block {
    pub motion: Option<MotionMode>,
    pub plane: Option<Plane>,
    pub distance: Option<Distance>,
    pub feed_mode: Option<FeedMode>,
    pub units: Option<Units>,
    /// Whether G40 is present.
    pub radius_off: bool,
    pub tool_length: Option<LengthCode>,
    pub return_mode: Option<RetractMode>,
    pub system: Option<System>,
    pub path: Option<PathControl>,
    pub once: Option<NonModal>,
    pub stopping: Option<Stopping>,
    /// Whether M6 is present.
    pub change_tool: bool,
    pub spindle: Option<Spindle>,
    /// Whether M7 is present.
    pub mist: bool,
    /// Whether M8 is present.
    pub flood: bool,
    /// Whether M9 is present.
    pub coolant_off: bool,
    /// Whether overrides are switched on (M48) or off (M49).
    pub overrides: Option<bool>,
    pub axes: AxisWords,
    pub f: Option<Value>,
    pub h: Option<Value>,
    pub i: Option<Value>,
    pub j: Option<Value>,
    pub k: Option<Value>,
    pub l: Option<Value>,
    pub p: Option<Value>,
    pub q: Option<Value>,
    pub r: Option<Value>,
    pub s: Option<Value>,
    pub t: Option<Value>,
}

impl Block {
    ghost use Rattle.ngc_modal_state.specs.Block.{no_words, has_group, put_code, with_code};
    ghost use Rattle.ngc_modal_state.specs.Block.{with_word, block_of};
    ghost use Rattle.ngc_line_reader.specs.declared.letter.Letter.TheVariants as letters;
    ghost use Rattle.ngc_modal_state.specs.Faults.{Becomes};

    // Returns a block without words.
    fn empty() -> Block
        ensures { result ≡ no_words }
    {
        let axes = AxisWords {
            x: None,
            y: None,
            z: None,
        };
        Block {
            motion: None,
            plane: None,
            distance: None,
            feed_mode: None,
            units: None,
            radius_off: false,
            tool_length: None,
            return_mode: None,
            system: None,
            path: None,
            once: None,
            stopping: None,
            change_tool: false,
            spindle: None,
            mist: false,
            flood: false,
            coolant_off: false,
            overrides: None,
            axes,
            f: None,
            h: None,
            i: None,
            j: None,
            k: None,
            l: None,
            p: None,
            q: None,
            r: None,
            s: None,
            t: None,
        }
    }

    // Returns whether there is already a code of the same group. M7 and M8 may be together, and
    // neither with M9.
    fn has_group(&self, code: Code) -> bool
        ensures { result ≡ has_group code self.now }
    {
        match code {
            Code::Motion(_) => self.motion.is_some(),
            Code::Plane(_) => self.plane.is_some(),
            Code::Distance(_) => self.distance.is_some(),
            Code::FeedMode(_) => self.feed_mode.is_some(),
            Code::Units(_) => self.units.is_some(),
            Code::CutterCompensationOff => self.radius_off,
            Code::ToolLength(_) => self.tool_length.is_some(),
            Code::Return(_) => self.return_mode.is_some(),
            Code::System(_) => self.system.is_some(),
            Code::Path(_) => self.path.is_some(),
            Code::NonModal(_) => self.once.is_some(),
            Code::Stopping(_) => self.stopping.is_some(),
            Code::ChangeTool => self.change_tool,
            Code::Spindle(_) => self.spindle.is_some(),
            Code::Coolant(Coolant::Mist) => self.coolant_off || self.mist,
            Code::Coolant(Coolant::Flood) => self.coolant_off || self.flood,
            Code::Coolant(Coolant::Off) => self.coolant_off || self.mist || self.flood,
            Code::Override(_) => self.overrides.is_some(),
        }
    }

    fn put_code(&mut self, code: Code)
        ensures { self.new ≡ put_code code self.old }
    {
        match code {
            Code::Motion(code) => self.motion = Some(code),
            Code::Plane(code) => self.plane = Some(code),
            Code::Distance(code) => self.distance = Some(code),
            Code::FeedMode(code) => self.feed_mode = Some(code),
            Code::Units(code) => self.units = Some(code),
            Code::CutterCompensationOff => self.radius_off = true,
            Code::ToolLength(code) => self.tool_length = Some(code),
            Code::Return(code) => self.return_mode = Some(code),
            Code::System(code) => self.system = Some(code),
            Code::Path(code) => self.path = Some(code),
            Code::NonModal(code) => self.once = Some(code),
            Code::Stopping(code) => self.stopping = Some(code),
            Code::ChangeTool => self.change_tool = true,
            Code::Spindle(code) => self.spindle = Some(code),
            Code::Coolant(Coolant::Mist) => self.mist = true,
            Code::Coolant(Coolant::Flood) => self.flood = true,
            Code::Coolant(Coolant::Off) => self.coolant_off = true,
            Code::Override(code) => self.overrides = Some(code),
        }
    }

    fn add_code(&mut self, code: Code) -> Result<(), ModalFault>
        ensures { Becomes result self.new (with_code code self.old) }
    {
        if self.has_group(code) {
            return Err(ModalFault::GroupTwice);
        }
        self.put_code(code);
        Ok(())
    }

    // Adds the code of a G word.
    fn add_g_code(&mut self, value: Value) -> Result<(), ModalFault>
        ensures { Becomes result self.new (with_word letters.G value self.old) }
    {
        match common_motion(value) {
            Some(motion) if self.motion.is_none() => {
                self.motion = Some(motion);
                Ok(())
            }
            _ => self.add_code(g_code(value)?),
        }
    }

    fn add_word(&mut self, word: Word) -> Result<(), ModalFault>
        ensures { Becomes result self.new (with_word word.letter word.value self.old) }
    {
        let value = word.value;
        match word.letter {
            Letter::G => self.add_g_code(value)?,
            Letter::M => self.add_code(m_code(value)?)?,
            Letter::X => self.axes.x = once_a_line(self.axes.x, value)?,
            Letter::Y => self.axes.y = once_a_line(self.axes.y, value)?,
            Letter::Z => self.axes.z = once_a_line(self.axes.z, value)?,
            Letter::F => self.f = once_a_line(self.f, value)?,
            Letter::H => self.h = once_a_line(self.h, value)?,
            Letter::I => self.i = once_a_line(self.i, value)?,
            Letter::J => self.j = once_a_line(self.j, value)?,
            Letter::K => self.k = once_a_line(self.k, value)?,
            Letter::L => self.l = once_a_line(self.l, value)?,
            Letter::P => self.p = once_a_line(self.p, value)?,
            Letter::Q => self.q = once_a_line(self.q, value)?,
            Letter::R => self.r = once_a_line(self.r, value)?,
            Letter::S => self.s = once_a_line(self.s, value)?,
            Letter::T => self.t = once_a_line(self.t, value)?,
            Letter::A | Letter::B | Letter::C | Letter::D => return Err(ModalFault::LeftOut),
        }
        Ok(())
    }

    /// Returns the block of a line's words. It returns a fault if there are more than four M words
    /// (202), or else for the first word from the left that doesn't fit (201, 203 to 205).
    pub fn new(words: &[Word]) -> Result<Block, ModalFault>
        ensures { result ≡ block_of (pairs_of words.now) }
    {
        if words.len() > 4 && m_words(words) > 4 {
            return Err(ModalFault::TooManyMWords);
        }
        let mut block = Block::empty();
        for word in words {
            match block.add_word(*word) {
                Ok(()) => {}
                Err(fault) => return Err(fault),
            }
        }
        Ok(block)
    }
}

fn is_m(letter: Letter) -> bool
    ensures { result ≡ is_m_word letter }
{
    matches!(letter, Letter::M)
}

// Returns the number of M words.
#[tactic(auto, using(crate::proofs::Words::counted))]
fn m_words(words: &[Word]) -> usize
    ensures { result ≡ count_by (λ (word : Letter × ℤ). is_m_word word.0) (pairs_of words.now) }
{
    words.iter().filter(|word| is_m(word.letter)).count()
}

// Returns a letter's value, if it has none yet.
fn once_a_line(had: Option<Value>, value: Value) -> Result<Option<Value>, ModalFault>
    ensures { result ≡ first_value had value }
{
    if had.is_some() {
        Err(ModalFault::LetterRepeated)
    } else {
        Ok(Some(value))
    }
}
