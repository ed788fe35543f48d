//! What earlier lines have switched, besides what the rules keep.
ghost use Rattle.std.specs.Prelude.{◌≡◌};
ghost use Rattle.ngc_dialect_saved.specs.Switched as spec;

use arrayvec::ArrayVec;
use ngc_dialect_names::Dialect;
use ngc_dialect_numbers::Number;
use ngc_dialect_parameters::Word;
use ngc_dialect_rules::{Code, add_codes, code_in, codes, has, value_of};
use ngc_fixed_length::Value;

/// What the lines so far have switched.
#[derive(Clone, Copy)]
pub struct Switches {
    /// The last S, or 0.
    pub speed: Value,
    /// Whether M7 and M8 are on.
    pub mist: bool,
    pub flood: bool,
    /// Whether the overrides of the panel count, as by M48.
    pub overrides: bool,
    /// Whether an offset of G92 or G52 is in force.
    pub offset: bool,
}

// Returns whether a word may switch something: S, M, and G from 50 up.
fn may_switch(word: &Word) -> bool
    ensures { result ≡ spec.may_switch word.now }
{
    word.letter == b'M'
        || word.letter == b'S'
        || word.letter == b'G' && word.value.trillionths() >= 50_000_000_000_000
}

fn may_any_switch(words: &[Word]) -> bool
    ensures { result ≡ spec.may_any_switch words.now }
{
    words.iter().any(|word| may_switch(word))
}

// Returns whether M7 is on after the coolant's code of a line.
fn mist_after(before: bool, code: Option<Code>) -> bool
    ensures { result ≡ spec.mist_after before code }
{
    match code {
        None => before,
        Some(code) => code.is(Code::M(7)) || before && !code.is(Code::M(9)),
    }
}

// Returns whether M8 is on after the coolant's code of a line.
fn flood_after(before: bool, code: Option<Code>) -> bool
    ensures { result ≡ spec.flood_after before code }
{
    match code {
        None => before,
        Some(code) => code.is(Code::M(8)) || before && !code.is(Code::M(9)),
    }
}

fn overrides_after(before: bool, code: Option<Code>) -> bool
    ensures { result ≡ spec.overrides_after before code }
{
    match code {
        None => before,
        Some(code) => code.is(Code::M(48)),
    }
}

fn offset_after(before: bool, line: &[Code]) -> bool
    ensures { result ≡ spec.offset_after before line.now }
{
    if has(&codes::OFFSET, line)
        || has(&codes::LOCAL_OFFSET, line)
        || has(&codes::OFFSET_RESTORED, line)
    {
        true
    } else {
        before && !has(&codes::OFFSET_CHANGES, line)
    }
}

fn speed_after(before: Value, value: Option<Number>) -> Value
    ensures { result ≡ spec.speed_after before value }
{
    match value {
        None => before,
        Some(value) => value.to_value(),
    }
}

impl Switches {
    /// Returns what holds before the first line: speed 0, coolant off, overrides on, no offset.
    pub fn start() -> Switches
        ensures { result ≡ spec.start_switches }
    {
        Switches {
            speed: Value::zero(),
            mist: false,
            flood: false,
            overrides: true,
            offset: false,
        }
    }

    // Returns what holds after a line with these codes and words.
    fn after_codes(&self, line: &[Code], words: &[Word]) -> Switches
        ensures { result ≡ spec.after_codes line.now words.now self.now }
    {
        let coolant = code_in(&codes::COOLANT, line);
        Switches {
            speed: speed_after(self.speed, value_of(b'S', words)),
            mist: mist_after(self.mist, coolant),
            flood: flood_after(self.flood, coolant),
            overrides: overrides_after(self.overrides, code_in(&codes::OVERRIDES, line)),
            offset: offset_after(self.offset, line),
        }
    }

    /// Returns what holds after a line of LinuxCNC with these words, which were executed.
    #[tactic(auto, unfolding(crate::specs::Switched::switches_after))]
    pub fn after(&self, words: &[Word]) -> Switches
        ensures { result ≡ spec.switches_after words.now self.now }
    {
        if !may_any_switch(words) {
            return *self;
        }
        let mut line: ArrayVec<Code, 24> = ArrayVec::new();
        match add_codes(Dialect::LinuxCnc, words, &mut line) {
            Ok(()) => self.after_codes(line.as_slice(), words),
            Err(_) => *self,
        }
    }
}
