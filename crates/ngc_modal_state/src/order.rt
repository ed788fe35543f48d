ghost use Rattle.std.specs.Prelude.{◌≡◌, ◌+◌, ◌<◌, ◌≤◌, ◌++◌, option_to_list, option_map, ◌||◌};
ghost use Rattle.std.specs.Prelude.{is_some};
ghost use Rattle.arrayvec.specs.ArrayVec.{array_vec_len};
ghost use Rattle.ngc_modal_state.specs.Effects.{standing, mark as marked, system_at as system_by};

use crate::block::Block;
use crate::code::{Coolant, LengthCode, MotionMode, NonModal};
use crate::effect::{ArcWords, CycleWords, Effect, Home};
use crate::fault::ModalFault;
use crate::modes::Modes;
use crate::range::whole;
use arrayvec::ArrayVec;
use ngc_fixed_length::{FeedMode, System, Value};

// Adds an item, if there is one.
fn add<T: Copy>(list: &mut ArrayVec<T, 24>, item: Option<T>)
    requires { array_vec_len list.old < 24 }
    ensures items { list.new.items ≡ list.old.items ++ option_to_list item }
    ensures room { array_vec_len list.new ≤ array_vec_len list.old + 1 }
{
    if let Some(item) = item {
        list.push(item);
    }
}

// Returns the effect, if it is present.
fn mark(effect: Effect, stands: bool) -> Option<Effect>
    ensures { result ≡ marked effect stands }
{
    if stands { Some(effect) } else { None }
}

// Returns the coordinate system of a P word of G10.
fn system_at(word: Option<Value>) -> Option<System>
    ensures { result ≡ system_by word }
{
    match whole(word?) {
        1 => Some(System::First),
        2 => Some(System::Second),
        3 => Some(System::Third),
        4 => Some(System::Fourth),
        5 => Some(System::Fifth),
        6 => Some(System::Sixth),
        7 => Some(System::Seventh),
        8 => Some(System::Eighth),
        9 => Some(System::Ninth),
        _ => None,
    }
}

impl Block {
    ghost use Rattle.ngc_modal_state.specs.Faults.{Gives};
    ghost use Rattle.ngc_modal_state.specs.Effects.{feed_effect, inverse_feed, dwell_effect};
    ghost use Rattle.ngc_modal_state.specs.Effects.{length_effect, frame_effect, arc_words};
    ghost use Rattle.ngc_modal_state.specs.Effects.{cycle_words, move_effect, first_effects};
    ghost use Rattle.ngc_modal_state.specs.Effects.{mode_effects, last_effects, in_order};
    ghost use Rattle.ngc_modal_state.specs.Effects.{effects as effects_of};
    ghost use Rattle.ngc_modal_state.specs.Use.{feed_mode_of, whole as whole_part};
    ghost use Rattle.ngc_modal_state.specs.declared.effect.Effect.TheVariants as acts;

    // Returns the effect of F in feed per minute, in the units that the line leaves in force.
    fn feed_effect(&self, modes: &Modes) -> Option<Effect>
        ensures { result ≡ feed_effect (feed_mode_of modes.now self.now) modes.now self.now }
    {
        match self.feed_mode_in_force(modes) {
            FeedMode::PerMinute => Some(Effect::Feed {
                value: self.f?,
                units: self.units.unwrap_or(modes.units),
            }),
            FeedMode::InverseTime => None,
        }
    }

    // Returns F of a motion in inverse time.
    fn inverse_feed(&self, modes: &Modes) -> Option<Value>
        ensures { result ≡ inverse_feed (feed_mode_of modes.now self.now) self.now.f }
    {
        let value = self.f?;
        match self.feed_mode_in_force(modes) {
            FeedMode::PerMinute => None,
            FeedMode::InverseTime => Some(value),
        }
    }

    // Returns the effect of T.
    fn tool_effect(&self) -> Option<Effect>
        ensures { result ≡ option_map (λ v. acts.SelectTool (whole_part v)) self.now.t }
    {
        Some(Effect::SelectTool(whole(self.t?)))
    }

    // Returns the effect of G4.
    fn dwell_effect(&self) -> Option<Effect>
        ensures { result ≡ dwell_effect self.now.once self.now }
    {
        if self.is_dwell() {
            self.p.map(Effect::Dwell)
        } else {
            None
        }
    }

    // Returns the effect of G43 with its H, or of G49.
    fn length_effect(&self) -> Option<Effect>
        ensures { result ≡ length_effect self.now.tool_length self.now }
    {
        match self.tool_length? {
            LengthCode::Apply => Some(Effect::ToolLength(Some(whole(self.h?)))),
            LengthCode::Cancel => Some(Effect::ToolLength(None)),
        }
    }

    // Returns the effect of G10, G28, G30, G92 or one of its forms.
    fn frame_effect(&self) -> Option<Effect>
        ensures { result ≡ frame_effect self.now.once self.now }
    {
        let axes = self.axes;
        match self.once? {
            NonModal::SetOrigin => Some(Effect::SetOrigin {
                system: system_at(self.p)?,
                axes,
            }),
            NonModal::Home28 => Some(Effect::GoHome {
                home: Home::First,
                axes,
            }),
            NonModal::Home30 => Some(Effect::GoHome {
                home: Home::Second,
                axes,
            }),
            NonModal::SetOffset => Some(Effect::SetOffset(axes)),
            NonModal::ClearOffset => Some(Effect::ClearOffset),
            NonModal::SuspendOffset => Some(Effect::SuspendOffset),
            NonModal::RestoreOffset => Some(Effect::RestoreOffset),
            NonModal::Dwell | NonModal::MachinePlace => None,
        }
    }

    fn arc_words(&self) -> ArcWords
        ensures { result ≡ arc_words self.now }
    {
        ArcWords {
            i: self.i,
            j: self.j,
            k: self.k,
            r: self.r,
        }
    }

    fn cycle_words(&self) -> CycleWords
        ensures { result ≡ cycle_words self.now }
    {
        CycleWords {
            l: self.l,
            p: self.p,
            q: self.q,
            r: self.r,
        }
    }

    // Adds the line's motion, if it moves. Each effect is written once, in its place, because an
    // effect is large.
    fn add_move(
        &self,
        motion: MotionMode,
        inverse: Option<Value>,
        effects: &mut ArrayVec<Effect, 24>,
    )
        requires { array_vec_len effects.old < 24 }
        ensures items { effects.new.items ≡ effects.old.items
            ++ option_to_list (move_effect motion inverse self.now) }
        ensures room { array_vec_len effects.new ≤ array_vec_len effects.old + 1 }
    {
        let axes = self.axes;
        let machine = self.is_machine_place();
        match motion {
            MotionMode::Traverse if self.has_axes() => {
                effects.push(Effect::Traverse { machine, axes });
            }
            MotionMode::Straight if self.has_axes() => effects.push(Effect::Straight {
                machine,
                axes,
                inverse,
            }),
            MotionMode::Arc(turn) if self.has_axes() || self.has_arc_words() => {
                effects.push(Effect::Arc {
                    turn,
                    axes,
                    words: self.arc_words(),
                    inverse,
                });
            }
            MotionMode::Cycle(hole) => effects.push(Effect::Cycle {
                hole,
                axes,
                words: self.cycle_words(),
            }),
            _ => {}
        }
    }

    // Returns whether there is something that `add_first` adds after F.
    fn has_machine_words(&self) -> bool
        ensures { result ≡ (is_some self.now.s || is_some self.now.t || self.now.change_tool
            || is_some self.now.spindle || self.now.mist || self.now.flood || self.now.coolant_off
            || is_some self.now.overrides || is_some self.now.once) }
    {
        self.s.is_some()
            || self.t.is_some()
            || self.change_tool
            || self.spindle.is_some()
            || self.mist
            || self.flood
            || self.coolant_off
            || self.overrides.is_some()
            || self.once.is_some()
    }

    // Returns whether there is something that `add_first` adds.
    fn has_first_words(&self) -> bool
        ensures { result ≡ (is_some self.now.feed_mode || is_some self.now.f
            || (is_some self.now.s || is_some self.now.t || self.now.change_tool
            || is_some self.now.spindle || self.now.mist || self.now.flood || self.now.coolant_off
            || is_some self.now.overrides || is_some self.now.once)) }
    {
        self.feed_mode.is_some() || self.f.is_some() || self.has_machine_words()
    }

    // Returns whether there is a code that `add_modes` adds.
    fn has_modes(&self) -> bool
        ensures { result ≡ (is_some self.now.plane || is_some self.now.units || self.now.radius_off
            || is_some self.now.tool_length || is_some self.now.system || is_some self.now.path
            || is_some self.now.distance || is_some self.now.return_mode) }
    {
        self.plane.is_some()
            || self.units.is_some()
            || self.radius_off
            || self.tool_length.is_some()
            || self.system.is_some()
            || self.path.is_some()
            || self.distance.is_some()
            || self.return_mode.is_some()
    }

    // Adds feed mode, F, S, T, M6, spindle, coolant, overrides and dwell; most lines have none of
    // them.
    fn add_first(&self, modes: &Modes, effects: &mut ArrayVec<Effect, 24>)
        requires { array_vec_len effects.old ≤ 13 }
        ensures items { effects.new.items ≡ effects.old.items
            ++ standing (first_effects modes.now self.now) }
        ensures room { array_vec_len effects.new ≤ array_vec_len effects.old + 11 }
    {
        if !self.has_first_words() {
            return;
        }
        self.add_first_words(modes, effects);
    }

    #[tactic(auto, unfolding(crate::specs::Effects::first_effects))]
    fn add_first_words(&self, modes: &Modes, effects: &mut ArrayVec<Effect, 24>)
        requires { array_vec_len effects.old ≤ 13 }
        ensures items { effects.new.items ≡ effects.old.items
            ++ standing (first_effects modes.now self.now) }
        ensures room { array_vec_len effects.new ≤ array_vec_len effects.old + 11 }
    {
        add(effects, self.feed_mode.map(Effect::FeedMode));
        add(effects, self.feed_effect(modes));
        if !self.has_machine_words() {
            return;
        }
        add(effects, self.s.map(Effect::Speed));
        add(effects, self.tool_effect());
        add(effects, mark(Effect::ChangeTool, self.change_tool));
        add(effects, self.spindle.map(Effect::Spindle));
        add(effects, mark(Effect::Coolant(Coolant::Mist), self.mist));
        add(effects, mark(Effect::Coolant(Coolant::Flood), self.flood));
        add(
            effects,
            mark(Effect::Coolant(Coolant::Off), self.coolant_off),
        );
        add(effects, self.overrides.map(Effect::Override));
        add(effects, self.dwell_effect());
    }

    // Adds plane, units, radius compensation, tool length, coordinate system, path control,
    // distance and return mode.
    #[tactic(auto, unfolding(crate::specs::Effects::mode_effects))]
    fn add_modes(&self, effects: &mut ArrayVec<Effect, 24>)
        requires { array_vec_len effects.old ≤ 16 }
        ensures items { effects.new.items ≡ effects.old.items ++ standing (mode_effects self.now) }
        ensures room { array_vec_len effects.new ≤ array_vec_len effects.old + 8 }
    {
        if !self.has_modes() {
            return;
        }
        add(effects, self.plane.map(Effect::Plane));
        add(effects, self.units.map(Effect::Units));
        add(
            effects,
            mark(Effect::CutterCompensationOff, self.radius_off),
        );
        add(effects, self.length_effect());
        add(effects, self.system.map(Effect::System));
        add(effects, self.path.map(Effect::Path));
        add(effects, self.distance.map(Effect::Distance));
        add(effects, self.return_mode.map(Effect::Return));
    }

    // Adds what sets frames, the motion, and what stops.
    #[tactic(auto, unfolding(crate::specs::Effects::last_effects))]
    fn add_last(&self, modes: &Modes, effects: &mut ArrayVec<Effect, 24>)
        requires { array_vec_len effects.old ≤ 20 }
        ensures items { effects.new.items ≡ effects.old.items
            ++ standing (last_effects modes.now self.now) }
        ensures room { array_vec_len effects.new ≤ array_vec_len effects.old + 4 }
    {
        add(effects, self.frame_effect());
        add(effects, self.motion.map(Effect::Motion));
        self.add_move(self.user(modes), self.inverse_feed(modes), effects);
        add(effects, self.stopping.map(Effect::Stopping));
    }

    /// Puts the line's effects in `effects`, in order of execution. It returns fault 210, or else
    /// the first of 206 to 209 that applies: a word is claimed twice, without use, missing or out
    /// of its range. After a fault the contents of `effects` are unspecified.
    #[tactic(auto, using(crate::proofs::PresentEffects::in_parts))]
    pub fn effects(
        &self,
        modes: &Modes,
        effects: &mut ArrayVec<Effect, 24>,
    ) -> Result<(), ModalFault>
        ensures { Gives (λ _. effects.new.items) result (effects_of modes.now self.now) }
    {
        self.check(modes)?;
        effects.clear();
        self.add_first(modes, effects);
        self.add_modes(effects);
        self.add_last(modes, effects);
        Ok(())
    }
}
