//! Laws of the definitions. The functions do nothing: what they ensure holds.
ghost use Rattle.std.specs.Prelude.{◌≡◌, ◌+◌, ℕ, List, length, IfOk, None};
ghost use Rattle.ngc_dialect_flow.specs.declared.state.CallKind.TheVariants as kinds;
ghost use Rattle.ngc_dialect_flow.specs.Calls.{call_at, enter, m99_at, return_at};
ghost use Rattle.ngc_dialect_flow.specs.Next.{next as step, run as steps};
ghost use Rattle.ngc_dialect_flow.specs.Places.{Plan};
ghost use Rattle.ngc_dialect_flow.specs.State.{Flow, after as line_after};
ghost use Rattle.ngc_dialect_flow.specs.Words.{Values, word_in as word_of};

/// A step takes one unit of fuel.
pub fn fuel_falls()
    ensures { (plan : Plan) (v : Values) (s : Flow) →
        IfOk (step plan v s) (λ x. x.0.fuel + 1 ≡ s.fuel) }
{}

/// A run has at most as many steps as there was fuel, so that each run ends.
pub fn runs_end()
    ensures { (plan : Plan) (vs : List Values) (s : Flow) →
        IfOk (steps plan vs s) (λ t. t.fuel + length vs ≡ s.fuel) }
{}

/// A RETURN or ENDSUB with the calls that a CALL has left goes to the line after that, with the calls
/// before it.
pub fn returns_go_on_after_calls()
    ensures { (plan : Plan) (v : Values) (s : Flow) →
        IfOk (call_at plan v s) (λ x. (t : Flow) (w : Values) → t.calls ≡ x.0.calls →
        IfOk (return_at w t) (λ y. (y.0.line ≡ line_after s.line) × (y.0.calls ≡ s.calls))) }
{}

/// An M99 without P, with the calls that an M98 has left which calls once, goes to the line after that.
pub fn m99_goes_on_after_m98()
    ensures { (plan : Plan) (n : ℕ) (s : Flow) →
        IfOk (enter kinds.Program n 0 s) (λ x. (t : Flow) (w : Values) →
        word_of 80 w.statements ≡ None → t.calls ≡ x.calls →
        IfOk (m99_at plan w t) (λ y. (y.0.line ≡ line_after s.line) × (y.0.calls ≡ s.calls))) }
{}
