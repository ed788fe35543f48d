ghost use Rattle.std.specs.Prelude.{◌≡◌, ℤ, pos, ◌*ℤ◌, ◌≤ℤ◌, ◌<ℤ◌, ◌≤◌, ◌^◌, ◌↔◌, ◌≢◌, unsigned_abs};
ghost use Rattle.ngc_cells.specs.Spans.{IsIn, IsInEither, IsBetween};

/// The whole numbers from `low` to `high`, both included. There are none if `low` is above `high`.
#[derive(Clone, Copy)]
pub struct Span {
    pub low: i128,
    pub high: i128,
}

/// Returns the greatest whole number whose product with `by` is at most `limit`.
fn floor_quotient(limit: i128, by: i128) -> i128
    requires by { pos 0 <ℤ by }
    ensures { (q : ℤ) → (q ≤ℤ result) ↔ ((q *ℤ by) ≤ℤ limit) }
{
    limit.div_euclid(by)
}

/// Returns the least whole number whose product with `by` is at least `limit`.
fn ceiling_quotient(limit: i128, by: i128) -> i128
    requires limit { unsigned_abs limit ≤ 2 ^ 120 }
    requires by { pos 0 <ℤ by }
    ensures { (q : ℤ) → (result ≤ℤ q) ↔ (limit ≤ℤ (q *ℤ by)) }
{
    -(-limit).div_euclid(by)
}

impl Span {
    /// Returns the span of no numbers.
    pub(crate) fn none() -> Span
        ensures { (x : ℤ) → ¬ (IsIn result x) }
    {
        Span { low: 1, high: 0 }
    }

    /// Returns the whole numbers whose products with `by` are from `low` to `high`.
    pub(crate) fn quotients(low: i128, high: i128, by: i128) -> Span
        requires low { unsigned_abs low ≤ 2 ^ 100 }
        requires high { unsigned_abs high ≤ 2 ^ 100 }
        requires by { by ≢ pos 0 }
        requires size { unsigned_abs by ≤ 2 ^ 100 }
        ensures { (x : ℤ) → IsIn result x ↔ ((low ≤ℤ (x *ℤ by)) × ((x *ℤ by) ≤ℤ high)) }
    {
        if by > 0 {
            Span {
                low: ceiling_quotient(low, by),
                high: floor_quotient(high, by),
            }
        } else {
            Span {
                low: ceiling_quotient(-high, -by),
                high: floor_quotient(-low, -by),
            }
        }
    }

    /// Returns the numbers that both spans have.
    pub(crate) fn meet(self, other: Span) -> Span
        ensures { (x : ℤ) → IsIn result x ↔ (IsIn self x × IsIn other x) }
    {
        Span {
            low: self.low.max(other.low),
            high: self.high.min(other.high),
        }
    }

    /// Returns the least span that has all numbers of both.
    pub(crate) fn hull(self, other: Span) -> Span
        ensures holds { (x : ℤ) → IsInEither self other x → IsIn result x }
        ensures between { (x : ℤ) → IsIn result x → IsBetween self other x }
    {
        if self.low > self.high {
            other
        } else if other.low > other.high {
            self
        } else {
            Span {
                low: self.low.min(other.low),
                high: self.high.max(other.high),
            }
        }
    }
}
