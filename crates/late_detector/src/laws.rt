//! What bounds say of the true delay. It is the contract of a function that does nothing.

ghost use Rattle.std.specs.Prelude.{◌≡◌, ℕ, ◌-◌, ◌≤◌, Option, IfSome};
ghost use Rattle.tw_num.specs.declared.interval.Interval.{Interval};
ghost use Rattle.tw_num.specs.Interval.{Holds};
ghost use Rattle.tw_num.specs.Clock.{delayed};
ghost use Rattle.tw_num.specs.Rate.{RoundTrip, IsRoundTrip, echo_bound, interval_bound, Rate, rate, IfRated};

/// No bound is below the true delay of a packet that was sent at team time `left` and received at `arrived`, where clocks
/// keep the drift bound, the echo is of a real round trip, and intervals hold team time: the sender's when it sent, the
/// receiver's when it received.
///
/// So a packet that is rated timely was on its way for at most the time-out, and what a clock is given of a heard interval
/// holds team time.
pub fn bounds_cover_the_delay()
    ensures echo { (ppm left arrived : ℕ) (trip : RoundTrip) → ppm ≤ 1000 → IsRoundTrip ppm left arrived trip →
        IfSome (echo_bound ppm trip) (λ bound. arrived - left ≤ bound) }
    ensures interval { (left arrived : ℕ) (own theirs : Option Interval) →
        IfSome own (λ i. Holds i arrived) → IfSome theirs (λ i. Holds i left) →
        IfSome (interval_bound own theirs) (λ bound. arrived - left ≤ bound) }
    ensures rate { (ppm delta left arrived : ℕ) (trip : Option RoundTrip) (own theirs : Option Interval) → ppm ≤ 1000 →
        IfSome trip (IsRoundTrip ppm left arrived) →
        IfSome own (λ i. Holds i arrived) → IfSome theirs (λ i. Holds i left) →
        IfRated (λ bound. arrived - left ≤ bound) (rate ppm delta trip own theirs) }
    ensures timely { (ppm delta left arrived bound : ℕ) (trip : Option RoundTrip) (own theirs : Option Interval) →
        ppm ≤ 1000 → IfSome trip (IsRoundTrip ppm left arrived) →
        IfSome own (λ i. Holds i arrived) → IfSome theirs (λ i. Holds i left) →
        rate ppm delta trip own theirs ≡ Rate.Timely bound → arrived - left ≤ delta }
    ensures delayed { (left arrived bound : ℕ) (i : Interval) → left ≤ arrived → arrived - left ≤ bound →
        Holds i left → Holds (delayed i bound) arrived }
{}
