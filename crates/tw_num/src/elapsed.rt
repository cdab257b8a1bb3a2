//! How much team time so many ticks of a hardware clock mean, at least and at most. All else that speaks of drift
//! calls these two.

ghost use Rattle.std.specs.Prelude.{◌≡◌, ℕ, ◌<◌, ◌≤◌, ◌^◌, pos, ◌≤ℤ◌};
ghost use Rattle.tw_num.specs.Elapsed.{MayElapse, up, down};

/// The most team time, in microseconds, that `ticks` elapsed ticks of a clock with drift bound `ppm` may have taken:
/// `(ticks + 1) * 1000000 / (1000000 - ppm)`, rounded down.
pub fn up(ticks: u64, ppm: u64) -> u64
    requires ticks { ticks < 2 ^ 60 }
    requires drift { ppm ≤ 1000 }
    ensures exact { result ≡ up ticks ppm }
    ensures bound { (time : ℕ) → MayElapse ppm ticks time → time ≤ result }
{
    ((u128::from(ticks) + 1) * 1_000_000 / (1_000_000 - u128::from(ppm))) as u64
}

/// The least team time, in microseconds, that `ticks` elapsed ticks of a clock with drift bound `ppm` must have taken:
/// `(ticks - 1) * 1000000 / (1000000 + ppm)`, rounded down, which is -1 for no tick.
pub fn down(ticks: u64, ppm: u64) -> i64
    requires ticks { ticks < 2 ^ 60 }
    requires drift { ppm ≤ 1000 }
    ensures exact { result ≡ down ticks ppm }
    ensures bound { (time : ℕ) → MayElapse ppm ticks time → result ≤ℤ pos time }
{
    if ticks == 0 {
        return -1;
    }
    ((u128::from(ticks) - 1) * 1_000_000 / (1_000_000 + u128::from(ppm))) as i64
}
