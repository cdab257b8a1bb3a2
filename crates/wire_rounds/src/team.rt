//! The teams whose datagrams are made.

ghost use Rattle.std.specs.Prelude.{◌≤◌};
ghost use Rattle.tw_types.specs.Team.{IsSound};

use tw_types::Team;

/// A team of this size, with line 7.
pub fn team_of(n: u8) -> Team
    requires least { 3 ≤ n }
    requires most { n ≤ 15 }
    ensures { IsSound result }
{
    Team {
        n,
        line: 7,
        ppm: 0,
        eps: 1_000,
        delta: 10_000,
        pace: 20_000,
        decide: 10_000,
        ring: 50_000,
        slot: 100_000,
        lease: 400_000,
        quarantine: 2_304_003,
        theta: 30_000,
    }
}
