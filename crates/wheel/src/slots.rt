//! Slots of team time and the owners of numbers: numbers alone.

ghost use Rattle.std.specs.Prelude.{◌≡◌, ◌<◌, ◌≤◌, ◌^◌};
ghost use Rattle.tw_types.specs.Team.{IsSound};
ghost use Rattle.tw_types.specs.Slots.{slot_of, owner, next_owned, IsNextOwned};

use tw_types::Team;

/// The slot that team time `t` falls in, counted from 0. Both are in microseconds but for the count.
pub fn slot_of(team: &Team, t: u64) -> u64
    requires { IsSound team.now }
    ensures { result ≡ slot_of team.now t }
{
    t / team.slot
}

/// The one of `n` processes, 3 to 15, that may make a group of this number.
pub fn owner(n: u8, number: u64) -> u8
    requires { (3 ≤ n) × (n ≤ 15) }
    ensures { result ≡ owner n number }
{
    (number % u64::from(n)) as u8
}

/// The least number, not below `number`, that process `who` of `n` owns. It may be `number` itself. For a `who` that is none of
/// them it is a number that another one owns.
pub fn next_owned(n: u8, number: u64, who: u8) -> u64
    requires size { (3 ≤ n) × (n ≤ 15) }
    requires number { number < 2 ^ 61 }
    ensures exact { result ≡ next_owned n number who }
    ensures least { who < n → IsNextOwned n number who result }
{
    let n = u64::from(n);
    number + (u64::from(who) + n - number % n) % n
}
