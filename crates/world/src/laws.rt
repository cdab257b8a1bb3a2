//! A law of every schedule. It is the contract of a function that does nothing.

ghost use Rattle.std.specs.Prelude.{◌≡◌, ℕ, List};
ghost use Rattle.std.specs.Option.{option_map};
ghost use Rattle.tw_machine.specs.Types.{Team, Step};
ghost use Rattle.tw_machine.specs.World.{world};
ghost use Rattle.tw_machine.specs.Lives.{record_of};
ghost use Rattle.world.specs.Columns.{life_in};

/// A process of a schedule is what it makes of the events of its present life, at their readings, and of nothing else: so
/// whatever reads the same events at the same readings is that process.
pub fn columns_are_of_their_events()
    ensures column { (team : Team) (past : List Step) (who : ℕ) →
        (world team past).process_of who ≡ option_map (record_of team who) (life_in team past who) }
{}
