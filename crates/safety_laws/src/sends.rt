//! What becomes of updates that were sent: each id keeps what its one send gave, and lists grow in supported groups alone. Each law
//! is the contract of a function that does nothing.

ghost use Rattle.std.specs.Prelude.{List, ◌≡◌, ◌≢◌, ℕ, [], Some, IfSome};
ghost use Rattle.std.specs.List.{AllByRecursion};
ghost use Rattle.tw_machine.specs.Types.{Team, Step, Decision};
ghost use Rattle.tw_types.specs.Team.{IsSound};
ghost use Rattle.tw_machine.specs.Dispatches.{Dispatch};
ghost use Rattle.tw_machine.specs.History.{history, Make};
ghost use Rattle.tw_machine.specs.World.{Admissible, world};
ghost use Rattle.safety_laws.specs.Effects.{written};
ghost use Rattle.safety_laws.specs.Groups.{HasMajority};
ghost use Rattle.safety_laws.specs.Ids.{MakeKeeps, ProcessKeeps, BodyKeeps};
ghost use Rattle.tw_types.specs.Items.{In};
ghost use Rattle.safety_laws.specs.Made.{WasMade};
ghost use Rattle.safety_laws.specs.Pending.{IsSettled};
ghost use Rattle.safety_laws.specs.Sends.{AllSentOnce, FillsNoHole, IsOfSender, Sends};
ghost use Rattle.safety_laws.specs.Supported.{IsSentInSupported};

/// An id is sent once: no two updates that were sent have one id (`once`), and each is of a member of its process, in a life of it
/// (`senders`). What a running process sent in its life has a number below its next one, and what it sent in an earlier life a
/// lesser incarnation; one that lost its memory sent nothing since (`numbers`). So a new update of its own fills no hole of a
/// decision that it holds (`holes`).
pub fn updates_are_sent_once()
    ensures once { (team : Team) (past : List Step) → IsSound team → Admissible team past → AllSentOnce (history team past).sends }
    ensures senders { (team : Team) (past : List Step) → IsSound team → Admissible team past →
        AllByRecursion (IsOfSender past) (history team past).sends }
    ensures numbers { (team : Team) (past : List Step) (who : ℕ) → IsSound team → Admissible team past →
        IfSome ((world team past).process_of who) (Sends past (written team past) who) }
    ensures holes { (team : Team) (past : List Step) (who : ℕ) → IsSound team → Admissible team past →
        IfSome ((world team past).process_of who) FillsNoHole }
{}

/// Senders are seated in supported groups: some made decision of the group in which an update was sent has its member as a seat, and
/// supports of a majority of the team.
pub fn senders_are_supported()
    ensures { (team : Team) (past : List Step) → IsSound team → Admissible team past →
        AllByRecursion (IsSentInSupported team (history team past).makes) (history team past).sends }
{}

/// Each id keeps what its send gave: order, atomicity, stamp, and payload where there is one, in each made decision's appended
/// entries, list and window (`made`), in the list of each running process, in what is pending there or kept with a held decision
/// (`kept`), and in each datagram that carries an update (`carried`).
pub fn ids_keep_their_sends()
    ensures made { (team : Team) (past : List Step) → IsSound team → Admissible team past →
        AllByRecursion (MakeKeeps (history team past).sends) (history team past).makes }
    ensures kept { (team : Team) (past : List Step) (who : ℕ) → IsSound team → Admissible team past →
        IfSome ((world team past).process_of who) (ProcessKeeps (history team past).sends) }
    ensures carried { (team : Team) (past : List Step) → IsSound team → Admissible team past →
        AllByRecursion (λ (k : Dispatch). BodyKeeps (history team past).sends k.datagram.body) (world team past).sent }
{}

/// Pending updates are settled: each has a seat of its member in the decision that the process took or follows, and is one of the
/// eight that the seat awaits next; none is pending twice, and none where there is no decision.
pub fn pending_updates_are_settled()
    ensures { (team : Team) (past : List Step) (who : ℕ) → IsSound team → Admissible team past →
        IfSome ((world team past).process_of who) IsSettled }
{}

/// Entries are appended in supported groups: what a made decision with appended entries stands on was made, and has supports of a
/// majority of the team.
pub fn entries_are_appended_in_supported_groups()
    ensures { (team : Team) (past : List Step) (m : Make) → IsSound team → Admissible team past →
        In m (history team past).makes → m.making.appended ≢ [] →
        (last : Decision) × (m.making.before ≡ Some last) × WasMade (history team past).makes last × HasMajority team last }
{}
