//! Lines as teams and steps, or as none. It knows no step before.

ghost use Rattle.std.specs.Prelude.{◌≡◌, ℕ, ◌<◌, ◌^◌, List, [], ◌∷◌, IfOk, OnErr};
ghost use Rattle.tw_machine.specs.Types.{Team as TeamSeen, Act as ActSeen, Step as StepSeen};
ghost use Rattle.schedule_text.specs.Fields.{fields_left};
ghost use Rattle.tw_machine.specs.Grammar.{IsTeamLine, IsStepLine, IsAct, act_fields};

use crate::fields::{Fields, is_word};
use tw_types::{Act, Step, Team};

/// A line that is not of the grammar.
#[derive(Clone, Copy, Debug, PartialEq, Eq)]
pub struct Grammar;

/// The most bytes of a line, its line feed not counted.
const LINE_LIMIT: usize = 9000;

/// The act that a word alone spells.
fn act_of_word(word: &[u8]) -> Result<Act, Grammar>
    ensures read { IfOk result (λ act. act_fields act ≡ word.now ∷ []) }
    ensures refused { OnErr result ((act : ActSeen) → act_fields act ≡ word.now ∷ [] → ⊥) }
{
    if is_word(word, b"first") {
        Ok(Act::First)
    } else if is_word(word, b"again") {
        Ok(Act::Again)
    } else if is_word(word, b"crash") {
        Ok(Act::Crash)
    } else if is_word(word, b"tick") {
        Ok(Act::Tick)
    } else if is_word(word, b"look") {
        Ok(Act::Look)
    } else {
        Err(Grammar)
    }
}

/// The act that the rest of a line's fields spell, all of them.
fn read_act(mut fields: Fields<'_>) -> Result<Act, Grammar>
    ensures read { IfOk result (λ act. IsAct act × (fields_left fields.entry ≡ act_fields act)) }
    ensures refused { OnErr result ((act : ActSeen) → IsAct act → fields_left fields.entry ≡ act_fields act → ⊥) }
{
    let word = fields.word()?;
    let act = if is_word(word, b"recv") {
        Act::Recv(fields.datagram()?)
    } else if is_word(word, b"send") {
        let (order, atom, payload) = fields.update()?;
        Act::Send {
            order,
            atom,
            payload,
        }
    } else if is_word(word, b"ref") {
        let (lo, hi) = fields.interval()?;
        Act::Reference { lo, hi }
    } else {
        act_of_word(word)?
    };
    fields.end()?;
    Ok(act)
}

/// The team that a line spells, whether or not the team is sound. The line comes without its line feed. `Grammar` exactly
/// where it spells no team.
pub fn read_team(line: &[u8]) -> Result<Team, Grammar>
    ensures read { IfOk result (λ team. IsTeamLine line.now team) }
    ensures refused { OnErr result ((team : TeamSeen) → IsTeamLine line.now team → ⊥) }
{
    if line.len() > LINE_LIMIT {
        return Err(Grammar);
    }
    let mut fields = Fields::of(line);
    if !is_word(fields.word()?, b"team") {
        return Err(Grammar);
    }
    let [
        n,
        line,
        ppm,
        eps,
        delta,
        pace,
        decide,
        ring,
        slot,
        lease,
        quarantine,
        theta,
    ] = fields.numbers::<12>()?;
    fields.end()?;
    if n > u64::from(u8::MAX) || line > u64::from(u32::MAX) {
        return Err(Grammar);
    }
    Ok(Team {
        n: n as u8,
        line: line as u32,
        ppm,
        eps,
        delta,
        pace,
        decide,
        ring,
        slot,
        lease,
        quarantine,
        theta,
    })
}

/// The step that a line spells, of one of the team's processes. The line comes without its line feed. `Grammar` exactly
/// where it spells no such step.
pub fn read_step(team: &Team, line: &[u8]) -> Result<Step, Grammar>
    ensures read { IfOk result (λ s. IsStepLine team.now.n line.now s) }
    ensures refused { OnErr result ((s : StepSeen) → IsStepLine team.now.n line.now s → ⊥) }
{
    if line.len() > LINE_LIMIT {
        return Err(Grammar);
    }
    let processes = u64::from(team.n);
    let mut fields = Fields::of(line);
    let [t, who, h] = fields.numbers::<3>()?;
    if processes <= who {
        return Err(Grammar);
    }
    let act = read_act(fields)?;
    Ok(Step {
        t,
        who: who as u8,
        h,
        act,
    })
}
