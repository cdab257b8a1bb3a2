//! Copies of the types that hold a bounded list. No copy takes memory.

ghost use Rattle.std.specs.Prelude.{◌≡◌};
ghost use Rattle.tw_types.specs.declared.datagram.Body.TheVariants as bodies;

use crate::datagram::{Body, Datagram, Why};
use crate::message::{Decision, Kept, Report};
use arrayvec::ArrayVec;

fn copied<T: Copy + Default + Drop, const N: usize>(items: &ArrayVec<T, N>) -> ArrayVec<T, N>
    ensures { result ≡ items.now }
{
    let mut copy = ArrayVec::new();
    let _ = copy.try_extend_from_slice(items.as_slice());
    copy
}

/// Makes a list equal to another one, where it stands.
fn fill<T: Copy + Default + Drop, const N: usize>(list: &mut ArrayVec<T, N>, items: &ArrayVec<T, N>)
    ensures { list.new ≡ items.now }
{
    list.clear();
    let _ = list.try_extend_from_slice(items.as_slice());
}

impl Kept {
    /// An equal update.
    pub fn copy(&self) -> Self
        ensures { result ≡ self.now }
    {
        Kept {
            entry: self.entry,
            early: self.early,
            payload: copied(&self.payload),
        }
    }
}

impl Decision {
    /// An equal decision.
    pub fn copy(&self) -> Self
        ensures { result ≡ self.now }
    {
        Decision {
            group: self.group,
            turn: self.turn,
            made: self.made,
            start: self.start,
            low: self.low,
            mark: self.mark,
            seats: copied(&self.seats),
            maker: self.maker,
            window: copied(&self.window),
        }
    }

    /// Becomes equal to another decision, where it stands.
    fn copy_from(&mut self, other: &Decision)
        ensures { self.new ≡ other.now }
    {
        self.group = other.group;
        self.turn = other.turn;
        self.made = other.made;
        self.start = other.start;
        self.low = other.low;
        self.mark = other.mark;
        fill(&mut self.seats, &other.seats);
        self.maker = other.maker;
        fill(&mut self.window, &other.window);
    }
}

impl Body {
    /// An equal body.
    pub fn copy(&self) -> Self
        ensures { result ≡ self.now }
    {
        match self {
            Body::Update(kept) => Body::Update(kept.copy()),
            Body::Decision(decision) => Body::Decision(decision.copy()),
            Body::NoDecision {
                number,
                group,
                turn,
                skip,
                reports,
                best,
            } => Body::NoDecision {
                number: *number,
                group: *group,
                turn: *turn,
                skip: *skip,
                reports: copied(reports),
                best: best.copy(),
            },
            Body::Election { number, why } => Body::Election {
                number: *number,
                why: *why,
            },
            Body::Promise {
                number,
                report,
                decision,
            } => Body::Promise {
                number: *number,
                report: *report,
                decision: decision.as_ref().map(Decision::copy),
            },
            Body::Ask(want) => Body::Ask(*want),
            Body::State {
                group,
                position,
                total,
                offset,
                bytes,
            } => Body::State {
                group: *group,
                position: *position,
                total: *total,
                offset: *offset,
                bytes: copied(bytes),
            },
            Body::Sync { ready } => Body::Sync { ready: *ready },
        }
    }
}

/// Makes a promise's decision equal to another one, where it stands.
fn fill_optional(mine: &mut Option<Decision>, optional: &Option<Decision>)
    ensures { mine.new ≡ optional.now }
{
    let Some(decision) = optional else {
        *mine = None;
        return;
    };
    if mine.is_none() {
        *mine = Some(Decision::default());
    }
    if let Some(mine) = mine {
        mine.copy_from(decision);
    }
}

/// Makes a body this decision. Like those of the other kinds it is written where it stands, and the body is made a blank one of
/// the kind only where it is of another, since moving the room of the largest body takes longer than writing a short one.
#[inline(never)]
fn fill_decision(body: &mut Body, decision: &Decision)
    ensures { body.new ≡ bodies.Decision decision.now }
{
    if !matches!(body, Body::Decision(_)) {
        *body = Body::Decision(Decision::default());
    }
    if let Body::Decision(mine) = body {
        mine.copy_from(decision);
    }
}

#[inline(never)]
fn fill_election(body: &mut Body, number: u64, why: Why)
    ensures { body.new ≡ bodies.Election number why }
{
    if !matches!(body, Body::Election { .. }) {
        *body = Body::Election {
            number: 0,
            why: Why::Stuck,
        };
    }
    if let Body::Election {
        number: my_number,
        why: my_why,
    } = body
    {
        *my_number = number;
        *my_why = why;
    }
}

#[inline(never)]
fn fill_promise(body: &mut Body, number: u64, report: Report, decision: &Option<Decision>)
    ensures { body.new ≡ bodies.Promise number report decision.now }
{
    if !matches!(body, Body::Promise { .. }) {
        *body = Body::Promise {
            number: 0,
            report,
            decision: None,
        };
    }
    if let Body::Promise {
        number: my_number,
        report: my_report,
        decision: mine,
    } = body
    {
        *my_number = number;
        *my_report = report;
        fill_optional(mine, decision);
    }
}

#[inline(never)]
fn fill_sync(body: &mut Body, ready: Option<(u64, u64, u64)>)
    ensures { body.new ≡ bodies.Sync ready }
{
    if !matches!(body, Body::Sync { .. }) {
        *body = Body::Sync { ready: None };
    }
    if let Body::Sync { ready: mine } = body {
        *mine = ready;
    }
}

/// Makes a body equal to another one, by a copy that is moved.
#[inline(never)]
fn replace(body: &mut Body, other: &Body)
    ensures { body.new ≡ other.now }
{
    *body = other.copy();
}

impl Body {
    /// Becomes equal to another body. What processes send today is written where it stands.
    pub fn copy_from(&mut self, other: &Body)
        ensures { self.new ≡ other.now }
    {
        match other {
            Body::Decision(decision) => fill_decision(self, decision),
            Body::Election { number, why } => fill_election(self, *number, *why),
            Body::Promise {
                number,
                report,
                decision,
            } => fill_promise(self, *number, *report, decision),
            Body::Sync { ready } => fill_sync(self, *ready),
            _ => replace(self, other),
        }
    }
}

impl Datagram {
    /// An equal datagram.
    pub fn copy(&self) -> Self
        ensures { result ≡ self.now }
    {
        Datagram {
            head: self.head,
            body: self.body.copy(),
        }
    }
}
