//! The fields of answers, and of what a line says of a datagram.

ghost use Rattle.std.specs.Prelude.{◌≡◌, ◌≤◌, ◌∷◌, [], map, length, codes};
ghost use Rattle.std.specs.Fmt.{decimal};
ghost use Rattle.tw_types.specs.Printed.{contents_of};
ghost use Rattle.tw_machine.specs.RowText.{answer_words, reason_words, wire_words, refusal_word, contents_words};
ghost use Rattle.schedule_text.specs.LineFields.{field_text};

use crate::line::Field;
use arrayvec::ArrayVec;
use tw_types::{Body, ProposeFault, Reason, RowAnswer, WireFault};

/// The last fields of a line, where what stands there decides how many they are.
pub(crate) type Few = ArrayVec<Field<'static>, 4>;

const DROPPED: Field<'static> = Field::Word("dropped");

fn few(fields: &[Field<'static>]) -> Few
    requires { length fields.now ≤ 4 }
    ensures { result.items ≡ fields.now }
{
    let mut few = ArrayVec::new();
    let _ = few.try_extend_from_slice(fields);
    few
}

/// A word, and the number that goes with it.
fn numbered(word: &'static str, number: u64) -> Few
    ensures { map field_text result.items ≡ word.now ∷ decimal number ∷ [] }
{
    few(&[Field::Word(word), Field::Number(number)])
}

/// Bytes that aren't a datagram, for this reason.
fn unreadable(word: &'static str) -> Few
    ensures { map field_text result.items ≡ codes "dropped" ∷ codes "wire" ∷ word.now ∷ [] }
{
    few(&[DROPPED, Field::Word("wire"), Field::Word(word)])
}

fn wire_fields(fault: WireFault) -> Few
    ensures { map field_text result.items ≡ codes "dropped" ∷ codes "wire" ∷ wire_words fault }
{
    match fault {
        WireFault::Short => unreadable("short"),
        WireFault::Long => unreadable("long"),
        WireFault::Version => unreadable("version"),
        WireFault::Line => unreadable("line"),
        WireFault::Kind => unreadable("kind"),
        WireFault::Field(place) => few(&[
            DROPPED,
            Field::Word("wire"),
            Field::Word("field"),
            Field::Number(u64::from(place)),
        ]),
    }
}

fn dropped(word: &'static str) -> Few
    ensures { map field_text result.items ≡ codes "dropped" ∷ word.now ∷ [] }
{
    few(&[DROPPED, Field::Word(word)])
}

fn reason_fields(reason: Reason) -> Few
    ensures { map field_text result.items ≡ codes "dropped" ∷ reason_words reason }
{
    match reason {
        Reason::Wire(fault) => wire_fields(fault),
        Reason::Stranger => dropped("stranger"),
        Reason::Disjoint => dropped("disjoint"),
        Reason::Unrated => dropped("unrated"),
        Reason::Late(bound) => few(&[DROPPED, Field::Word("late"), Field::Number(bound)]),
        Reason::Unsynced => dropped("unsynced"),
        Reason::Old => dropped("old"),
        Reason::NotMember => dropped("not_member"),
        Reason::Promised(number) => {
            few(&[DROPPED, Field::Word("promised"), Field::Number(number)])
        }
        Reason::Quarantine => dropped("quarantine"),
        Reason::OutOfWindow => dropped("out_of_window"),
        Reason::Unwilling => dropped("unwilling"),
        Reason::Gap => dropped("gap"),
        Reason::Behind => dropped("behind"),
        Reason::Missing(id) => few(&[DROPPED, Field::Word("missing"), Field::Id(id)]),
        Reason::Foreign => dropped("foreign"),
        Reason::NotHeld => dropped("not_held"),
    }
}

fn refusal_name(fault: ProposeFault) -> &'static str
    ensures { result.now ≡ refusal_word fault }
{
    match fault {
        ProposeFault::TooLong => "too_long",
        ProposeFault::NotUpToDate => "not_up",
        ProposeFault::Full => "full",
        ProposeFault::Spent => "spent",
    }
}

pub(crate) fn answer_fields(answer: RowAnswer) -> Few
    ensures { map field_text result.items ≡ answer_words answer }
{
    match answer {
        RowAnswer::Start => few(&[Field::Word("start")]),
        RowAnswer::Crash => few(&[Field::Word("crash")]),
        RowAnswer::Look => few(&[Field::Word("look")]),
        RowAnswer::Done => few(&[Field::Word("done")]),
        RowAnswer::Sent(seq) => numbered("sent", u64::from(seq)),
        RowAnswer::Refused(fault) => {
            few(&[Field::Word("refused"), Field::Word(refusal_name(fault))])
        }
        RowAnswer::Dropped(reason) => reason_fields(reason),
    }
}

pub(crate) fn contents_fields(body: &Body) -> Few
    ensures { map field_text result.items ≡ contents_words (contents_of body.now) }
{
    match body {
        Body::Update(kept) => few(&[Field::Word("update"), Field::Id(kept.entry.id)]),
        Body::Decision(decision) => few(&[
            Field::Word("decision"),
            Field::Pair(decision.group, decision.turn),
        ]),
        Body::NoDecision { number, .. } => numbered("nodecision", *number),
        Body::Election { number, .. } => numbered("election", *number),
        Body::Promise { number, .. } => numbered("promise", *number),
        Body::Ask(_) => few(&[Field::Word("ask")]),
        Body::State { position, .. } => numbered("state", *position),
        Body::Sync { .. } => few(&[Field::Word("sync")]),
    }
}
