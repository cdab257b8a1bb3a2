//! Ids of updates and entries of lists.

ghost use Rattle.std.specs.Prelude.{◌≡◌, ◌+◌, ◌<◌, ◌≤◌, ◌^◌};
ghost use Rattle.std.proofs.Common.{rules};
ghost use Rattle.tw_types.specs.Spelling.{id_bytes, class_of, entry_bytes};
ghost use Rattle.wire_head.specs.Writing.{Writes};
ghost use Rattle.wire_body.specs.Entries.{id_at, order_from, atom_from, is_class, entry_at};
ghost use Rattle.wire_body.specs.Decisions.{window_entry_at};

use crate::items::Item;
use tw_types::{Atom, Entry, Order, UpdateId, WireFault};
use wire_head::reading::{byte_at, byte_below, count_at, u32_at, where_allowed};
use wire_head::writing::{put_byte, put_u32, put_u64};

#[tactic(auto, unfolding(crate::specs::Entries::id_at, wire_head::specs::Reading::checked_at))]
pub fn id_at(n: u8, bytes: &[u8], place: usize) -> Result<UpdateId, WireFault>
    requires { place < 2 ^ 15 }
    ensures { result ≡ id_at n bytes.now place }
{
    let who = byte_below(n, bytes, place)?;
    let incarnation = count_at(bytes, place + 1)?;
    let seq = u32_at(bytes, place + 9)?;
    where_allowed(1 <= seq && seq <= 4_294_967_294, (), place + 9)?;
    Ok(UpdateId {
        who,
        incarnation,
        seq,
    })
}

fn order_from(number: u8) -> Order
    ensures { result ≡ order_from number }
{
    match number {
        0 => Order::Unordered,
        1 => Order::Total,
        _ => Order::Timed,
    }
}

fn atom_from(number: u8) -> Atom
    ensures { result ≡ atom_from number }
{
    match number {
        0 => Atom::Weak,
        1 => Atom::Strong,
        _ => Atom::Strict,
    }
}

fn is_class(may_be_late: bool, class: u8) -> bool
    ensures { result ≡ is_class may_be_late class }
{
    class <= 8 || may_be_late && 22 <= class && class <= 24
}

/// An entry at a place. Only where it may be late its class may be greater by 16, and then it is timed.
#[tactic(auto, unfolding(crate::specs::Entries::entry_at, wire_head::specs::Reading::checked_at))]
pub fn entry_at(n: u8, may_be_late: bool, bytes: &[u8], place: usize) -> Result<Entry, WireFault>
    requires { place < 2 ^ 15 }
    ensures { result ≡ entry_at n may_be_late bytes.now place }
{
    let id = id_at(n, bytes, place)?;
    let class = byte_at(bytes, place + 13)?;
    where_allowed(is_class(may_be_late, class), (), place + 13)?;
    let stamp = count_at(bytes, place + 14)?;
    Ok(Entry {
        id,
        order: order_from(class % 16 / 3),
        atom: atom_from(class % 16 % 3),
        stamp,
        late: class >= 16,
    })
}

pub fn put_id(out: &mut [u8; 4096], place: usize, id: &UpdateId) -> usize
    requires { place + 13 ≤ 4096 }
    ensures end { result ≡ place + 13 }
    ensures text { Writes out.old place (id_bytes id.now) out.new result }
{
    let place = put_byte(out, place, id.who);
    let place = put_u64(out, place, id.incarnation);
    put_u32(out, place, id.seq)
}

/// Order, atomicity and lateness in one number.
fn class_of(entry: &Entry) -> u8
    ensures { result ≡ class_of entry.now }
{
    let order = match entry.order {
        Order::Unordered => 0,
        Order::Total => 1,
        Order::Timed => 2,
    };
    let atom = match entry.atom {
        Atom::Weak => 0,
        Atom::Strong => 1,
        Atom::Strict => 2,
    };
    let late = if entry.late { 16 } else { 0 };
    3 * order + atom + late
}

pub fn put_entry(out: &mut [u8; 4096], place: usize, entry: &Entry) -> usize
    requires { place + 22 ≤ 4096 }
    ensures end { result ≡ place + 22 }
    ensures text { Writes out.old place (entry_bytes entry.now) out.new result }
{
    let place = put_id(out, place, &entry.id);
    let place = put_byte(out, place, class_of(entry));
    put_u64(out, place, entry.stamp)
}

/// An entry of a window, in a team of so many processes.
impl Item for Entry {
    type Rules = u8;

    const SIZE: usize = 22;

    ghost SIZE = { 22 };

    ghost item_at = { window_entry_at };

    ghost item_bytes = { entry_bytes };

    #[tactic(auto, unfolding(crate::specs::Decisions::window_entry_at))]
    fn read(n: &u8, before: &[Entry], bytes: &[u8], place: usize) -> Result<Entry, WireFault> {
        entry_at(*n, true, bytes, place)
    }

    fn put(&self, out: &mut [u8; 4096], place: usize) -> usize {
        put_entry(out, place, self)
    }

    ghost small = { Prim.search rules };
}
