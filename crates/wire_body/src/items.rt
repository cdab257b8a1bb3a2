//! Lists of items that have one size: one reader and one writer for all of them.

ghost use Rattle.std.specs.Prelude.{◌≡◌, ◌+◌, ◌*◌, ◌<◌, ◌≤◌, ◌^◌, length};
ghost use Rattle.std.specs.List.{flat_map};
ghost use Rattle.std.specs.Int.{w8};
ghost use Rattle.tw_types.specs.Bytes.{presence, counted};
ghost use Rattle.wire_head.specs.Writing.{Writes};
ghost use Rattle.wire_body.specs.Lists.{list_at, Leaves};

use arrayvec::ArrayVec;
use tw_types::WireFault;
use wire_head::writing::put_byte;

/// An item of a list in a datagram.
pub trait Item: Copy + Default {
    ghost use Rattle.std.specs.Prelude.{◌≡◌, ◌+◌, ◌<◌, ◌≤◌, ◌^◌, ℕ, List, Result};
    ghost use Rattle.tw_types.specs.declared.datagram.WireFault.{WireFault};
    ghost use Rattle.wire_head.specs.Writing.{Writes};

    /// What decides which values are allowed, beside the items before.
    type Rules;

    /// The bytes of an item.
    const SIZE: usize;

    ghost SIZE: { ℕ };

    ghost item_at: { Self.Rules → List Self → List ℕ → ℕ → Result Self WireFault };

    ghost item_bytes: { Self → List ℕ };

    /// The item at a place, which stands behind these in its list.
    fn read(
        rules: &Self::Rules,
        before: &[Self],
        bytes: &[u8],
        place: usize,
    ) -> Result<Self, WireFault>
        requires { place < 2 ^ 14 }
        ensures { result ≡ item_at rules.now before.now bytes.now place };

    /// Writes the item, and answers the place behind it.
    fn put(&self, out: &mut [u8; 4096], place: usize) -> usize
        requires { place + SIZE ≤ 4096 }
        ensures end { result ≡ place + SIZE }
        ensures text { Writes out.old place (item_bytes self.now) out.new result };

    ghost small: { SIZE < 64 };
}

/// Makes a list so many items, one after the other, in place of those that it held. Each is tested where it is read, with
/// those before it at hand.
#[tactic(auto, using(crate::proofs::Rows::items_more, crate::proofs::Rows::items_end))]
pub fn fill_items<T: Item, const N: usize>(
    rules: &T::Rules,
    count: u8,
    bytes: &[u8],
    place: usize,
    items: &mut ArrayVec<T, N>,
) -> Result<(), WireFault>
    requires count { count ≤ N }
    requires place { place + 64 * count < 2 ^ 14 }
    ensures exact { Leaves result items.new.items (list_at T.SIZE (T.item_at rules.now) count bytes.now place) }
{
    items.clear();
    for i in 0..usize::from(count) {
        let item = T::read(rules, items.as_slice(), bytes, place + T::SIZE * i)?;
        items.push(item);
    }
    Ok(())
}

/// Writes items, one after the other.
pub fn put_items<T: Item>(out: &mut [u8; 4096], place: usize, items: &[T]) -> usize
    requires { place + T.SIZE * length items.now ≤ 4096 }
    ensures end { result ≡ place + T.SIZE * length items.now }
    ensures text { Writes out.old place (flat_map T.item_bytes items.now) out.new result }
{
    let mut end = place;
    for item in items {
        end = item.put(out, end);
    }
    end
}

/// Items behind their number, which is written in one byte.
pub fn put_list<T: Item>(out: &mut [u8; 4096], place: usize, items: &[T]) -> usize
    requires size { length items.now ≤ 32 }
    requires room { place + 1 + T.SIZE * length items.now ≤ 4096 }
    ensures end { result ≡ place + 1 + T.SIZE * length items.now }
    ensures text { Writes out.old place (counted w8 (flat_map T.item_bytes) items.now) out.new result }
{
    let place = put_byte(out, place, items.len() as u8);
    put_items(out, place, items)
}

/// 1 for a value that is there, and 0 for none.
pub fn presence<T>(value: &Option<T>) -> u8
    ensures { result ≡ presence value.now }
{
    match value {
        None => 0,
        Some(_) => 1,
    }
}
