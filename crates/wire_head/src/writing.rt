//! Writers of single fields, each at its place. Each answers the place behind what it wrote, and leaves all else as it was.

ghost use Rattle.std.specs.Prelude.{◌≡◌, ◌+◌, ◌*◌, ◌≤◌, [], ◌∷◌, length};
ghost use Rattle.tw_types.specs.Bytes.{one, two, four, eight, zeros, fields};
ghost use Rattle.wire_head.specs.Writing.{Writes};

use byteorder::{BigEndian, ByteOrder};

/// Writes a byte.
#[tactic(auto, unfolding(tw_types::specs::Bytes::number_bytes))]
pub fn put_byte(out: &mut [u8; 4096], place: usize, byte: u8) -> usize
    requires { place + 1 ≤ 4096 }
    ensures end { result ≡ place + 1 }
    ensures text { Writes out.old place (one byte) out.new result }
{
    out[place] = byte;
    place + 1
}

/// Writes a number in two bytes, the highest first.
#[tactic(auto, unfolding(tw_types::specs::Bytes::number_bytes))]
pub fn put_u16(out: &mut [u8; 4096], place: usize, number: u16) -> usize
    requires { place + 2 ≤ 4096 }
    ensures end { result ≡ place + 2 }
    ensures text { Writes out.old place (two number) out.new result }
{
    BigEndian::write_u16(&mut out[place..place + 2], number);
    place + 2
}

/// Writes a number in four bytes, the highest first.
#[tactic(auto, unfolding(tw_types::specs::Bytes::number_bytes))]
pub fn put_u32(out: &mut [u8; 4096], place: usize, number: u32) -> usize
    requires { place + 4 ≤ 4096 }
    ensures end { result ≡ place + 4 }
    ensures text { Writes out.old place (four number) out.new result }
{
    BigEndian::write_u32(&mut out[place..place + 4], number);
    place + 4
}

/// Writes a number in eight bytes, the highest first.
#[tactic(auto, unfolding(tw_types::specs::Bytes::number_bytes))]
pub fn put_u64(out: &mut [u8; 4096], place: usize, number: u64) -> usize
    requires { place + 8 ≤ 4096 }
    ensures end { result ≡ place + 8 }
    ensures text { Writes out.old place (eight number) out.new result }
{
    BigEndian::write_u64(&mut out[place..place + 8], number);
    place + 8
}

/// Writes a text as it stands.
pub fn put_text(out: &mut [u8; 4096], place: usize, text: &[u8]) -> usize
    requires { place + length text.now ≤ 4096 }
    ensures end { result ≡ place + length text.now }
    ensures text { Writes out.old place text.now out.new result }
{
    let end = place + text.len();
    out[place..end].copy_from_slice(text);
    end
}

/// Writes two numbers in eight bytes each.
pub fn put_two(out: &mut [u8; 4096], place: usize, first: u64, second: u64) -> usize
    requires { place + 16 ≤ 4096 }
    ensures end { result ≡ place + 16 }
    ensures text { Writes out.old place (fields (eight first ∷ eight second ∷ [])) out.new result }
{
    let place = put_u64(out, place, first);
    put_u64(out, place, second)
}

/// Writes so many fields of eight bytes that are zero.
#[tactic(auto, using(crate::proofs::Zeros::written_none))]
pub fn put_zeros(out: &mut [u8; 4096], place: usize, count: u8) -> usize
    requires { place + 8 * count ≤ 4096 }
    ensures end { result ≡ place + 8 * count }
    ensures text { Writes out.old place (zeros count) out.new result }
{
    let mut end = place;
    for _ in 0..count {
        end = put_u64(out, end, 0);
    }
    end
}
