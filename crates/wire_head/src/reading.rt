//! Readers of single fields, each at its place. What they answer is said once for each kind of field, and a reader of
//! several fields answers the first fault from left to right.

ghost use Rattle.std.specs.Prelude.{◌≡◌, ◌+◌, ◌<◌, ◌≤◌, ◌^◌, length, IfOk, OnOk, IsTrue};
ghost use Rattle.std.specs.Int.{w8, w16, w32, w64};
ghost use Rattle.wire_head.specs.Reading.{number_at, where_allowed, checked_at, count_at, positive_at, time_at, byte_to, byte_below, text_at, zeros_at, Gives};
ghost use Rattle.tw_types.specs.declared.datagram.WireFault.TheVariants.{Field};

use tw_types::WireFault;

/// The byte at a place. Short where the bytes end before it.
#[tactic(auto, unfolding(crate::specs::Reading::number_at))]
pub fn byte_at(bytes: &[u8], place: usize) -> Result<u8, WireFault>
    requires { place < 2 ^ 16 }
    ensures { result ≡ number_at w8 bytes.now place }
{
    if bytes.len() < place + 1 {
        return Err(WireFault::Short);
    }
    Ok(bytes[place])
}

/// The number in the two bytes from a place on, the highest byte first. Short where the bytes end within it.
#[tactic(auto, unfolding(crate::specs::Reading::number_at))]
pub fn u16_at(bytes: &[u8], place: usize) -> Result<u16, WireFault>
    requires { place < 2 ^ 16 }
    ensures exact { result ≡ number_at w16 bytes.now place }
    ensures room { OnOk result (place + 2 ≤ length bytes.now) }
{
    if bytes.len() < place + 2 {
        return Err(WireFault::Short);
    }
    let field = &bytes[place..place + 2];
    Ok(u16::from_be_bytes([field[0], field[1]]))
}

/// The number in the four bytes from a place on, the highest byte first. Short where the bytes end within it.
#[tactic(auto, unfolding(crate::specs::Reading::number_at))]
pub fn u32_at(bytes: &[u8], place: usize) -> Result<u32, WireFault>
    requires { place < 2 ^ 16 }
    ensures { result ≡ number_at w32 bytes.now place }
{
    if bytes.len() < place + 4 {
        return Err(WireFault::Short);
    }
    let field = &bytes[place..place + 4];
    Ok(u32::from_be_bytes([field[0], field[1], field[2], field[3]]))
}

/// The number in the eight bytes from a place on, the highest byte first. Short where the bytes end within it.
#[tactic(auto, unfolding(crate::specs::Reading::number_at))]
pub fn u64_at(bytes: &[u8], place: usize) -> Result<u64, WireFault>
    requires { place < 2 ^ 16 }
    ensures { result ≡ number_at w64 bytes.now place }
{
    if bytes.len() < place + 8 {
        return Err(WireFault::Short);
    }
    let field = &bytes[place..place + 8];
    Ok(u64::from_be_bytes([
        field[0], field[1], field[2], field[3], field[4], field[5], field[6], field[7],
    ]))
}

/// The value of a field, or a fault at its place where it isn't allowed.
pub fn where_allowed<T: Drop>(allowed: bool, value: T, place: usize) -> Result<T, WireFault>
    requires { place < 2 ^ 16 }
    ensures exact { result ≡ where_allowed allowed (Field place) value }
    ensures allowed { OnOk result (IsTrue allowed) }
{
    if !allowed {
        return Err(WireFault::Field(place as u16));
    }
    Ok(value)
}

/// A count, a position or a clock's reading: below 2^60.
#[tactic(auto, unfolding(crate::specs::Reading::checked_at))]
pub fn count_at(bytes: &[u8], place: usize) -> Result<u64, WireFault>
    requires { place < 2 ^ 16 }
    ensures { result ≡ count_at bytes.now place }
{
    let count = u64_at(bytes, place)?;
    where_allowed(count < 1 << 60, count, place)
}

/// A count that isn't 0.
#[tactic(auto, unfolding(crate::specs::Reading::checked_at))]
pub fn positive_at(bytes: &[u8], place: usize) -> Result<u64, WireFault>
    requires { place < 2 ^ 16 }
    ensures { result ≡ positive_at bytes.now place }
{
    let count = u64_at(bytes, place)?;
    where_allowed(1 <= count && count < 1 << 60, count, place)
}

/// A team time, in microseconds: below 2^61.
#[tactic(auto, unfolding(crate::specs::Reading::checked_at))]
pub fn time_at(bytes: &[u8], place: usize) -> Result<u64, WireFault>
    requires { place < 2 ^ 16 }
    ensures { result ≡ time_at bytes.now place }
{
    let time = u64_at(bytes, place)?;
    where_allowed(time < 1 << 61, time, place)
}

/// A byte of at most `most`.
#[tactic(auto, unfolding(crate::specs::Reading::checked_at))]
pub fn byte_to(most: u8, bytes: &[u8], place: usize) -> Result<u8, WireFault>
    requires { place < 2 ^ 16 }
    ensures { result ≡ byte_to most bytes.now place }
{
    let byte = byte_at(bytes, place)?;
    where_allowed(byte <= most, byte, place)
}

/// A byte below `limit`.
#[tactic(auto, unfolding(crate::specs::Reading::checked_at))]
pub fn byte_below(limit: u8, bytes: &[u8], place: usize) -> Result<u8, WireFault>
    requires { place < 2 ^ 16 }
    ensures { result ≡ byte_below limit bytes.now place }
{
    let byte = byte_at(bytes, place)?;
    where_allowed(byte < limit, byte, place)
}

/// So many bytes from a place on. Short where fewer are left.
#[tactic(auto, unfolding(crate::specs::Reading::text_at))]
pub fn text_at(count: usize, bytes: &[u8], place: usize) -> Result<&[u8], WireFault>
    requires { place ≤ length bytes.now }
    ensures exact { Gives (λ text. text.now) result (text_at count bytes.now place) }
    ensures size { IfOk result (λ text. length text.now ≡ count) }
{
    let rest = &bytes[place..];
    if rest.len() < count {
        return Err(WireFault::Short);
    }
    Ok(&rest[..count])
}

/// The fields of what is absent: so many of eight bytes, all zero.
#[tactic(auto, unfolding(crate::specs::Reading::checked_at), using(crate::proofs::Zeros::zeros_more, crate::proofs::Zeros::zeros_end))]
pub fn zeros_at(count: u8, bytes: &[u8], place: usize) -> Result<(), WireFault>
    requires { place < 2 ^ 15 }
    ensures { result ≡ zeros_at count bytes.now place }
{
    for i in 0..usize::from(count) {
        let at = place + 8 * i;
        let number = u64_at(bytes, at)?;
        where_allowed(number == 0, (), at)?;
    }
    Ok(())
}
