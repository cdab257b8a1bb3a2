//! Lines of text: fields parted by one space, each a word, numbers or bytes.

ghost use Rattle.std.specs.Prelude.{◌≡◌, ◌<◌, ◌+◌, ◌++◌, ◌∷◌, [], map, length, false};
ghost use Rattle.std.specs.List.{flat_map};
ghost use Rattle.std.specs.Fmt.{decimal, digit_glyph};
ghost use Rattle.tw_machine.specs.Grammar.{hex_word};
ghost use Rattle.tw_machine.specs.RowText.{line_of, dotted, id_text};
ghost use Rattle.schedule_text.specs.Puts.{Puts};
ghost use Rattle.schedule_text.specs.LineFields.{field_text, spaced, two_digits};

use crate::output::write_all;
use itoa::Buffer;
use tw_io::{Sink, WriteFailed};
use tw_types::UpdateId;

/// A field of a line.
#[derive(Clone, Copy, Default)]
pub enum Field<'a> {
    /// The plus that a line after a row's first begins with.
    #[default]
    Plus,
    Word(&'static str),
    /// A number in decimal digits.
    Number(u64),
    /// The sum of two numbers, which may have no room in one of them.
    Sum(u64, u64),
    /// Two numbers with a point between.
    Pair(u64, u64),
    /// The three numbers of an update, with points between.
    Id(UpdateId),
    /// Two hexadecimal digits a byte, or a minus for no byte.
    Bytes(&'a [u8]),
}

fn put_bytes<K: Sink>(sink: &mut K, bytes: &[u8]) -> Result<(), WriteFailed>
    ensures { Puts (K.taken sink.old) (K.taken sink.new) (K.faults sink.old) (K.faults sink.new) result bytes.now }
{
    write_all(sink, bytes)
}

fn put_number<K: Sink>(sink: &mut K, number: u64) -> Result<(), WriteFailed>
    ensures { Puts (K.taken sink.old) (K.taken sink.new) (K.faults sink.old) (K.faults sink.new) result (decimal number) }
{
    let mut buffer = Buffer::new();
    put_bytes(sink, buffer.format(number).as_bytes())
}

fn put_sum<K: Sink>(sink: &mut K, a: u64, b: u64) -> Result<(), WriteFailed>
    ensures { Puts (K.taken sink.old) (K.taken sink.new) (K.faults sink.old) (K.faults sink.new) result (decimal (a + b)) }
{
    let mut buffer = Buffer::new();
    put_bytes(
        sink,
        buffer.format(u128::from(a) + u128::from(b)).as_bytes(),
    )
}

fn put_pair<K: Sink>(sink: &mut K, first: u64, second: u64) -> Result<(), WriteFailed>
    ensures { Puts (K.taken sink.old) (K.taken sink.new) (K.faults sink.old) (K.faults sink.new) result (dotted (decimal first) (decimal second)) }
{
    put_number(sink, first)?;
    put_bytes(sink, b".")?;
    put_number(sink, second)
}

fn put_id<K: Sink>(sink: &mut K, who: u64, incarnation: u64, seq: u64) -> Result<(), WriteFailed>
    ensures { Puts (K.taken sink.old) (K.taken sink.new) (K.faults sink.old) (K.faults sink.new) result (dotted (decimal who) (dotted (decimal incarnation) (decimal seq))) }
{
    put_number(sink, who)?;
    put_bytes(sink, b".")?;
    put_pair(sink, incarnation, seq)
}

fn hex_digit(n: u8) -> u8
    requires { n < 16 }
    ensures { result ≡ digit_glyph false n }
{
    if n < 10 { b'0' + n } else { b'a' + (n - 10) }
}

fn put_digits<K: Sink>(sink: &mut K, bytes: &[u8]) -> Result<(), WriteFailed>
    ensures { Puts (K.taken sink.old) (K.taken sink.new) (K.faults sink.old) (K.faults sink.new) result (flat_map two_digits bytes.now) }
{
    for byte in bytes {
        put_bytes(sink, &[hex_digit(*byte / 16), hex_digit(*byte % 16)])?;
    }
    Ok(())
}

fn put_hex<K: Sink>(sink: &mut K, bytes: &[u8]) -> Result<(), WriteFailed>
    ensures { Puts (K.taken sink.old) (K.taken sink.new) (K.faults sink.old) (K.faults sink.new) result (hex_word bytes.now) }
{
    if bytes.is_empty() {
        put_bytes(sink, b"-")
    } else {
        put_digits(sink, bytes)
    }
}

fn put_field<K: Sink>(sink: &mut K, field: &Field<'_>) -> Result<(), WriteFailed>
    ensures { Puts (K.taken sink.old) (K.taken sink.new) (K.faults sink.old) (K.faults sink.new) result (field_text field.now) }
{
    match *field {
        Field::Plus => put_bytes(sink, b"+"),
        Field::Word(word) => put_bytes(sink, word.as_bytes()),
        Field::Number(number) => put_number(sink, number),
        Field::Sum(a, b) => put_sum(sink, a, b),
        Field::Pair(first, second) => put_pair(sink, first, second),
        Field::Id(id) => put_id(sink, u64::from(id.who), id.incarnation, u64::from(id.seq)),
        Field::Bytes(bytes) => put_hex(sink, bytes),
    }
}

fn put_spaced<K: Sink>(sink: &mut K, field: &Field<'_>) -> Result<(), WriteFailed>
    ensures { Puts (K.taken sink.old) (K.taken sink.new) (K.faults sink.old) (K.faults sink.new) result (spaced field.now) }
{
    put_bytes(sink, b" ")?;
    put_field(sink, field)
}

/// Writes each of the fields behind a space.
fn put_fields<K: Sink>(sink: &mut K, fields: &[Field<'_>]) -> Result<(), WriteFailed>
    ensures { Puts (K.taken sink.old) (K.taken sink.new) (K.faults sink.old) (K.faults sink.new) result (flat_map spaced fields.now) }
{
    for field in fields {
        put_spaced(sink, field)?;
    }
    Ok(())
}

/// Writes a line of the fields, first those of `front`, which has at least one, and then those of `back`. An `Err` leaves a
/// front of the line written.
pub fn put_line<K: Sink>(
    sink: &mut K,
    front: &[Field<'_>],
    back: &[Field<'_>],
) -> Result<(), WriteFailed>
    requires { 0 < length front.now }
    ensures { Puts (K.taken sink.old) (K.taken sink.new) (K.faults sink.old) (K.faults sink.new) result (line_of (map field_text (front.now ++ back.now))) }
{
    put_field(sink, &front[0])?;
    put_fields(sink, &front[1..])?;
    put_fields(sink, back)?;
    put_bytes(sink, b"\n")
}
