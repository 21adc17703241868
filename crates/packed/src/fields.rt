// The parts that packed records are made of. Each is taken off the front of some bytes.
ghost use Rattle.std.specs.Prelude.{◌≡◌};
ghost use Rattle.packed_layout.specs.Codec.{number, within};
ghost use Rattle.packed_layout.specs.Records.{header};
ghost use Rattle.packed_layout.specs.Layout.{name, import_record, target_of, count};
ghost use Rattle.packed.specs.Views.{taken, taken_as, cut, heading};

use packed_layout::codes::Coded;
use packed_layout::numbers::Number;
use packed_layout::sizes::{LONGEST_NAME, MOST_IMPORTS, UNRESOLVED};
use rows::ImportRecord;

// What stands before a payload.
#[derive(Clone, Copy)]
pub struct Header {
    pub size: u32,
    pub kind: u16,
}

// A number of `W` bytes.
pub(crate) fn take_number<T: Number<W>, const W: usize>(bytes: &[u8]) -> Option<(T, &[u8])>
    ensures { taken_as T.number result ≡ (number W).read bytes.now }
{
    let (first, rest) = bytes.split_first_chunk()?;
    Some((T::from_bytes(first), rest))
}

// A value of one byte.
pub(crate) fn take_coded<T: Coded>(bytes: &[u8]) -> Option<(T, &[u8])>
    ensures { taken result ≡ T.packed.read bytes.now }
{
    let (byte, rest) = take_number(bytes)?;
    Some((T::from_code(byte)?, rest))
}

// A number of two bytes within two limits.
fn take_within(bytes: &[u8], low: u16, high: u16) -> Option<(u16, &[u8])>
    ensures { taken result ≡ (within 2 low high).read bytes.now }
{
    let (n, rest) = take_number(bytes)?;
    (low..=high).contains(&n).then_some((n, rest))
}

// The size and the kind of a record.
pub(crate) fn take_header(bytes: &[u8]) -> Option<(Header, &[u8])>
    ensures { heading result ≡ header.read bytes.now }
{
    // The header's six bytes stand here by name, as docs/FORMAT.md lays them out; two numbers taken in turn would hide them.
    let [l0, l1, l2, l3, k0, k1, rest @ ..] = bytes else {
        return None;
    };
    let size = u32::from_bytes(&[*l0, *l1, *l2, *l3]);
    let kind = u16::from_bytes(&[*k0, *k1]);
    Some((Header { size, kind }, rest))
}

// A length of 1 to 1,024, and as many bytes.
pub(crate) fn take_name(bytes: &[u8]) -> Option<(&[u8], &[u8])>
    ensures { cut result ≡ name.read bytes.now }
{
    let (len, rest) = take_within(bytes, 1, LONGEST_NAME)?;
    rest.split_at_checked(usize::from(len))
}

// The number of import records, at most 1,024.
pub(crate) fn take_count(bytes: &[u8]) -> Option<(u16, &[u8])>
    ensures { taken result ≡ count.read bytes.now }
{
    take_within(bytes, 0, MOST_IMPORTS)
}

fn target_of(code: u16) -> Option<u16>
    ensures { result ≡ target_of code }
{
    (code != UNRESOLVED).then_some(code)
}

// A kind of import and its target.
pub fn take_import(bytes: &[u8]) -> Option<(ImportRecord, &[u8])>
    ensures { taken result ≡ import_record.read bytes.now }
{
    let (kind, rest) = take_coded(bytes)?;
    let (target, rest) = take_number(rest)?;
    let target = target_of(target);
    Some((ImportRecord { kind, target }, rest))
}
