// Reading a packed record where it lies.
ghost use Rattle.std.specs.Prelude.{◌≡◌};
ghost use Rattle.std.specs.Option.{option_map};
ghost use Rattle.packed_layout.specs.Codec.{read_whole};
ghost use Rattle.packed_layout.specs.Records.{first_record};
ghost use Rattle.packed_layout.specs.Layout.{head, row, rows};
ghost use Rattle.packed.specs.Views.{headed, outlined, outline, outline_first, outline_at, shown, shown_first, shown_at, sized, read_at};

use crate::fields::{take_coded, take_count, take_header, take_name, take_number};
use crate::view::{Imports, Outline, RowHead, RowView};
use packed_layout::allowed::is_allowed;
use packed_layout::faults::{FaultAt, RecordFault};
use packed_layout::sizes::{HEADER_LEN, LONGEST_PAYLOAD, ROW};
use rows::Facts;

// The fields of a row before its import records.
fn take_head(payload: &[u8]) -> Option<(RowHead<'_>, &[u8])>
    ensures { headed result ≡ head.read payload.now }
{
    let (number, rest) = take_number(payload)?;
    let (sort, rest) = take_coded(rest)?;
    let (flags, rest) = take_coded(rest)?;
    let (exports, rest) = take_coded(rest)?;
    let (mark, rest) = take_number(rest)?;
    let (id, rest) = take_name(rest)?;
    let (stable_id, rest) = take_name(rest)?;
    let facts = Facts {
        sort,
        flags,
        exports,
        mark,
    };
    Some((
        RowHead {
            number,
            facts,
            id,
            stable_id,
        },
        rest,
    ))
}

// The row in a payload, whose import records are not looked at.
fn glance(payload: &[u8]) -> Option<Outline<'_>>
    ensures { option_map outlined result ≡ outline payload.now }
{
    let (head, rest) = take_head(payload)?;
    let (count, imports) = take_count(rest)?;
    Some(Outline {
        head,
        count,
        imports,
    })
}

// The row in a payload.
fn read_row(payload: &[u8]) -> Option<RowView<'_>>
    ensures { option_map shown result ≡ read_whole row payload.now }
{
    let outline = glance(payload)?;
    if !is_allowed(outline.head.facts, usize::from(outline.count)) {
        return None;
    }
    let imports = Imports::read(outline.count, outline.imports)?;
    Some(RowView {
        head: outline.head,
        imports,
    })
}

// The record that the bytes begin with: its row, and how many bytes it takes.
fn first_record(bytes: &[u8]) -> Result<(RowView<'_>, usize), RecordFault>
    ensures { shown_first result ≡ sized (first_record rows bytes.now) }
{
    let (header, rest) = take_header(bytes).ok_or(RecordFault::EndsInside)?;
    // The casts here and below are no plainer as `usize::try_from`, whose error no size can give.
    let size = header.size as usize;
    let (payload, _) = rest.split_at_checked(size).ok_or(RecordFault::EndsInside)?;
    if header.kind != ROW {
        return Err(RecordFault::UnknownKind);
    }
    if size > LONGEST_PAYLOAD {
        return Err(RecordFault::BrokenLayout);
    }
    let row = read_row(payload).ok_or(RecordFault::BrokenLayout)?;
    Ok((row, HEADER_LEN + size))
}

// The record at an offset: its row and where the next one begins, or nothing at the end.
pub fn read_record(bytes: &[u8], offset: usize) -> Result<Option<(RowView<'_>, usize)>, FaultAt>
    ensures { shown_at offset result ≡ read_at bytes.now offset }
{
    if offset >= bytes.len() {
        return Ok(None);
    }
    let (row, size) = first_record(&bytes[offset..]).map_err(|fault| FaultAt { fault, offset })?;
    Ok(Some((row, offset + size)))
}

// A glance at the row in the record that the bytes begin with.
fn glance_first(bytes: &[u8]) -> Option<Outline<'_>>
    ensures { option_map outlined result ≡ outline_first bytes.now }
{
    let (header, rest) = take_header(bytes)?;
    let (payload, _) = rest.split_at_checked(header.size as usize)?;
    glance(payload)
}

// The same, of the record at an offset.
pub fn glance_at(bytes: &[u8], offset: usize) -> Option<Outline<'_>>
    ensures { option_map outlined result ≡ outline_at bytes.now offset }
{
    glance_first(bytes.get(offset..)?)
}
