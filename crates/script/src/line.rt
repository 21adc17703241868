// Reading a line of a script.
ghost use Rattle.std.specs.Prelude.{◌≡◌, length, MatchResult};
ghost use Rattle.script.specs.Lines.{having, settings, ending, list, room_line, row_line, raw_line, line_of};
ghost use Rattle.script.specs.Parsed.{row_in, meaning, Reads};
ghost use Rattle.script.specs.declared.call.LineFault.TheVariants.{Memory};

use crate::bytes::{bytes_of, hex_of};
use crate::call::{Call, LineFault, Room, RowLine};
use crate::numbers::{number_of, short_of};
use crate::setting::{Setting, setting_of};
use crate::words::Words;
use rows::{ExportsKind, Facts, Sort};
use std::alloc::Global;

impl RowLine {
    // Sets one thing; an import record follows those before it.
    fn set(&mut self, setting: Setting) -> Result<(), LineFault>
        ensures row { MatchResult result (λ _. row_in self.new ≡ having (row_in self.old) setting) (λ f. f ≡ Memory) }
        ensures number { self.new.number ≡ self.old.number }
    {
        match setting {
            Setting::Outside => self.facts.sort = Sort::External,
            Setting::SelfAccepting => self.facts.flags.self_accepting = true,
            Setting::LazyExport => self.facts.flags.lazy_export = true,
            Setting::Entry => self.facts.flags.entry = true,
            Setting::Esm => self.facts.exports = ExportsKind::Esm,
            Setting::CommonJs => self.facts.exports = ExportsKind::CommonJs,
            Setting::Mark(mark) => self.facts.mark = mark,
            Setting::Link(record) => self.records.push(record)?,
        }
        Ok(())
    }

    // Sets what each of the words says.
    fn set_all(&mut self, words: Words<'_>) -> Result<(), LineFault>
        ensures row { Reads (λ _. row_in self.new) result (settings (length words.entry.rest.now) (row_in self.old) words.entry.rest.now) }
        ensures number { self.new.number ≡ self.old.number }
    {
        for word in words {
            self.set(setting_of(word).ok_or(LineFault::UnknownSetting)?)?;
        }
        Ok(())
    }
}

// What the words after `room` tell, and below those after `row`, `raw` and `list`.
fn room_line(mut words: Words<'_>) -> Result<Call, LineFault>
    ensures { Reads meaning result (room_line words.entry.rest.now) }
{
    let room = Room {
        rows: number_of(words.next_word()?)?,
        records: number_of(words.next_word()?)?,
        bytes: number_of(words.next_word()?)?,
    };
    words.end()?;
    Ok(Call::Room(room))
}

fn row_line(heap: Global, mut words: Words<'_>) -> Result<Call, LineFault>
    ensures { Reads meaning result (row_line words.entry.rest.now) }
{
    let mut row = RowLine {
        number: short_of(words.next_word()?)?,
        // A line may tell no more than a row's number and its names.
        facts: Facts::default(),
        id: bytes_of(heap, words.next_word()?)?,
        stable_id: bytes_of(heap, words.next_word()?)?,
        records: Vec::new(heap),
    };
    row.set_all(words)?;
    Ok(Call::Row(row))
}

fn raw_line(heap: Global, mut words: Words<'_>) -> Result<Call, LineFault>
    ensures { Reads meaning result (raw_line words.entry.rest.now) }
{
    let bytes = hex_of(heap, words.next_word()?)?;
    words.end()?;
    Ok(Call::Raw(bytes))
}

fn list_line(words: Words<'_>) -> Result<Call, LineFault>
    ensures { Reads meaning result (ending list words.entry.rest.now) }
{
    words.end()?;
    Ok(Call::List)
}

// What a line of the script asks for.
pub fn parse_line(heap: Global, line: &[u8]) -> Result<Call, LineFault>
    ensures { Reads meaning result (line_of line.now) }
{
    let mut words = Words { rest: line };
    let Some(name) = words.next() else {
        return Ok(Call::Blank);
    };
    match name {
        b"room" => room_line(words),
        b"row" => row_line(heap, words),
        b"raw" => raw_line(heap, words),
        b"list" => list_line(words),
        _ => Err(LineFault::UnknownCall),
    }
}
