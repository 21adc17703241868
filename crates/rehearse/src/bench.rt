// What a script has built up, and its calls.
use crate::line::Line;
use crate::show::Shown;
use packed_layout::sizes::{HEADER_LEN, LONGEST_PAYLOAD};
use packed_rows::PackedRows;
use packed_rows::list::count_rows;
use packer::Row;
use script::call::{Call, Room, RowLine};
use std::alloc::{AllocError, Global};

const LONGEST_RECORD: usize = HEADER_LEN + LONGEST_PAYLOAD;

#[derive(Drop)]
pub struct Bench {
    heap: Global,
    room: Room,
    // the packed rows since the last call that took them
    collected: Vec<u8>,
    page: Vec<u8>,
}

impl Bench {
    pub(crate) fn new(heap: Global) -> Result<Bench, AllocError> {
        let page = vec![in heap; 0u8; LONGEST_RECORD]?;
        let room = Room {
            rows: 4096,
            records: 65536,
            bytes: 1048576,
        };
        Ok(Bench {
            heap,
            room,
            collected: Vec::new(heap),
            page,
        })
    }

    // Issues a call and prints its answer.
    pub(crate) fn issue(
        &mut self,
        rt: &HostRuntime,
        line: Line<'_>,
        call: Call,
    ) -> anyhow::Result<()> {
        match call {
            Call::Blank => {}
            Call::Room(room) => {
                self.room = room;
                println!(rt; "{}: ok", line.written())?;
            }
            Call::Row(row) => self.add_row(rt, line, &row)?,
            Call::Raw(bytes) => {
                let count = bytes.len();
                self.collected.extend_from_slice(&bytes)?;
                println!(rt; "{}: ok {count}", line.written())?;
            }
            Call::List => self.list(rt, line.written())?,
        }
        Ok(())
    }

    fn add_row(&mut self, rt: &HostRuntime, line: Line<'_>, told: &RowLine) -> anyhow::Result<()> {
        let row = Row {
            number: told.number,
            facts: told.facts,
            id: told.id.as_slice(),
            stable_id: told.stable_id.as_slice(),
            records: told.records.as_slice(),
        };
        match row.pack(&mut self.page) {
            Ok(len) => {
                self.collected.extend_from_slice(&self.page[..len])?;
                println!(rt; "{}: ok {len}", line.written())?;
            }
            Err(fault) => println!(rt; "line {}: {fault}", line.number)?,
        }
        Ok(())
    }

    // Reads the rows that were collected, and shows each.
    fn list(&mut self, rt: &HostRuntime, written: &str) -> anyhow::Result<()> {
        match count_rows(&self.collected) {
            Ok(count) => {
                println!(rt; "{written}: ok {count}")?;
                let places = Vec::with_capacity(self.heap, count)?;
                show_list(rt, &self.collected, places)?;
            }
            Err(fault) => println!(rt; "{written}: {fault}")?,
        }
        self.collected.clear();
        Ok(())
    }
}

fn show_list(rt: &HostRuntime, bytes: &[u8], places: Vec<usize>) -> anyhow::Result<()> {
    if let Ok(rows) = PackedRows::open(bytes, places) {
        for (_, row) in rows.entries() {
            println!(rt; "  {}", Shown(row))?;
        }
    }
    Ok(())
}
