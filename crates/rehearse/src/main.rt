// Rehearses a script: reads calls from standard input, a line each, and prints what each answers.
#![tactic(auto)]

mod bench;
mod line;
mod show;

use bench::Bench;
use line::Line;
use script::line::parse_line;
use std::io::{BufRead, BufReader};

fn rehearse_line(rt: &HostRuntime, bench: &mut Bench, line: Line<'_>) -> anyhow::Result<()> {
    match parse_line(rt.alloc(), line.text.as_bytes()) {
        Ok(call) => bench.issue(rt, line, call)?,
        Err(fault) => println!(rt; "line {}: {fault}", line.number)?,
    }
    Ok(())
}

fn rehearse(rt: &HostRuntime) -> anyhow::Result<()> {
    let heap = rt.alloc();
    let mut bench = Bench::new(heap)?;
    for (number, text) in (1u64..).zip(BufReader::new(heap, rt.stdin())?.lines(heap)) {
        let text = text?;
        let line = Line {
            number,
            text: text.as_str(),
        };
        rehearse_line(rt, &mut bench, line)?;
    }
    Ok(())
}

fn main(rt: HostRuntime) -> anyhow::Result<()> {
    rehearse(&rt)
}
