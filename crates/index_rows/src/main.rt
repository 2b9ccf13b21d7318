//! Reads rows from standard input: steps that build views and searchers, and questions about them. Writes each row and,
//! behind a question, what it is answered.
#![tactic(auto)]

mod asking;
mod desk;
mod door;
mod growing;
mod reading;
mod serving;

use desk::Desk;
use std::io::{self, BufRead, BufReader, BufWriter, Write};
use std::test::Fail;

fn main(rt: HostRuntime) -> Result<(), Fail> {
    let alloc = rt.alloc();
    let mut lines = BufReader::new(alloc, rt.reader())?.lines(alloc);
    let mut out = BufWriter::new(alloc, io::writer(&rt))?;
    let schema = lines.next().ok_or("no schema")??;
    let mut desk = Desk::new(alloc, schema.as_str())?;
    writeln!(out, "{schema}")?;
    for row in lines {
        let row = row?;
        let told = desk.take(&rt, row.as_str())?;
        writeln!(out, "{row}{told}")?;
    }
    out.flush()?;
    Ok(())
}
