//! Reads rows from standard input: makers of caches, calls of their seats, and questions. Writes each row and, behind a call
//! or a question, what it is answered.
#![tactic(auto)]

mod desk;
mod filters;
mod numbers;
mod results;
mod seats;

use desk::Desk;
use std::io::{self, BufRead, BufReader, BufWriter, Write};
use std::test::Fail;

fn main(rt: HostRuntime) -> Result<(), Fail> {
    let alloc = rt.alloc();
    let mut lines = BufReader::new(alloc, rt.reader())?.lines(alloc);
    let mut out = BufWriter::new(alloc, io::writer(&rt))?;
    let schema = lines.next().ok_or("no schema")??;
    let mut desk = Desk::new(alloc, schema.as_str())?;
    writeln!(out, "{schema}")?;
    for row in lines {
        let row = row?;
        let told = desk.take(row.as_str())?;
        writeln!(out, "{row}{told}")?;
    }
    out.flush()?;
    Ok(())
}
