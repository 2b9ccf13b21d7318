//! Reads rows from standard input, each a kind, words and a text, and writes each row and, behind it, what the public call of
//! its kind gave for it: the facts of streams, schemas, documents, sets, queries, requests, configurations and scripts.
#![tactic(auto)]

mod desk;
mod documents;
mod marks;
mod queries;
mod requests;
mod scripts;
mod sets;
mod streams;
mod trees;

use desk::Desk;
use std::io::{self, BufRead, BufReader, BufWriter, Write};
use std::test::Fail;

fn main(rt: HostRuntime) -> Result<(), Fail> {
    let alloc = rt.alloc();
    let lines = BufReader::new(alloc, rt.reader())?.lines(alloc);
    let mut out = BufWriter::new(alloc, io::writer(&rt))?;
    let mut desk = Desk::new(alloc)?;
    for row in lines {
        let row = row?;
        let told = desk.take(row.as_str())?;
        writeln!(out, "{row}{told}")?;
    }
    out.flush()?;
    Ok(())
}
