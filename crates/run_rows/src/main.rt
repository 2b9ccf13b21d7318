//! Reads inputs from standard input, each below a heading with a command, and writes below the same headings what they give: the
//! worked rows of whole runs, of summaries, counts and made scripts.
#![tactic(auto)]

mod running;

use running::told;
use std::io;
use std::io::{BufReader, Read};

fn main(rt: HostRuntime) -> io::Result<()> {
    let alloc = rt.alloc();
    let mut all = String::new(alloc);
    BufReader::new(alloc, rt.reader())?.read_to_string(&mut all)?;
    for row in all.split("==== ") {
        let Some((command, input)) = row.split_once('\n') else {
            continue;
        };
        match told(&rt, alloc, command, input) {
            Ok(text) => {
                let text = text.get();
                print!(rt; "==== {command}\n{text}")?;
            }
            Err(_) => return Err(io::Error::from(io::ErrorKind::OutOfMemory)),
        }
    }
    Ok(())
}
