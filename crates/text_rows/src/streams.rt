//! Sources and sinks.
use crate::desk::{Row, first_word};
use rt_edge::{MemSink, MemSource, Reading, Sink, Source, Writing};
use std::alloc::Global;
use std::io;
use std::io::{Read, Write};
use std::test::Fail;

// What a row of these kinds is answered. A source's words are the room of each read, a sink's how often each part of the
// text, between bars, is written; behind these stand the piece and the calls that fail, and the room of a sink.
pub(crate) fn tell(alloc: Global, row: Row<'_>) -> Result<Option<String>, Fail> {
    let text = row.text;
    let (first, rest) = first_word(row.words);
    Ok(Some(match row.kind.as_bytes() {
        b"source" => tell_source(alloc, first, rest, text)?,
        b"sink" => tell_sink(alloc, first.parse::<u32>()?, rest, text)?,
        b"reading" => {
            let drip = Drip::new(text.as_bytes().to_vec(alloc)?, rest.parse::<u32>()?);
            tell_reads(alloc, &mut Reading::new(drip), first)?
        }
        b"writing" => {
            let mut drip = Drip::new(Vec::new(alloc), rest.parse::<u32>()?);
            let told = tell_writes(
                alloc,
                &mut Writing::new(&mut drip),
                first.parse::<u32>()?,
                text,
            )?;
            held(alloc, told.as_str(), drip.bytes.as_slice())?
        }
        _ => return Ok(None),
    }))
}

// The numbers between commas.
fn numbers_of(alloc: Global, words: &str) -> Result<Vec<u32>, Fail> {
    let mut numbers = Vec::new(alloc);
    for word in words.split(',') {
        if !word.is_empty() {
            numbers.push(word.parse::<u32>()?)?;
        }
    }
    Ok(numbers)
}

// What each read of a source gives, by the room that it has.
fn tell_reads<S: Source>(alloc: Global, source: &mut S, rooms: &str) -> Result<String, Fail> {
    let mut told = String::new(alloc);
    for room in numbers_of(alloc, rooms)?.as_slice() {
        let mut into = vec![in alloc; b'.'; *room as usize]?;
        if into.is_empty() {
            return Err(Fail::new("no room"));
        }
        match source.read(&mut into) {
            Ok(count) => {
                let text = std::str::from_utf8(&into[..count])?;
                told.push_str(format!(in alloc; "({text})")?.as_str())?;
            }
            Err(_) => told.push_str("failed")?,
        }
        told.push_str(" ")?;
    }
    Ok(String::from_str(alloc, told.as_str().trim_end())?)
}

fn tell_source(alloc: Global, rooms: &str, words: &str, text: &str) -> Result<String, Fail> {
    let (piece, fails) = first_word(words);
    let piece = piece.parse::<u32>()?;
    if piece == 0 {
        return Err(Fail::new("no piece"));
    }
    let bytes = text.as_bytes().to_vec(alloc)?;
    let mut source = MemSource::new(bytes, piece, numbers_of(alloc, fails)?);
    tell_reads(alloc, &mut source, rooms)
}

// What so many writes of a line take, each going on behind what was taken, and what the flush gives.
fn tell_line<S: Sink>(
    alloc: Global,
    sink: &mut S,
    count: u32,
    line: &[u8],
    told: &mut String,
) -> Result<(), Fail> {
    let mut at = 0;
    for _ in 0..count {
        if at >= line.len() {
            return Err(Fail::new("no more to write"));
        }
        match sink.write(&line[at..]) {
            Ok(taken) => {
                told.push_str(format!(in alloc; "{taken} ")?.as_str())?;
                at += taken;
            }
            Err(_) => told.push_str("failed ")?,
        }
    }
    told.push_str(match sink.flush() {
        Ok(()) => "flushed ",
        Err(_) => "unflushed ",
    })?;
    Ok(())
}

fn tell_writes<S: Sink>(
    alloc: Global,
    sink: &mut S,
    count: u32,
    text: &str,
) -> Result<String, Fail> {
    let mut told = String::new(alloc);
    for line in text.split('|') {
        tell_line(alloc, sink, count, line.as_bytes(), &mut told)?;
    }
    Ok(told)
}

// What was told, and the bytes that are then held.
fn held(alloc: Global, told: &str, bytes: &[u8]) -> Result<String, Fail> {
    let text = std::str::from_utf8(bytes)?;
    Ok(format!(in alloc; "{told}({text})")?)
}

fn tell_sink(alloc: Global, count: u32, words: &str, text: &str) -> Result<String, Fail> {
    let (room, words) = first_word(words);
    let (piece, fails) = first_word(words);
    let (room, piece) = (room.parse::<u32>()?, piece.parse::<u32>()?);
    if piece == 0 {
        return Err(Fail::new("no piece"));
    }
    let mut sink = MemSink::new(alloc, room, piece, numbers_of(alloc, fails)?)?;
    let told = tell_writes(alloc, &mut sink, count, text)?;
    held(alloc, told.as_str(), sink.bytes())
}

// A stream of std that gives or takes a byte a call, and fails at one call, a flush among them.
#[derive(Drop)]
struct Drip {
    bytes: Vec<u8>,
    at: usize,
    calls: u32,
    fails_at: u32,
}

impl Drip {
    fn new(bytes: Vec<u8>, fails_at: u32) -> Drip {
        Drip {
            bytes,
            at: 0,
            calls: 0,
            fails_at,
        }
    }

    // Counts a call, and fails where it is the one that is to.
    fn call(&mut self) -> io::Result<()> {
        let call = self.calls;
        self.calls = self.calls.saturating_add(1);
        if call == self.fails_at {
            return Err(io::Error::from(io::ErrorKind::Interrupted));
        }
        Ok(())
    }
}

impl Read for Drip {
    fn read(&mut self, buf: &mut [u8]) -> io::Result<usize> {
        self.call()?;
        let Some(&byte) = self.bytes.get(self.at) else {
            return Ok(0);
        };
        let Some(room) = buf.first_mut() else {
            return Ok(0);
        };
        *room = byte;
        self.at += 1;
        Ok(1)
    }
}

impl Write for Drip {
    fn write(&mut self, buf: &[u8]) -> io::Result<usize> {
        self.call()?;
        match buf.first() {
            Some(&byte) if self.bytes.len() < 3 && self.bytes.push(byte).is_ok() => Ok(1),
            _ => Ok(0),
        }
    }

    fn flush(&mut self) -> io::Result<()> {
        self.call()
    }
}
