ghost use Rattle.std.specs.Prelude.{None};

use super::*;
use rt_edge::{Failed, MemSink, MemSource, Sink};
use std::alloc::Global;
use std::io;
use std::process::Abort;
use std::sync::Wait;
use std::test::Fail;

// A configuration of two fields, and the line behind it.
const TWO_FIELDS: &str =
    "{\"schema\":{\"fields\":[{\"name\":\"id\",\"type\":\"string\"},{\"name\":\"cat\",\"type\":\"string\"}],\"uniqueKey\":\"id\"}}\n%%\n";

// One document that is added, committed and found.
const FOUND: &str = "1 add {\"id\":\"a\",\"cat\":\"x\"}\n1 commit\n1 query q=cat:x\n";

// What a run of it writes.
const FOUND_LINES: &str =
    "{\"client\":1,\"line\":1,\"place\":2,\"reply\":{\"responseHeader\":{\"status\":0}}}
{\"client\":1,\"generation\":2,\"line\":2,\"place\":3,\"reply\":{\"responseHeader\":{\"status\":0}}}
{\"client\":1,\"generation\":2,\"line\":3,\"reply\":{\"response\":{\"docs\":[{\"cat\":\"x\",\"id\":\"a\"}],\"numFound\":1,\"numFoundExact\":true,\"start\":0},\"responseHeader\":{\"status\":0}},\"ticket\":0}
{\"acquired\":1,\"finished\":1,\"generation\":1,\"opened\":0}
{\"acquired\":1,\"finished\":4,\"from\":1,\"fromTicket\":0,\"generation\":2,\"opened\":3}
";

// How a command ended, its line on standard error, and what it wrote.
#[derive(Drop)]
struct Seen {
    code: u8,
    line: Vec<u8>,
    written: Vec<u8>,
}

// Runs these words over an input that comes in pieces and fails at chosen reads, and a sink that does so at writes.
fn see<R: Wait>(
    rt: &R,
    alloc: Global,
    words: &str,
    input: &[u8],
    reads: (u32, &[u32]),
    writes: (u32, &[u32]),
) -> Result<Seen, Fail> {
    let words = split(alloc, words)?;
    let mut source = MemSource::new(input.to_vec(alloc)?, reads.0.max(1), reads.1.to_vec(alloc)?);
    let mut sink = mem_sink(alloc, writes.0, writes.1)?;
    let ran = run_top(rt, alloc, &words, &mut source, &mut sink, &OpenGate);
    let mut error = mem_sink(alloc, 7, &[])?;
    let code = tell_end(&ran.status, &mut error);
    Ok(Seen {
        code,
        line: error.bytes().to_vec(alloc)?,
        written: sink.bytes().to_vec(alloc)?,
    })
}

// A sink that takes so many bytes at a time, and fails at these writes.
fn mem_sink(alloc: Global, piece: u32, fails: &[u32]) -> Result<MemSink, Fail> {
    let fails = fails.to_vec(alloc)?;
    Ok(
        MemSink::new(alloc, 1_000_000, piece.max(1), fails)
            .ok()
            .ok_or("no memory")?,
    )
}

// The words of a command line.
fn split(alloc: Global, line: &str) -> Result<Vec<String>, Fail> {
    let mut words = Vec::new(alloc);
    for word in line.split_whitespace() {
        words.push(String::from_str(alloc, word)?)?;
    }
    Ok(words)
}

// A command ends so, with that line on standard error, and writes that.
fn check(
    rt: &(impl Abort + Wait),
    alloc: Global,
    words: &str,
    input: &[u8],
    want: (u8, &str, &str),
) -> Result<(), Fail> {
    let seen = see(rt, alloc, words, input, (4096, &[]), (4096, &[]))?;
    assert_eq!(rt; seen.code, want.0);
    assert_eq!(rt; &*seen.line, want.1.as_bytes());
    assert_eq!(rt; &*seen.written, want.2.as_bytes());
    Ok(())
}

// Inputs that are refused, the exit code and the line on standard error.
const REFUSED: [(&str, &str, u8, &str); 2] = [
    ("", "1 commit\n", 5, "bad configuration: check 1, %%\n"),
    (TWO_FIELDS, "\n13 commit\n", 6, "bad line 2: BadClient\n"),
];

// The script of the generator for one document.
const MADE: &str =
    "{\"df\":\"t\",\"filterCache\":{\"autowarmCount\":16},\"queryResultCache\":{\"autowarmCount\":16},\"schema\":{\"fields\":[{\"name\":\"id\",\"type\":\"string\"},{\"name\":\"cat\",\"type\":\"string\"},{\"name\":\"price\",\"type\":\"plong\"},{\"name\":\"t\",\"type\":\"text_general\"}],\"uniqueKey\":\"id\"}}
%%
1 add {\"cat\":\"c3\",\"id\":\"d0\",\"price\":758,\"t\":\"w13 item\"}
---
1 commit
1 query q=*:*&rows=0
";

// The summary of its run.
const SUMMARY: &str =
    "{\"commits\":1,\"documentHits\":0,\"documentLookups\":0,\"filterHits\":0,\"filterLookups\":0,\"found\":1,\"queries\":1,\"refused400\":0,\"refused500\":0,\"refused503\":0,\"resultHits\":0,\"resultLookups\":1,\"searchers\":2,\"updates\":1}\n";

// Words, an input, and what is written.
const COMMANDS: [(&str, &str, &str); 4] = [
    ("make 1", "", MADE),
    ("run --summary", MADE, SUMMARY),
    ("drill 1", "", SUMMARY),
    (
        "check",
        MADE,
        "{\"clients\":1,\"lines\":4,\"phases\":2,\"requests\":3}\n",
    ),
];

// Words that are no command.
const NO_COMMANDS: [&str; 18] = [
    "",
    "Run",
    "run run",
    "--",
    "--help",
    "run x",
    "check check",
    "make",
    "make 0",
    "make 20001",
    "make 01",
    "make +5",
    "make x",
    "make 1 2",
    "drill",
    "drill +5",
    "run --summary=x",
    "run --summary --summary",
];

// A byte behind a configuration, and how often, that is too large once more.
const SIZES: [(u8, usize); 2] = [(b'\n', 100_000), (b'#', 1_048_576)];

#[test]
fn commands_end_as_they_should(rt: HostRuntime) -> Result<(), Fail> {
    let alloc = rt.alloc();
    let input = format!(in alloc; "{TWO_FIELDS}{FOUND}")?;
    check(&rt, alloc, "run", input.as_bytes(), (0, "", FOUND_LINES))?;
    for (config, script, code, line) in REFUSED {
        let input = format!(in alloc; "{config}{script}")?;
        check(&rt, alloc, "run", input.as_bytes(), (code, line, ""))?;
    }
    let first = "{\"acquired\":0,\"finished\":1,\"generation\":1,\"opened\":0}\n";
    for (byte, count) in SIZES {
        let mut input = TWO_FIELDS.as_bytes().to_vec(alloc)?;
        input.extend_from_slice(&vec![in alloc; byte; count]?)?;
        check(&rt, alloc, "run", &input, (0, "", first))?;
        input.push(byte)?;
        check(&rt, alloc, "run", &input, (7, "input too large\n", ""))?;
    }
    for (words, input, want) in COMMANDS {
        check(&rt, alloc, words, input.as_bytes(), (0, "", want))?;
    }
    for (config, script, code, line) in REFUSED {
        let input = format!(in alloc; "{config}{script}")?;
        check(&rt, alloc, "check", input.as_bytes(), (code, line, ""))?;
    }
    for words in NO_COMMANDS {
        let input = format!(in alloc; "{TWO_FIELDS}{FOUND}")?;
        check(&rt, alloc, words, input.as_bytes(), (2, status::USAGE, ""))?;
    }
    Ok(())
}

#[test]
fn each_failed_read_and_write_is_told(rt: HostRuntime) -> Result<(), Fail> {
    let alloc = rt.alloc();
    let input = format!(in alloc; "{TWO_FIELDS}{FOUND}")?;
    let reads = input.len().div_ceil(16) as u32 + 1;
    for k in 0..reads + 2 {
        let seen = see(&rt, alloc, "run", input.as_bytes(), (16, &[k]), (4096, &[]))?;
        let fails = k < reads;
        assert_eq!(rt; seen.code, if fails { 3 } else { 0 });
        assert_eq!(rt;
            &*seen.line,
            if fails { "read fault\n" } else { "" }.as_bytes()
        );
        assert_eq!(rt;
            seen.written.len(),
            if fails { 0 } else { FOUND_LINES.len() }
        );
    }
    let writes = FOUND_LINES.len().div_ceil(10) as u32;
    for k in 0..writes + 2 {
        let seen = see(&rt, alloc, "run", input.as_bytes(), (4096, &[]), (10, &[k]))?;
        let fails = k < writes;
        let end = if fails {
            k as usize * 10
        } else {
            FOUND_LINES.len()
        };
        assert_eq!(rt; seen.code, if fails { 4 } else { 0 });
        assert_eq!(rt;
            &*seen.line,
            if fails { "write fault\n" } else { "" }.as_bytes()
        );
        assert_eq!(rt; Some(&*seen.written), FOUND_LINES.as_bytes().get(..end));
    }
    Ok(())
}

// A sink that takes 10 bytes at a time and notes how it is called. Its flush fails.
#[derive(Drop)]
struct BadFlush {
    // How many bytes the next write is to be lent, once there was one.
    rest: Option<usize>,
    // Whether no write was lent other than the rest, and none came behind a flush.
    is_in_turn: bool,
    flushes: u32,
    faults: u64,
}

impl Sink for BadFlush {
    ghost held = { λ _. None };

    ghost flushed = { λ _. None };

    ghost faults = { λ s. s.faults };

    fn write(&mut self, from: &[u8]) -> Result<usize, Failed> {
        let count = from.len().min(10);
        let is_rest = match self.rest {
            Some(rest) => from.len() == rest,
            None => true,
        };
        self.is_in_turn = self.is_in_turn && is_rest && self.flushes == 0;
        self.rest = Some(from.len() - count);
        Ok(count)
    }

    fn flush(&mut self) -> Result<(), Failed> {
        self.flushes = self.flushes.saturating_add(1);
        self.faults = self.faults.saturating_add(1);
        Err(Failed)
    }
}

// Scripts, the exit code, what is left to be written, and how many flushes came.
const FLUSHES: [(&str, u8, Option<usize>, u32); 2] = [
    (FOUND, 4, Some(0), 1),
    ("hello", 6, None, 0),
];

#[test]
fn a_failed_flush_is_told_and_words_are_arguments(rt: HostRuntime) -> Result<(), Fail> {
    let alloc = rt.alloc();
    for (script, code, rest, flushes) in FLUSHES {
        let input = format!(in alloc; "{TWO_FIELDS}{script}")?;
        let mut source = MemSource::new(input.as_bytes().to_vec(alloc)?, 4096, Vec::new(alloc));
        let mut sink = BadFlush {
            rest: None,
            is_in_turn: true,
            flushes: 0,
            faults: 0,
        };
        let words = split(alloc, "run")?;
        let ran = run_top(&rt, alloc, &words, &mut source, &mut sink, &OpenGate);
        assert_eq!(rt; ran.status.code(), code);
        assert_eq!(rt; sink.rest, rest);
        assert_eq!(rt; sink.flushes, flushes);
        assert!(rt; sink.is_in_turn);
        assert!(rt; status_line(alloc, &ran.status)?.get().len() > 0);
    }
    let args = split(alloc, "solr_cli run x")?.into_iter();
    let words = words_of(alloc, Ok(args))?;
    assert_eq!(rt; words.len(), 2);
    assert_eq!(rt; words[0].as_str(), "run");
    let none = words_of(alloc, Err(io::Error::from(io::ErrorKind::InvalidData)))?;
    assert_eq!(rt; none.len(), 0);
    assert!(rt; words_of(alloc, Err(io::Error::from(io::ErrorKind::OutOfMemory))).is_err());
    Ok(())
}
