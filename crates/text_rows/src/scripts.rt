//! Configurations and scripts, their counts and their limits, and made scripts.
use crate::desk::Row;
use crate::marks::bytes_of;
use field_schema::Text;
use script_counts::check_text;
use script_form::{
    Config, ConfigRefusal, LineFault, ScriptRefusal, WarmSetting, What, decimal_within,
    read_config, read_front, read_script, too_large,
};
use script_maker::make;
use std::alloc::Global;
use std::test::Fail;

// What a row of these kinds is answered. A member stands behind the front, and a script of one commit behind both.
pub(crate) fn tell(alloc: Global, front: &str, row: Row<'_>) -> Result<Option<String>, Fail> {
    let bytes = bytes_of(alloc, row.text)?;
    let bytes = bytes.as_slice();
    Ok(Some(match row.kind.as_bytes() {
        b"member" => tell_member(alloc, front, bytes)?,
        b"config" => tell_config(alloc, bytes, b"")?,
        b"line" => tell_line(alloc, bytes)?,
        b"script" => tell_script(alloc, bytes)?,
        b"counts" => tell_counts(alloc, bytes)?,
        b"large" => format!(in alloc; "{}", too_large(bytes))?,
        b"made" => tell_made(alloc, made(alloc, row.words)?.get().as_bytes())?,
        b"ends" => {
            let ends = made(alloc, row.words)?.get().as_bytes().ends_with(bytes);
            format!(in alloc; "{ends}")?
        }
        _ => return Ok(None),
    }))
}

// What a configuration says, in the order of its checks, or the check that fails and its name.
fn tell_config(alloc: Global, input: &[u8], behind: &[u8]) -> Result<String, Fail> {
    match read_config(alloc, input) {
        Ok((config, begin)) if &input[begin..] == behind => { config_text(alloc, &config) }
        Ok(_) => Ok(String::from_str(alloc, "another script")?),
        Err(ConfigRefusal::Fault(fault)) => {
            let (at, name) = (fault.at, fault.name.get());
            Ok(format!(in alloc; "{at} {name}")?)
        }
        Err(ConfigRefusal::NoMemory) => Ok(String::from_str(alloc, "no memory")?),
    }
}

fn tell_member(alloc: Global, front: &str, member: &[u8]) -> Result<String, Fail> {
    let mut input = front.as_bytes().to_vec(alloc)?;
    input.extend_from_slice(member)?;
    input.extend_from_slice(b"}\r\n%%\n1 commit")?;
    tell_config(alloc, input.as_slice(), b"1 commit")
}

// How many of an old cache's entries are regenerated.
fn warm_text(alloc: Global, warm: WarmSetting) -> Result<String, Fail> {
    let sign = if warm.percent { "%" } else { "" };
    Ok(format!(in alloc; "{}{sign}", warm.number)?)
}

// The sizes and the warmings of two caches, the size of the third, the window and the most ids, the searchers that may
// be warming, whether the first one serves cold, the most clauses, the warmers, the default field, and how many
// requests the listeners have, where they have some.
fn config_text(alloc: Global, config: &Config) -> Result<String, Fail> {
    let mut told = String::new(alloc);
    let warm = warm_text(alloc, config.filter_warm)?;
    told.push_str(format!(in alloc; "{} {warm} ", config.filter_size)?.as_str())?;
    let warm = warm_text(alloc, config.result_warm)?;
    told.push_str(format!(in alloc; "{} {warm} ", config.result_size)?.as_str())?;
    let (size, window, most) = (config.document_size, config.window, config.most_docs);
    told.push_str(format!(in alloc; "{size} {window} {most} ")?.as_str())?;
    let (warming, cold, clauses) = (config.max_warming, config.cold, config.most_clauses);
    told.push_str(format!(in alloc; "{warming} {cold} {clauses} ")?.as_str())?;
    told.push_str(format!(in alloc; "{} {:?}", config.warmers, config.df)?.as_str())?;
    let (first, fresh) = (config.first.as_slice().len(), config.fresh.as_slice().len());
    if first > 0 || fresh > 0 {
        told.push_str(format!(in alloc; " {first} first {fresh} fresh")?.as_str())?;
    }
    Ok(told)
}

// What a line of a script asks for.
fn what_text(alloc: Global, what: &What) -> Result<String, Fail> {
    Ok(match what {
        What::Add { client, body } => format!(in alloc; "add {client} {}", body.get())?,
        What::Delete { client, body } => format!(in alloc; "delete {client} {}", body.get())?,
        What::Query { client, body } => format!(in alloc; "query {client} {}", body.get())?,
        What::Commit { client, body } => format!(in alloc; "commit {client} {}", body.get())?,
        What::PhaseEnd => String::from_str(alloc, "phase")?,
        What::Nothing => String::from_str(alloc, "nothing")?,
    })
}

// Whether the front of a script has this fault, and the lines before it.
fn stops_there(alloc: Global, script: &[u8], fault: LineFault) -> Result<bool, Fail> {
    if script.len() > 20_000_000 {
        return Err(Fail::new("no script"));
    }
    let front = read_front(alloc, script)?;
    let lines = front.lines.get().len();
    Ok(front.fault == Some(fault) && u32::try_from(lines).ok() == fault.line.checked_sub(1))
}

// What the last line of a script asks for, and its number; or the first fault and its line.
fn tell_script(alloc: Global, script: &[u8]) -> Result<String, Fail> {
    if script.len() > 20_000_000 {
        return Err(Fail::new("no script"));
    }
    match read_script(alloc, script) {
        Ok(read) => {
            let last = read.get().last().ok_or("a line")?;
            let what = what_text(alloc, &last.what)?;
            Ok(format!(in alloc; "{}: {what}", last.number)?)
        }
        Err(ScriptRefusal::Fault(fault)) => {
            let (line, name) = (fault.line, fault.name);
            if stops_there(alloc, script, fault)? {
                Ok(format!(in alloc; "{line}: {name:?}")?)
            } else {
                Ok(format!(in alloc; "{line}: {name:?}, and another front")?)
            }
        }
        Err(ScriptRefusal::NoMemory) => Ok(String::from_str(alloc, "no memory")?),
    }
}

// The same where the line is the third, and with each end of a line where these differ.
fn tell_line(alloc: Global, line: &[u8]) -> Result<String, Fail> {
    let told = tell_ended(alloc, line, b"")?;
    for end in ["\n", "\r\n"] {
        let other = tell_ended(alloc, line, end.as_bytes())?;
        if other.as_str() != told.as_str() {
            return Ok(format!(in alloc; "{told}, and {other}")?);
        }
    }
    Ok(told)
}

fn tell_ended(alloc: Global, line: &[u8], end: &[u8]) -> Result<String, Fail> {
    let mut script = b"\n# the second\r\n".to_vec(alloc)?;
    script.extend_from_slice(line)?;
    script.extend_from_slice(end)?;
    tell_script(alloc, script.as_slice())
}

// The counts of a script.
fn tell_counts(alloc: Global, script: &[u8]) -> Result<String, Fail> {
    if script.len() > 20_000_000 {
        return Err(Fail::new("no script"));
    }
    let read = read_script(alloc, script).map_err(|_| "a script")?;
    let told = check_text(alloc, &read)?;
    Ok(String::from_str(alloc, told.get())?)
}

// The script of so many documents.
fn made(alloc: Global, count: &str) -> Result<Text, Fail> {
    match decimal_within(count, 1, 20_000) {
        Some(count) => Ok(make(alloc, count)?),
        None => Err(Fail::new("no count")),
    }
}

// How many bytes an input has, whether it passes a limit, and the counts of its script.
fn tell_made(alloc: Global, input: &[u8]) -> Result<String, Fail> {
    let large = if too_large(input) { " too large" } else { "" };
    let (_, begin) = read_config(alloc, input).map_err(|_| "a configuration")?;
    let counts = tell_counts(alloc, &input[begin..])?;
    Ok(format!(in alloc; "{} bytes{large} {counts}", input.len())?)
}
