ghost use Rattle.std.specs.Prelude.{◌≡◌, ◌≤◌, length, drop, Err, IfOk, MatchResult, ok_or, option_map, ⊤};
ghost use Rattle.serde_json.specs.View.{view};
ghost use Rattle.field_schema.specs.Outcome.{Gives};
ghost use Rattle.script_form.specs.Lines.{config_text, IsScriptOf};
ghost use Rattle.script_form.specs.Ranges.{IsConfig};
ghost use Rattle.script_form.specs.ReadConfig.{config_in, config_of, failed, is_no_memory, object_in, text_config, value_in};
ghost use Rattle.script_form.specs.Results.{result_map};

use crate::lines::{behind_marker, is_marker, next_line};
use crate::member::{
    read_cache, read_documents, read_field, read_flag, read_number, read_requests, read_schema,
};
use field_schema::{FieldNo, NoMemory, Schema, Text};
use request_form::{Defaults, Request};
use serde_json::Value;
use sqlite_items::Items;
use std::alloc::{AllocFailed, Global};

/// How many entries of an old cache are regenerated: a number, or a percentage of its length.
#[derive(Clone, Copy, Debug, PartialEq, Eq)]
pub struct WarmSetting {
    pub number: u32,
    pub percent: bool,
}

/// A list of requests. Contracts see it as a list.
pub type Requests = Items<Request>;

/// What the configuration says.
#[derive(Debug, Drop)]
pub struct Config {
    pub schema: Schema,
    /// Entries of the filter cache, 1 to 4,096.
    pub filter_size: u32,
    pub filter_warm: WarmSetting,
    /// Entries of the result cache, 1 to 4,096.
    pub result_size: u32,
    pub result_warm: WarmSetting,
    /// Entries of the document cache, 1 to 4,096.
    pub document_size: u32,
    /// The window of a result entry, 1 to 4,096.
    pub window: u32,
    /// The most ids of a stored result entry, 1 to 4,096.
    pub most_docs: u32,
    /// How many searchers may be warming, 1 to 4.
    pub max_warming: u32,
    /// Whether the first searcher serves before its listeners have run.
    pub cold: bool,
    /// The most clauses of one Boolean query, 1 to 65,535.
    pub most_clauses: u32,
    /// How many threads warm searchers, 1 to 4.
    pub warmers: u32,
    /// The field of values that name none.
    pub df: Option<FieldNo>,
    /// The requests that run on the first searcher.
    pub first: Requests,
    /// The requests that run on each later searcher while it is warming.
    pub fresh: Requests,
}

/// The first check of the configuration that fails, and what it looked at.
#[derive(Debug, Drop)]
pub struct ConfigFault {
    /// The check's number, 1 to 16.
    pub at: u32,
    /// The name of what it looked at: the member's name, `%%`, `config` for the whole, or the name that a schema's
    /// fault has (`uniqueKey` where there is none).
    pub name: Text,
}

/// Why there is no configuration.
#[derive(Debug, Drop)]
pub enum ConfigRefusal {
    /// A check fails.
    Fault(ConfigFault),
    /// Memory was wanting.
    NoMemory,
}

impl From<NoMemory> for ConfigRefusal {
    ghost use Rattle.std.specs.Prelude.{◌≡◌};
    ghost use Rattle.script_form.specs.declared.config.ConfigRefusal.TheVariants as refusal;

    ghost from_gives = { λ _ e. e ≡ refusal.NoMemory };

    fn from(_error: NoMemory) -> ConfigRefusal {
        ConfigRefusal::NoMemory
    }
}

impl<T: Drop> From<AllocFailed<T>> for ConfigRefusal {
    ghost use Rattle.std.specs.Prelude.{◌≡◌};
    ghost use Rattle.script_form.specs.declared.config.ConfigRefusal.TheVariants as refusal;

    ghost from_gives = { λ _ e. e ≡ refusal.NoMemory };

    fn from(_error: AllocFailed<T>) -> ConfigRefusal {
        ConfigRefusal::NoMemory
    }
}

/// The configuration that the input begins with, and the place at which the script begins, in bytes from 0.
///
/// The configuration is the text before the first line that is exactly `%%`, one JSON object nested to at most 127.
/// Unknown members are ignored, and of a repeated member the last counts. A member that is null is there. The checks
/// stand in this order, and the first that fails is the fault: its number, and the member's name if no other is
/// said.
///
/// 1. The line `%%` is there (name `%%`).
/// 2. The text is UTF-8 and reads as such an object (name `config`).
/// 3. `version` is 1; missing, it is 1.
/// 4. `schema` is there and reads, as `Schema::read` says; the name is that of the fault's field, `uniqueKey` where
///    no field can be the key, and `schema` where it has not the shape of a schema.
/// 5. `filterCache` is an object whose `size` is 1 to 4,096 (missing: 512) and whose `autowarmCount` is 0 to 4,096, or
///    a text such as `50%`, of a number 0 to 100 without a leading zero (missing: 0). Missing, it has these.
/// 6. `queryResultCache` is the same.
/// 7. `documentCache` is an object whose `size` is 1 to 4,096 (missing: 512). Missing, it has this.
/// 8. `queryResultWindowSize` is 1 to 4,096; missing, it is 20.
/// 9. `queryResultMaxDocsCached` is 1 to 4,096; missing, it is 200.
/// 10. `maxWarmingSearchers` is 1 to 4; missing, it is 1.
/// 11. `useColdSearcher` is true or false; missing, it is false.
/// 12. `maxBooleanClauses` is 1 to 65,535; missing, it is 1,024.
/// 13. `warmers` is 1 to 4; missing, it is 1.
/// 14. `df` is the name of an indexed field; missing, there is none.
/// 15. `firstSearcher` is a list of texts, each of which reads as the parameters of a query; missing, it is empty.
/// 16. `newSearcher` is the same.
///
/// `NoMemory` comes only where memory is wanting. The cost is linear in what stands before the script, but for the
/// members of an object, each of which is found by the logarithm of their number, and for the filters of a listener's
/// request, each of which is looked up among those before it.
#[tactic(auto, unfolding(crate::specs::ReadConfig::config_of))]
pub fn read_config(alloc: Global, bytes: &[u8]) -> Result<(Config, usize), ConfigRefusal>
    ensures config { Gives is_no_memory (result_map (λ r. r.0) result) (config_of bytes.now) }
    ensures ranges { IfOk result (λ r. IsConfig r.0) }
    ensures begin { MatchResult result (λ r. IsScriptOf bytes.now (drop r.1 bytes.now)) (λ _. ⊤) }
    ensures within { MatchResult result (λ r. r.1 ≤ length bytes.now) (λ _. ⊤) }
{
    let Some(script) = behind_marker(bytes) else {
        return refused(alloc, 1, "%%");
    };
    let text = before_marker(alloc, bytes)?;
    let config = read_text(alloc, text.as_slice())?;
    Ok((config, bytes.len() - script.len()))
}

// The lines before the marker line, joined by line feeds.
fn before_marker(alloc: Global, bytes: &[u8]) -> Result<Vec<u8>, NoMemory>
    ensures { IfOk result (λ v. v.items ≡ config_text bytes.now) }
{
    let mut text = Vec::new(alloc);
    let mut begun = false;
    let mut rest = bytes;
    while !rest.is_empty() {
        let (line, others) = next_line(rest);
        if is_marker(line) {
            break;
        }
        if begun {
            text.push(b'\n')?;
        }
        text.extend_from_slice(line)?;
        begun = true;
        rest = others;
    }
    Ok(text)
}

// The configuration of a text, or the first check that fails of those from 2 on.
fn read_text(alloc: Global, text: &[u8]) -> Result<Config, ConfigRefusal>
    ensures { Gives is_no_memory result (text_config text.now) }
{
    let Some(members) = read_object(alloc, text)? else {
        return refused(alloc, 2, "config");
    };
    read_members(alloc, &members)
}

// The object that a text is, where it is one.
fn read_object(alloc: Global, text: &[u8]) -> Result<Option<Value>, NoMemory>
    ensures { IfOk result (λ o. option_map view o ≡ object_in text.now) }
{
    match read_value(alloc, text)? {
        Some(value) if value.is_object() => Ok(Some(value)),
        _ => Ok(None),
    }
}

// The value that a text is, where it is UTF-8 and reads as JSON.
fn read_value(alloc: Global, text: &[u8]) -> Result<Option<Value>, NoMemory>
    ensures { IfOk result (λ o. option_map view o ≡ value_in text.now) }
{
    match Value::from_slice(alloc, text) {
        Ok(value) => Ok(Some(value)),
        Err(error) if error.is_memory() => Err(NoMemory),
        Err(_) => Ok(None),
    }
}

// The configuration of an object, or the first check that fails of those from 3 on.
fn read_members(alloc: Global, members: &Value) -> Result<Config, ConfigRefusal>
    ensures { Gives is_no_memory result (config_in (view members.now)) }
{
    read_number(alloc, members, 3, "version", 1, 1)?;
    let schema = read_schema(alloc, members, 4, "schema")?;
    let filters = read_cache(alloc, members, 5, "filterCache")?;
    let results = read_cache(alloc, members, 6, "queryResultCache")?;
    let documents = read_documents(alloc, members, 7, "documentCache")?;
    let window = read_number(alloc, members, 8, "queryResultWindowSize", 20, 4_096)?;
    let most_docs = read_number(alloc, members, 9, "queryResultMaxDocsCached", 200, 4_096)?;
    let max_warming = read_number(alloc, members, 10, "maxWarmingSearchers", 1, 4)?;
    let cold = read_flag(alloc, members, 11, "useColdSearcher")?;
    let most_clauses = read_number(alloc, members, 12, "maxBooleanClauses", 1_024, 65_535)?;
    let warmers = read_number(alloc, members, 13, "warmers", 1, 4)?;
    let df = read_field(alloc, members, 14, "df", &schema)?;
    let defaults = Defaults {
        df,
        most: most_clauses,
    };
    let first = read_requests(alloc, members, 15, "firstSearcher", &schema, &defaults)?;
    let fresh = read_requests(alloc, members, 16, "newSearcher", &schema, &defaults)?;
    Ok(Config {
        schema,
        filter_size: filters.size,
        filter_warm: filters.warm,
        result_size: results.size,
        result_warm: results.warm,
        document_size: documents,
        window,
        most_docs,
        max_warming,
        cold,
        most_clauses,
        warmers,
        df,
        first,
        fresh,
    })
}

// What a check found, or its fault.
pub(crate) fn checked<T: Drop>(
    alloc: Global,
    at: u32,
    name: &str,
    found: Option<T>,
) -> Result<T, ConfigRefusal>
    ensures { Gives is_no_memory result (ok_or found (failed at name.now)) }
{
    match found {
        Some(value) => Ok(value),
        None => refused(alloc, at, name),
    }
}

// The fault of a check.
pub(crate) fn refused<T>(alloc: Global, at: u32, name: &str) -> Result<T, ConfigRefusal>
    ensures { Gives is_no_memory result (Err (failed at name.now)) }
{
    let name = Text::from_str(alloc, name)?;
    Err(ConfigRefusal::Fault(ConfigFault { at, name }))
}
