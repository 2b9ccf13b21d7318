ghost use Rattle.std.specs.Prelude.{◌≡◌, IfOk, map};
ghost use Rattle.serde_json.specs.View.{view};
ghost use Rattle.field_schema.specs.Outcome.{Gives};
ghost use Rattle.script_form.specs.ReadConfig.{cache_check, cache_setting as setting_of, cache_size as size_of, documents_check, field_check, flag_check, each_some, indexed_field as indexed_of, is_no_memory, number_check, percentage as percentage_of, request_in as request_of, requests_check, requests_in as requests_of, schema_check, warm_setting as warm_of, whole_within as number_within};

use crate::config::{ConfigFault, ConfigRefusal, Requests, WarmSetting, checked, refused};
use crate::decimal::decimal_within;
use field_schema::{FieldNo, NoMemory, Schema, SchemaFault};
use request_form::{Defaults, Request, RequestFault};
use serde_json::Value;
use sqlite_items::Items;
use std::alloc::Global;

// The most entries of a cache, and the most that are regenerated.
const MOST_ENTRIES: u32 = 4_096;

// The entries of a cache where nothing else is said.
const DEFAULT_ENTRIES: u32 = 512;

// Nothing is regenerated.
const NO_WARMING: WarmSetting = WarmSetting {
    number: 0,
    percent: false,
};

// What is said of a cache that is warmed: its entries, and how many of an old cache's are regenerated.
#[derive(Clone, Copy)]
pub(crate) struct CacheSetting {
    pub(crate) size: u32,
    pub(crate) warm: WarmSetting,
}

// The schema, which must be there, or the fault of its check, whose name is that of the schema's fault.
pub(crate) fn read_schema(
    alloc: Global,
    members: &Value,
    at: u32,
    name: &str,
) -> Result<Schema, ConfigRefusal>
    ensures { Gives is_no_memory result (schema_check at name.now (view members.now)) }
{
    let Some(value) = members.get(name) else {
        return refused(alloc, at, name);
    };
    match Schema::read(alloc, value) {
        Ok(schema) => Ok(schema),
        Err(SchemaFault::NotObject) => refused(alloc, at, name),
        Err(SchemaFault::NoUniqueKey) => refused(alloc, at, "uniqueKey"),
        Err(SchemaFault::BadName { name: field })
        | Err(SchemaFault::BadType { name: field })
        | Err(SchemaFault::Twice { name: field }) => {
            Err(ConfigRefusal::Fault(ConfigFault { at, name: field }))
        }
        Err(SchemaFault::NoMemory) => Err(ConfigRefusal::NoMemory),
    }
}

// A member that is a whole number from 1 to `most`, or the fault of its check.
pub(crate) fn read_number(
    alloc: Global,
    members: &Value,
    at: u32,
    name: &str,
    missing: u32,
    most: u32,
) -> Result<u32, ConfigRefusal>
    ensures { Gives is_no_memory result (number_check at name.now missing most (view members.now)) }
{
    let number = match members.get(name) {
        Some(value) => whole_within(value, 1, most),
        None => Some(missing),
    };
    checked(alloc, at, name, number)
}

// A member that is true or false, or the fault of its check.
pub(crate) fn read_flag(
    alloc: Global,
    members: &Value,
    at: u32,
    name: &str,
) -> Result<bool, ConfigRefusal>
    ensures { Gives is_no_memory result (flag_check at name.now (view members.now)) }
{
    let flag = match members.get(name) {
        Some(value) => value.as_bool(),
        None => Some(false),
    };
    checked(alloc, at, name, flag)
}

// The member of a cache that is warmed, or the fault of its check.
pub(crate) fn read_cache(
    alloc: Global,
    members: &Value,
    at: u32,
    name: &str,
) -> Result<CacheSetting, ConfigRefusal>
    ensures { Gives is_no_memory result (cache_check at name.now (view members.now)) }
{
    let setting = match members.get(name) {
        Some(cache) => cache_setting(cache),
        None => Some(CacheSetting {
            size: DEFAULT_ENTRIES,
            warm: NO_WARMING,
        }),
    };
    checked(alloc, at, name, setting)
}

// The entries of the document cache, or the fault of its check.
pub(crate) fn read_documents(
    alloc: Global,
    members: &Value,
    at: u32,
    name: &str,
) -> Result<u32, ConfigRefusal>
    ensures { Gives is_no_memory result (documents_check at name.now (view members.now)) }
{
    let size = match members.get(name) {
        Some(cache) => cache_size(cache),
        None => Some(DEFAULT_ENTRIES),
    };
    checked(alloc, at, name, size)
}

// A member that names an indexed field of the schema, or the fault of its check.
pub(crate) fn read_field(
    alloc: Global,
    members: &Value,
    at: u32,
    name: &str,
    schema: &Schema,
) -> Result<Option<FieldNo>, ConfigRefusal>
    ensures { Gives is_no_memory result (field_check at name.now schema.now (view members.now)) }
{
    let field = match members.get(name) {
        Some(value) => indexed_field(schema, value).map(Some),
        None => Some(None),
    };
    checked(alloc, at, name, field)
}

// A member that is a list of texts, each of which reads as a request, or the fault of its check.
pub(crate) fn read_requests(
    alloc: Global,
    members: &Value,
    at: u32,
    name: &str,
    schema: &Schema,
    defaults: &Defaults,
) -> Result<Requests, ConfigRefusal>
    ensures { Gives is_no_memory result
        (requests_check at name.now schema.now defaults.now (view members.now)) }
{
    let requests = match members.get(name) {
        Some(value) => requests_in(alloc, value, schema, defaults)?,
        None => Some(Items::from_vec(Vec::new(alloc))),
    };
    checked(alloc, at, name, requests)
}

// The requests of a list of texts, where each reads.
fn requests_in(
    alloc: Global,
    value: &Value,
    schema: &Schema,
    defaults: &Defaults,
) -> Result<Option<Requests>, NoMemory>
    ensures { IfOk result (λ o. o ≡ requests_of schema.now defaults.now (view value.now)) }
{
    match value.as_array() {
        Some(texts) => each_request(alloc, texts.as_slice(), schema, defaults),
        None => Ok(None),
    }
}

// The requests of texts, where each reads.
fn each_request(
    alloc: Global,
    texts: &[Value],
    schema: &Schema,
    defaults: &Defaults,
) -> Result<Option<Requests>, NoMemory>
    ensures { IfOk result (λ o. o
        ≡ each_some (request_of schema.now defaults.now) (map view texts.now)) }
{
    let mut requests = Vec::new(alloc);
    for text in texts {
        match request_in(alloc, text, schema, defaults)? {
            Some(request) => requests.push(request)?,
            None => return Ok(None),
        }
    }
    Ok(Some(Items::from_vec(requests)))
}

// The request that a text reads to, where it reads.
fn request_in(
    alloc: Global,
    value: &Value,
    schema: &Schema,
    defaults: &Defaults,
) -> Result<Option<Request>, NoMemory>
    ensures { IfOk result (λ o. o ≡ request_of schema.now defaults.now (view value.now)) }
{
    let Some(text) = value.as_str() else {
        return Ok(None);
    };
    match Request::read(alloc, schema, defaults, text) {
        Ok(request) => Ok(Some(request)),
        Err(RequestFault::NoMemory) => Err(NoMemory),
        Err(_) => Ok(None),
    }
}

// A whole number from `low` to `high`.
fn whole_within(value: &Value, low: u32, high: u32) -> Option<u32>
    ensures { result ≡ number_within low high (view value.now) }
{
    match value.as_u64() {
        Some(number) if low as u64 <= number && number <= high as u64 => Some(number as u32),
        _ => None,
    }
}

// A cache's object: its entries, and how many of an old cache's are regenerated.
fn cache_setting(cache: &Value) -> Option<CacheSetting>
    ensures { result ≡ setting_of (view cache.now) }
{
    let size = cache_size(cache)?;
    let warm = match cache.get("autowarmCount") {
        Some(value) => warm_setting(value)?,
        None => NO_WARMING,
    };
    Some(CacheSetting { size, warm })
}

// The entries of a cache's object.
fn cache_size(cache: &Value) -> Option<u32>
    ensures { result ≡ size_of (view cache.now) }
{
    if !cache.is_object() {
        return None;
    }
    match cache.get("size") {
        Some(value) => whole_within(value, 1, MOST_ENTRIES),
        None => Some(DEFAULT_ENTRIES),
    }
}

// A whole number of entries, or a percentage.
fn warm_setting(value: &Value) -> Option<WarmSetting>
    ensures { result ≡ warm_of (view value.now) }
{
    if let Some(number) = whole_within(value, 0, MOST_ENTRIES) {
        return Some(WarmSetting {
            number,
            percent: false,
        });
    }
    let number = percentage(value.as_str()?)?;
    Some(WarmSetting {
        number,
        percent: true,
    })
}

// A decimal number from 0 to 100 in front of `%`.
fn percentage(text: &str) -> Option<u32>
    ensures { result ≡ percentage_of text.now }
{
    decimal_within(text.strip_suffix('%')?, 0, 100)
}

// The place of the field that a text names, where it is indexed.
fn indexed_field(schema: &Schema, value: &Value) -> Option<FieldNo>
    ensures { result ≡ indexed_of schema.now (view value.now) }
{
    let number = schema.field(value.as_str()?)?;
    if schema.get(number)?.indexed {
        Some(number)
    } else {
        None
    }
}
