//! Schemas, the values of fields, and documents.
use crate::desk::Row;
use crate::marks::text_of;
use doc_model::{Doc, DocFault, Docs, doc_json};
use field_schema::{FieldList, Key, Schema, Text, Texts, tokens};
use serde_json::Value;
use std::alloc::{AllocError, Global};
use std::cmp::Ordering;
use std::sync::Arc;
use std::test::Fail;

// The schema and the document that were read last.
#[derive(Drop)]
pub(crate) struct Documents {
    schema: Schema,
    doc: Option<Arc<Doc>>,
}

impl Documents {
    pub(crate) fn new(alloc: Global) -> Result<Documents, Fail> {
        let schema = id_alone(alloc)?;
        Ok(Documents { schema, doc: None })
    }

    pub(crate) fn schema(&self) -> &Schema {
        &self.schema
    }

    // What a row of these kinds is answered.
    pub(crate) fn tell(&mut self, alloc: Global, row: Row<'_>) -> Result<Option<String>, Fail> {
        Ok(Some(match row.kind.as_bytes() {
            b"schema" => self.tell_schema(alloc, text_of(alloc, row.text)?.as_str())?,
            b"fields" => format!(in alloc; "{:?}", self.schema)?,
            b"place" => tell_place(alloc, row.words)?,
            b"tokens" => tell_tokens(alloc, row.text)?,
            b"keys" => tell_keys(alloc, row.text)?,
            b"doc" => self.tell_doc(alloc, text_of(alloc, row.text)?.as_str())?,
            b"fault" => self.tell_fault(alloc, text_of(alloc, row.text)?.as_str())?,
            b"values" => self.tell_values(alloc, row.words.parse::<u32>()?)?,
            b"shown" => self.tell_shown(alloc, row.words)?,
            b"docs" => tell_docs(alloc, self.doc()?)?,
            _ => return Ok(None),
        }))
    }

    // How many fields there are and which is the key, or the fault. The schema that was read then stands.
    fn tell_schema(&mut self, alloc: Global, text: &str) -> Result<String, Fail> {
        match Schema::read(alloc, &Value::from_str(alloc, text)?) {
            Ok(schema) => {
                let (count, key) = (schema.len(), schema.key_field());
                self.schema = schema;
                Ok(format!(in alloc; "{count} fields, key {key}")?)
            }
            Err(fault) => Ok(format!(in alloc; "{fault:?}")?),
        }
    }

    // The stored fields of the document that a body reads to, or its fault. The document then stands.
    fn tell_doc(&mut self, alloc: Global, body: &str) -> Result<String, Fail> {
        match Doc::read(alloc, &self.schema, body) {
            Ok(doc) => {
                let shown = doc_json(alloc, &self.schema, &doc, &FieldList::All)?;
                self.doc = Some(Arc::new(alloc, doc)?);
                Ok(shown.to_string(alloc)?)
            }
            Err(fault) => Ok(fault_text(alloc, &fault)?),
        }
    }

    // The fault of a body, if it has one.
    fn tell_fault(&self, alloc: Global, body: &str) -> Result<String, Fail> {
        match Doc::read(alloc, &self.schema, body) {
            Ok(_doc) => Ok(String::from_str(alloc, "none")?),
            Err(fault) => Ok(fault_text(alloc, &fault)?),
        }
    }

    fn doc(&self) -> Result<&Arc<Doc>, Fail> {
        match &self.doc {
            Some(doc) => Ok(doc),
            None => Err(Fail::new("no document")),
        }
    }

    // The document's values in a field.
    fn tell_values(&self, alloc: Global, field: u32) -> Result<String, Fail> {
        Ok(format!(in alloc; "{:?}", self.doc()?.values(field))?)
    }

    // The stored fields of the document that stand in a list of names.
    fn tell_shown(&self, alloc: Global, names: &str) -> Result<String, Fail> {
        let mut listed = Vec::new(alloc);
        for name in names.split_whitespace() {
            listed.push(Text::from_str(alloc, name)?)?;
        }
        let fields = FieldList::Names(Texts::new(listed));
        let shown = doc_json(alloc, &self.schema, self.doc()?, &fields)?;
        Ok(shown.to_string(alloc)?)
    }
}

// The schema of the string field `id` alone, its key.
fn id_alone(alloc: Global) -> Result<Schema, Fail> {
    let id = Text::from_str(alloc, "id")?;
    Ok(Schema::strings(alloc, Texts::new(vec![in alloc; id]?), 0)?)
}

// The place of a name in that schema.
fn tell_place(alloc: Global, name: &str) -> Result<String, Fail> {
    let schema = id_alone(alloc)?;
    Ok(format!(in alloc; "{:?}", schema.field(name))?)
}

// The tokens of a text, copied.
fn tell_tokens(alloc: Global, text: &str) -> Result<String, Fail> {
    let text = text_of(alloc, text)?;
    let found = tokens(alloc, text.as_str())?.copy(alloc)?;
    Ok(format!(in alloc; "{found:?}")?)
}

// How the key of a text stands to its copy, and to the token of the same text.
fn tell_keys(alloc: Global, text: &str) -> Result<String, Fail> {
    let key = Key::Str(Text::from_str(alloc, text)?);
    let token = Key::Token(Text::from_str(alloc, text)?);
    let copy = if key.copy(alloc)? == key {
        "equal"
    } else {
        "another"
    };
    let order = match key.cmp(&token) {
        Ordering::Less => "below",
        Ordering::Equal => "equal",
        Ordering::Greater => "above",
    };
    Ok(format!(in alloc; "copy {copy}, {order} the token")?)
}

// How many documents a list of that one has, and its unique key.
fn tell_docs(alloc: Global, doc: &Arc<Doc>) -> Result<String, Fail> {
    let docs = Docs::new(vec![in alloc; doc.clone()?]?);
    let mut told = format!(in alloc; "{}", docs.get().len())?;
    for doc in docs.get() {
        told.push_str(format!(in alloc; " {}", doc.id().get())?.as_str())?;
    }
    Ok(told)
}

// The fault's name with what it tells.
fn fault_text(alloc: Global, fault: &DocFault) -> Result<String, AllocError> {
    match fault {
        DocFault::NotObject => String::from_str(alloc, "NotObject"),
        DocFault::NoId => String::from_str(alloc, "NoId"),
        DocFault::UnknownField { name } => format!(in alloc; "UnknownField {}", name.get()),
        DocFault::BadValue { field } => format!(in alloc; "BadValue {}", field.get()),
        DocFault::ManyValues { field } => format!(in alloc; "ManyValues {}", field.get()),
        DocFault::TooLong { bytes } => format!(in alloc; "TooLong {}", bytes),
        DocFault::NoMemory => String::from_str(alloc, "NoMemory"),
    }
}
