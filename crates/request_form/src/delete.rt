ghost use Rattle.std.specs.Prelude.{◌≡◌};
ghost use Rattle.field_schema.specs.Outcome.{Gives};
ghost use Rattle.request_form.specs.Params.{params_of};
ghost use Rattle.request_form.specs.Deletes.{delete_by, delete_of};
ghost use Rattle.request_form.specs.Requests.{is_no_memory};

use crate::fault::{RequestFault, bad_flag};
use crate::params::{read_params, value_of};
use crate::request::Defaults;
use field_schema::{Schema, Text};
use query_text::{Op, QueryFault, parse};
use query_tree::Query;
use std::alloc::Global;

/// What a delete takes away.
#[derive(Debug, Drop)]
pub enum DeleteForm {
    /// The document with this unique key.
    Id(Text),
    /// The documents that match this query.
    Query(Query),
}

impl DeleteForm {
    /// The delete that parameters read to, or their first fault.
    ///
    /// With `id` it is that of the document with this unique key, and no query is read. Else with
    /// `query` it is that of the documents which the query finds, as [`parse`] reads it with OR and
    /// the configuration's field; else the fault is `DeleteQuery`. With neither the fault is
    /// `BadFlag` of `id`. Of a parameter that stands twice the first counts, and other parameters
    /// are ignored, `df` and `q.op` too. `NoMemory` comes only where memory is wanting. It costs
    /// the length of the parameters.
    pub fn read(
        alloc: Global,
        schema: &Schema,
        defaults: &Defaults,
        params: &str,
    ) -> Result<DeleteForm, RequestFault>
        ensures { Gives is_no_memory result
            (delete_of schema.now.list defaults.now (params_of params.now)) }
    {
        let params = read_params(alloc, params)?;
        let params = params.as_slice();
        if let Some(id) = value_of(params, "id") {
            return Ok(DeleteForm::Id(Text::from_str(alloc, id)?));
        }
        match value_of(params, "query") {
            Some(text) => read_delete(alloc, schema, defaults, text),
            None => bad_flag(alloc, "id"),
        }
    }
}

// The delete of what a query finds.
fn read_delete(
    alloc: Global,
    schema: &Schema,
    defaults: &Defaults,
    text: &str,
) -> Result<DeleteForm, RequestFault>
    ensures { Gives is_no_memory result (delete_by schema.now.list defaults.now text.now) }
{
    match parse(alloc, schema, defaults.df, Op::Or, defaults.most, text) {
        Ok(parsed) => Ok(DeleteForm::Query(parsed.query)),
        Err(QueryFault::NoMemory) => Err(RequestFault::NoMemory),
        Err(fault) => Err(RequestFault::DeleteQuery(fault)),
    }
}
