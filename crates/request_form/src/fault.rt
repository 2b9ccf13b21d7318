ghost use Rattle.std.specs.Prelude.{◌≡◌, Err};
ghost use Rattle.field_schema.specs.Outcome.{Gives};
ghost use Rattle.request_form.specs.declared.fault.RequestFault.TheVariants as fault;
ghost use Rattle.request_form.specs.Requests.{is_no_memory};

use field_schema::{NoMemory, Text};
use query_text::{QueryFault, SortFault};
use std::alloc::Global;

/// What is wrong with the parameters of a request.
#[derive(Debug, Drop)]
pub enum RequestFault {
    /// The parameter is no count: one to ten digits, of at most 2,147,483,647.
    BadCount { param: Text },
    /// The parameter has none of its values. Of a delete, `id` where it has neither `id` nor
    /// `query`.
    BadFlag { param: Text },
    /// A query does not read: `q` where `which` is 0, else that `fq`, counted from 1.
    Query { which: usize, fault: QueryFault },
    /// The sort does not read.
    Sort(SortFault),
    /// Memory was wanting. It never stands inside another fault.
    NoMemory,
    /// The query of a delete does not read.
    DeleteQuery(QueryFault),
}

impl From<NoMemory> for RequestFault {
    ghost use Rattle.std.specs.Prelude.{◌≡◌};
    ghost use Rattle.request_form.specs.declared.fault.RequestFault.TheVariants as fault;

    ghost from_gives = { λ _ e. e ≡ fault.NoMemory };

    fn from(_error: NoMemory) -> RequestFault {
        RequestFault::NoMemory
    }
}

// The fault of a count.
pub(crate) fn bad_count<T>(alloc: Global, name: &str) -> Result<T, RequestFault>
    ensures { Gives is_no_memory result (Err (fault.BadCount name.now)) }
{
    let param = Text::from_str(alloc, name)?;
    Err(RequestFault::BadCount { param })
}

// The fault of a parameter that has one of a few values.
pub(crate) fn bad_flag<T>(alloc: Global, name: &str) -> Result<T, RequestFault>
    ensures { Gives is_no_memory result (Err (fault.BadFlag name.now)) }
{
    let param = Text::from_str(alloc, name)?;
    Err(RequestFault::BadFlag { param })
}
