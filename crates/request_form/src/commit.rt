ghost use Rattle.std.specs.Prelude.{◌≡◌};
ghost use Rattle.field_schema.specs.Outcome.{Gives};
ghost use Rattle.request_form.specs.Params.{params_of};
ghost use Rattle.request_form.specs.Commits.{commit_of};
ghost use Rattle.request_form.specs.Requests.{is_no_memory};

use crate::fault::RequestFault;
use crate::params::read_params;
use crate::value::read_flag;
use std::alloc::Global;

/// What a commit asks for.
#[derive(Clone, Copy, Debug, PartialEq, Eq)]
pub struct CommitForm {
    /// Whether it opens a searcher.
    pub opens: bool,
    /// Whether it waits until that searcher is registered.
    pub wait: bool,
}

impl CommitForm {
    /// The commit that parameters read to, or their first fault.
    ///
    /// `openSearcher` (else true), `waitSearcher` (else true) and `softCommit` (else false) are
    /// `true`, `on`, `yes`, `false`, `off` or `no`; else `BadFlag` of the first that is not, in
    /// this order. A soft commit is a plain one. Of a parameter that stands twice the first counts.
    /// `NoMemory` comes only where memory is wanting. It costs the length of the parameters.
    pub fn read(alloc: Global, params: &str) -> Result<CommitForm, RequestFault>
        ensures { Gives is_no_memory result (commit_of (params_of params.now)) }
    {
        let params = read_params(alloc, params)?;
        let params = params.as_slice();
        let opens = read_flag(alloc, params, "openSearcher", true)?;
        let wait = read_flag(alloc, params, "waitSearcher", true)?;
        read_flag(alloc, params, "softCommit", false)?;
        Ok(CommitForm { opens, wait })
    }
}
