//! What is always so of the messages of refused requests.
ghost use Rattle.std.specs.Prelude.{◌≡◌, codes};
ghost use Rattle.query_lexemes.specs.declared.fault.QueryFault.TheVariants as query;
ghost use Rattle.query_text.specs.declared.sort_text.SortFault.TheVariants as sort;
ghost use Rattle.request_form.specs.declared.fault.RequestFault.TheVariants as fault;
ghost use Rattle.request_form.specs.Messages.{request_message};

/// The messages, each by a fault that has it.
pub fn messages_tell_the_fault()
    ensures count { request_message (fault.BadCount (codes "rows")) ≡ codes "BadCount rows" }
    ensures flag { request_message (fault.BadFlag (codes "id")) ≡ codes "BadFlag id" }
    ensures query { request_message (fault.Query 0 (query.Syntax 6)) ≡ codes "q: Syntax at 6" }
    ensures filter { request_message (fault.Query 1 (query.Unsupported 3))
        ≡ codes "fq 1: Unsupported at 3" }
    ensures sort { request_message (fault.Sort (sort.NotSortable 0))
        ≡ codes "sort: NotSortable at 0" }
    ensures delete { request_message (fault.DeleteQuery (query.BadNumber 6))
        ≡ codes "query: BadNumber at 6" }
{}
