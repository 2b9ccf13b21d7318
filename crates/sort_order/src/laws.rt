//! What holds of the order, whatever the sort and the documents. Each function does nothing: its clauses are the laws.
ghost use Rattle.sort_order.specs.Laws.{NoneBeforeItself, BeforeChains, OneComesBefore, KeepsDocuments, Ascends, IndexOrderStays, OrderOfNumbersCounts};

/// By distinct numbers the order is strict and total.
pub fn order_is_strict_and_total()
    ensures itself { NoneBeforeItself }
    ensures chains { BeforeChains }
    ensures total { OneComesBefore }
{}

/// In order stand the same documents, and each comes before all that stand behind it.
pub fn documents_stand_in_order()
    ensures same { KeepsDocuments }
    ensures ascends { Ascends }
{}

/// By no key documents stand by their numbers.
pub fn index_order_stays()
    ensures { IndexOrderStays }
{}

/// Of ascending numbers their order alone counts: so documents of a view stand as those of the list of its live documents.
pub fn order_of_numbers_counts()
    ensures { OrderOfNumbersCounts }
{}
