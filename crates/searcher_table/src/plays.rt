// The kinds of step, which are for the proofs alone.
ghost use Rattle.searcher_table.specs.Steps.{Looked, Peeked, Announced, Withdrawn, Executed, kept_back, handed_out, keeps_others, dealt_out, joined, taken_back, spent};
ghost use Rattle.searcher_table.specs.Steps.{Opened, Acquired, Released, Freed, Scanned, ScannedOn, Took, Wiped, Reached, Laid as was_laid, Published, Superseding, Settled, GaveUp, TookOut, still, told_of};

use crate::board::{Cell, Known};
use crate::shown::Shown;
use atomic_table::{Join, Play, Split};
use std::marker::{Brand, PhantomData};

// A word is read, and the history so far is seen.
pub(crate) struct Look;

impl<D: Shown, U> Play<Cell<D, U>, Known<D::Setting, U, D::Docs, D::Deed>> for Look {
    ghost then = { Looked };
}

// The current word is read, and the history so far is seen.
pub(crate) struct Peek;

impl<D: Shown, U> Play<Cell<D, U>, Known<D::Setting, U, D::Docs, D::Deed>> for Peek {
    ghost then = { Peeked };
}

// A caller's word goes from 0 to the number of the call that it announces.
pub(crate) struct Announce;

impl<D: Shown, U> Play<Cell<D, U>, Known<D::Setting, U, D::Docs, D::Deed>> for Announce {
    ghost then = { Announced };
}

// A caller's word goes back to 0, and what it announced has no entry.
pub(crate) struct Withdraw;

impl<D: Shown, U> Play<Cell<D, U>, Known<D::Setting, U, D::Docs, D::Deed>> for Withdraw {
    ghost then = { Withdrawn };
}

// A caller's word goes back to 0, and the update that it announced has its entry, or its opening is refused.
pub(crate) struct Execute;

impl<D: Shown, U> Play<Cell<D, U>, Known<D::Setting, U, D::Docs, D::Deed>> for Execute {
    ghost then = { Executed };
}

// A caller's word goes back to 0, and the next generation is opened.
pub(crate) struct OpenNext;

impl<D: Shown, U> Play<Cell<D, U>, Known<D::Setting, U, D::Docs, D::Deed>> for OpenNext {
    ghost then = { Opened };
}

// The current word counts one acquire more, and the caller has its entry.
pub(crate) struct Acquire;

impl<D: Shown, U> Play<Cell<D, U>, Known<D::Setting, U, D::Docs, D::Deed>> for Acquire {
    ghost then = { Acquired D.setting D.docs D.list };
}

// The word of a slot counts one release more, and the caller has its entry.
pub(crate) struct Release;

impl<D: Shown, U> Play<Cell<D, U>, Known<D::Setting, U, D::Docs, D::Deed>> for Release {
    ghost then = { Released D.list };
}

// The bit of a slot is 1 again, whose generation nobody uses any more.
pub(crate) struct Free;

impl<D: Shown, U> Play<Cell<D, U>, Known<D::Setting, U, D::Docs, D::Deed>> for Free {
    ghost then = { Freed };
}

// Mask word 0 is read, and a free slot found there or, where it has none, known to be in the other word.
pub(crate) struct Scan;

impl<D: Shown, U> Play<Cell<D, U>, Known<D::Setting, U, D::Docs, D::Deed>> for Scan {
    ghost then = { Scanned };
}

// The other mask word is read, and a free slot found there.
pub(crate) struct ScanOn;

impl<D: Shown, U> Play<Cell<D, U>, Known<D::Setting, U, D::Docs, D::Deed>> for ScanOn {
    ghost then = { ScannedOn };
}

// The bit of the slot that was found is 0.
pub(crate) struct Take;

impl<D: Shown, U> Play<Cell<D, U>, Known<D::Setting, U, D::Docs, D::Deed>> for Take {
    ghost then = { Took };
}

// The word of the claimed slot is 0.
pub(crate) struct Wipe;

impl<D: Shown, U> Play<Cell<D, U>, Known<D::Setting, U, D::Docs, D::Deed>> for Wipe {
    ghost then = { Wiped };
}

// The cell of the next caller is taken out of the slot that is filled.
pub(crate) struct Reach;

impl<D: Shown, U> Play<Cell<D, U>, Known<D::Setting, U, D::Docs, D::Deed>> for Reach {
    ghost then = { Reached };
}

// It is back, with a door.
pub(crate) struct Lay;

impl<D: Shown, U> Play<Cell<D, U>, Known<D::Setting, U, D::Docs, D::Deed>> for Lay {
    ghost then = { was_laid D.docs };
}

// The list with which a warming ends. A call at `Brand` picks it.
pub(crate) trait Ends<L> {
    ghost use Rattle.std.specs.Prelude.{List};

    ghost list: { List L };
}

impl<L> Ends<L> for Brand {
    ghost use Rattle.std.specs.Prelude.{[]};

    ghost list = { [] };
}

// A warming generation is current.
pub(crate) struct Publish<E> {
    ends: PhantomData<E>,
}

impl<D: Shown, U, E: Ends<D::Deed>> Play<Cell<D, U>, Known<D::Setting, U, D::Docs, D::Deed>>
    for Publish<E> {
    ghost then = { Published E.list };
}

// A warming generation is given up, since a greater one is current.
pub(crate) struct Supersede<E> {
    ends: PhantomData<E>,
}

impl<D: Shown, U, E: Ends<D::Deed>> Play<Cell<D, U>, Known<D::Setting, U, D::Docs, D::Deed>>
    for Supersede<E> {
    ghost then = { Superseding E.list };
}

// The word of a slot is told the acquires of its generation.
pub(crate) struct Settle;

impl<D: Shown, U> Play<Cell<D, U>, Known<D::Setting, U, D::Docs, D::Deed>> for Settle {
    ghost then = { Settled };
}

// The history so far is seen, and the table given up, whose passes were all taken back.
pub(crate) struct GiveUp;

impl<D: Shown, U> Play<Cell<D, U>, Known<D::Setting, U, D::Docs, D::Deed>> for GiveUp {
    ghost then = { GaveUp };
}

// A cell is taken out for good.
pub(crate) struct TakeOut;

impl<D: Shown, U> Play<Cell<D, U>, Known<D::Setting, U, D::Docs, D::Deed>> for TakeOut {
    ghost then = { TookOut D.setting D.docs D.list };
}

// What was seen goes along to a seat of its own.
pub(crate) struct Sight;

impl<W, U, X, L> Split<Known<W, U, X, L>> for Sight {
    ghost left = { still };

    ghost right = { told_of };
}

// What was seen goes along to a seat of its own, with what was announced or opened, if anything is.
pub(crate) struct HandOut;

impl<W, U, X, L> Split<Known<W, U, X, L>> for HandOut {
    ghost left = { kept_back };

    ghost right = { handed_out };
}

// The next caller has a pass.
pub(crate) struct Deal;

impl<W, U, X, L> Split<Known<W, U, X, L>> for Deal {
    ghost left = { keeps_others };

    ghost right = { dealt_out };
}

// One seat has what both had.
pub(crate) struct Gather;

impl<W, U, X, L> Join<Known<W, U, X, L>> for Gather {
    ghost both = { joined };

    ghost spent = { spent };
}

// A registrar has what a pass leaves.
pub(crate) struct TakeBack;

impl<W, U, X, L> Join<Known<W, U, X, L>> for TakeBack {
    ghost both = { taken_back };

    ghost spent = { spent };
}
