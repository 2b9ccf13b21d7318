// The kinds of step, which are for the proofs alone.
ghost use Rattle.view_cells.specs.Steps.{Took, LetGo as let_go, first_only, rest_only, joined, spent};

use crate::board::Known;
use crate::fits::Fits;
use atomic_table::{Join, Play, Split};

// The lock word goes from 0 to one more than the seat's number, and the value is the seat's.
pub(crate) struct Take;

impl<T: Fits> Play<Option<T>, Known<T, T::View, T::Entry>> for Take {
    ghost then = { Took T.fits T.entries };
}

// The value is the cell's again, and the lock word 0.
pub(crate) struct LetGo;

impl<T: Fits> Play<Option<T>, Known<T, T::View, T::Entry>> for LetGo {
    ghost then = { let_go T.fits T.entries };
}

// The numbers behind the first go to a seat of their own.
pub(crate) struct SplitOff;

impl<T, W, E> Split<Known<T, W, E>> for SplitOff {
    ghost left = { first_only };

    ghost right = { rest_only };
}

// One seat has the numbers and lists of both.
pub(crate) struct Gather;

impl<T, W, E> Join<Known<T, W, E>> for Gather {
    ghost both = { joined };

    ghost spent = { spent };
}
