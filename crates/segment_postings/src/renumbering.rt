//! Documents that get new numbers, and their places.
ghost use Rattle.std.specs.Prelude.{◌≡◌, ◌+◌, ◌<◌, ◌≤◌, ◌++◌, Some, None, IfOk, OnOk, if◌then◌else◌};
ghost use Rattle.doc_sets.specs.declared.TheConstants.{MAX_DOCS};
ghost use Rattle.segment_postings.specs.Renumbering.{new_number, told_moved, moved_places, moves_from};

use crate::occurrence::Place;
use doc_sets::{DocNo, DocSet, MAX_DOCS};
use field_schema::NoMemory;
use std::alloc::Global;

/// The new numbers of `count` documents, of which the first has the number `base`: the live ones get those from `first`
/// on, and the others none. It costs their number.
pub(crate) fn moves(
    alloc: Global,
    live: &DocSet,
    base: DocNo,
    first: u32,
    count: u32,
) -> Result<Vec<Option<u32>>, NoMemory>
    requires old { base + count ≤ MAX_DOCS }
    requires new { first + count ≤ MAX_DOCS }
    ensures { IfOk result (λ v. v.items ≡ moves_from live.now base first count) }
{
    let mut moves = Vec::with_capacity(alloc, count as usize)?;
    let mut next = first;
    for i in 0..count {
        let stays = live.has(base + i);
        moves.push(number_if(stays, next))?;
        next = past(stays, next);
    }
    Ok(moves)
}

// The number, for a document that stays.
fn number_if(stays: bool, number: u32) -> Option<u32>
    ensures { result ≡ (if stays then Some number else None) }
{
    if stays { Some(number) } else { None }
}

// The number of the next document that stays.
fn past(stays: bool, number: u32) -> u32
    requires { number < MAX_DOCS }
    ensures { result ≡ (if stays then number + 1 else number) }
{
    if stays { number + 1 } else { number }
}

/// Adds the places in documents that stay behind others. It costs the number of places.
pub(crate) fn add_moved(
    all: &mut Vec<Place>,
    places: &[Place],
    moves: &[Option<u32>],
) -> Result<(), NoMemory>
    ensures { OnOk result (all.new.items ≡ all.old.items ++ moved_places moves.now places.now) }
{
    for place in places {
        add_place(all, *place, new_number(moves, place.doc))?;
    }
    Ok(())
}

// The new number of a document.
fn new_number(moves: &[Option<u32>], doc: u32) -> Option<u32>
    ensures { result ≡ new_number moves.now doc }
{
    match moves.get(doc as usize) {
        Some(number) => *number,
        None => None,
    }
}

// Adds a place in a document that stays.
fn add_place(all: &mut Vec<Place>, place: Place, number: Option<u32>) -> Result<(), NoMemory>
    ensures { OnOk result (all.new.items ≡ all.old.items ++ told_moved place number) }
{
    if let Some(doc) = number {
        all.push(Place {
            doc,
            value: place.value,
            token: place.token,
        })?;
    }
    Ok(())
}
