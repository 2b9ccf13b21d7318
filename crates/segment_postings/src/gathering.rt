//! Postings, gathered from the occurrences of a key.
ghost use Rattle.std.specs.Prelude.{◌≡◌, ℕ, ◌+◌, ◌<◌, ◌≤◌, List, ◌∷◌, ◌++◌, [], IfOk, OnOk, All, map};
ghost use Rattle.std.specs.FinSet as set;
ghost use Rattle.doc_sets.specs.declared.TheConstants.{MAX_DOCS};
ghost use Rattle.segment_postings.specs.Groups.{has_places, gathered, gather_one, put_place, told_at};
ghost use Rattle.segment_postings.specs.Positions.{told_position, positions_at};

use crate::occurrence::Place;
use crate::posting::{Places, Position, Posting};
use doc_sets::{DocNo, DocSet, Gathered};
use field_schema::{Key, NoMemory};
use std::alloc::Global;

/// Adds what is told of a key's places in live documents, of which the first has the number `base`, and which
/// are fewer than `count`. It costs their number.
pub(crate) fn gather(
    alloc: Global,
    found: &mut Vec<Posting>,
    live: &DocSet,
    base: DocNo,
    key: &Key,
    places: &[Place],
) -> Result<(), NoMemory>
    requires { All (λ p. base + p.doc < MAX_DOCS) places.now }
    ensures { OnOk result (found.new.items ≡ gathered live.now base (has_places key.now) found.old.items places.now) }
{
    let told = tells_places(key);
    for place in places {
        add(alloc, found, live, base, told, *place)?;
    }
    Ok(())
}

/// Adds the numbers of the documents that places stand in, of which the first has the number `base`. Each number that is added is
/// below `end`. It costs the number of places.
pub(crate) fn add_numbers(
    alloc: Global,
    found: &mut Gathered,
    base: DocNo,
    end: u32,
    places: &[Place],
) -> Result<(), NoMemory>
    requires most { end ≤ MAX_DOCS }
    requires documents { All (λ p. base + p.doc < MAX_DOCS) places.now }
    ensures { OnOk result (found.new ≡ set.union found.old (set.from_list (map (λ p. base + p.doc) places.now))) }
{
    let Ok(()) = found.expect(alloc, places.len(), end) else {
        return Err(NoMemory);
    };
    for place in places {
        let Ok(()) = found.add(base + place.doc) else {
            return Err(NoMemory);
        };
    }
    Ok(())
}

/// Adds the positions of the places in live documents, of which the first document has the number `base`. It costs the number of
/// places.
pub(crate) fn add_positions(
    found: &mut Vec<Position>,
    live: &DocSet,
    base: DocNo,
    places: &[Place],
) -> Result<(), NoMemory>
    requires { All (λ p. base + p.doc < MAX_DOCS) places.now }
    ensures { OnOk result (found.new.items ≡ found.old.items ++ positions_at live.now base places.now) }
{
    for place in places {
        add_position(found, live, base + place.doc, *place)?;
    }
    Ok(())
}

// Adds the position of a place in the document of a number, where that is live.
fn add_position(
    found: &mut Vec<Position>,
    live: &DocSet,
    doc: DocNo,
    place: Place,
) -> Result<(), NoMemory>
    ensures { OnOk result (found.new.items ≡ found.old.items ++ told_position live.now doc place) }
{
    if live.has(doc) {
        found.push(Position {
            doc,
            value: place.value,
            token: place.token,
        })?;
    }
    Ok(())
}

// Adds what is told of a place, where its document is live.
fn add(
    alloc: Global,
    found: &mut Vec<Posting>,
    live: &DocSet,
    base: DocNo,
    told: bool,
    place: Place,
) -> Result<(), NoMemory>
    requires { base + place.doc < MAX_DOCS }
    ensures { OnOk result (found.new.items ≡ gather_one live.now base told found.old.items place) }
{
    let number = base + place.doc;
    if !live.has(number) {
        return Ok(());
    }
    put(alloc, found, number, told, place)
}

// Whether places are told of a key.
fn tells_places(key: &Key) -> bool
    ensures { result ≡ has_places key.now }
{
    matches!(key, Key::Token(_))
}

// Adds a document, or a place to the last one where that is the same.
fn put(
    alloc: Global,
    found: &mut Vec<Posting>,
    doc: DocNo,
    told: bool,
    place: Place,
) -> Result<(), NoMemory>
    ensures { OnOk result (found.new.items ≡ put_place found.old.items doc (told_at told place)) }
{
    let posting = open(alloc, found, doc)?;
    let posting = with_place(posting, told, place)?;
    found.push(posting)?;
    Ok(())
}

// The posting with one more place, where it is told.
fn with_place(mut posting: Posting, told: bool, place: Place) -> Result<Posting, NoMemory>
    ensures { IfOk result (λ p. p ≡ record { doc = posting.doc; places = posting.places ++ told_at told place }) }
{
    if told {
        posting.places.push((place.value, place.token))?;
    }
    Ok(posting)
}

// Takes out the last posting where it is of the document, and makes one without places where it is not.
fn open(alloc: Global, found: &mut Vec<Posting>, doc: DocNo) -> Result<Posting, NoMemory>
    ensures { IfOk result (λ p. (more : List (ℕ × ℕ)) →
        put_place found.old.items doc more ≡ found.new.items ++ record { doc = p.doc; places = p.places ++ more } ∷ []) }
{
    let Some(last) = found.pop() else {
        return Ok(empty(alloc, doc));
    };
    if last.doc == doc {
        return Ok(last);
    }
    found.push(last)?;
    Ok(empty(alloc, doc))
}

// A posting without places.
fn empty(alloc: Global, doc: DocNo) -> Posting
    ensures { result ≡ record { doc = doc; places = [] } }
{
    Posting {
        doc,
        places: Places::new(Vec::new(alloc)),
    }
}
