ghost use Rattle.std.specs.Prelude.{◌≡◌};
ghost use Rattle.run_laws.specs.Lawful.{NoLowerPlaceIsTold};
ghost use Rattle.run_laws.specs.Places.{place_count};
ghost use Rattle.run_laws.specs.Trials.{nothing_asked};

/// The first place of the journal that a request can take. The places below it are taken where nothing
/// is asked for: the first searcher is opened and registered there. It costs nothing.
pub fn first_place() -> u64
    ensures free { result ≡ place_count nothing_asked }
    ensures least { NoLowerPlaceIsTold result }
{
    2
}
