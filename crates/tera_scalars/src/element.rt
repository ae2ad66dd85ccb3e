//! Which elements of a path are places.
ghost use Rattle.std.specs.Prelude.{◌≡◌};
ghost use Rattle.tera_meaning.specs.Path.{place};

/// The place that an element of a path is: one `+` or none, and then one or more ASCII digits of a
/// number below 2^64; nothing where it is none. Takes no memory.
#[tactic(auto, using(crate::proofs::PlaceLemmas::parsed_place))]
pub fn place_in_path(element: &str) -> Option<usize>
    ensures { result ≡ place element.now }
{
    element.parse::<usize>().ok()
}
