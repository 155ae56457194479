//! Which of two partition maps counts.

ghost use Rattle.std.specs.Prelude.{◌≡◌};
ghost use Rattle.ig_parts.specs.Newest.{is_newer, newer_map};

use crate::map::PartMap;
use ig_base::Topology;

/// Whether `a` is greater than `b`, by version and then by minor version.
fn exceeds(a: Topology, b: Topology) -> bool
    ensures { result ≡ is_newer a b }
{
    a.version > b.version || (a.version == b.version && a.minor > b.minor)
}

/// The newer of two maps: `b` exactly where its version and then its minor version is greater, else
/// `a`. Takes no memory.
pub fn newest(a: PartMap, b: PartMap) -> PartMap
    ensures { result ≡ newer_map a b }
{
    if exceeds(b.told, a.told) { b } else { a }
}
