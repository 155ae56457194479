//! Laws of the grammar. These functions do nothing; their contracts say what holds of every input.

ghost use Rattle.ig_value.specs.Laws.{EveryInputIsDecided, OnePrefixSpells, OneStop, NoStopAfterValue, ReadIsSpelled, SpelledIsRead, ReadingStopsRightly, StopIsRead, SpelledFits, CanonSpells, CanonIsShortest, CanonTellsApart, ByteForEachNode, NodesInsideCount, FitsIsShallow, FitsAtItsDepth};

/// Any byte string either has exactly one prefix that encodes a value, and exactly one value that
/// it encodes, or stops being a value at exactly one offset, for exactly one cause.
pub fn one_reading()
    ensures decided { EveryInputIsDecided }
    ensures one_prefix { OnePrefixSpells }
    ensures one_stop { OneStop }
    ensures not_both { NoStopAfterValue }
{}

/// Reading as a function of the bytes agrees with the grammar: it gives the value that a prefix
/// encodes, and stops at the same offset for the same cause.
pub fn one_reader()
    ensures read { ReadIsSpelled }
    ensures spelled { SpelledIsRead }
    ensures stops { ReadingStopsRightly }
    ensures stopped { StopIsRead }
{}

/// The canonical form of a sendable value encodes it, no encoding of it is shorter, and no other
/// value has the same.
pub fn one_form()
    ensures fits { SpelledFits }
    ensures spells { CanonSpells }
    ensures shortest { CanonIsShortest }
    ensures apart { CanonTellsApart }
{}

/// A value has no more nodes than an encoding of it has bytes, and no fewer than the values inside
/// it and one. A value within the limits is no deeper than they allow.
pub fn bounded_trees()
    ensures nodes { ByteForEachNode }
    ensures inside { NodesInsideCount }
    ensures shallow { FitsIsShallow }
    ensures own_depth { FitsAtItsDepth }
{}
