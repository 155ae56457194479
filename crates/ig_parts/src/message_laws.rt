//! Laws of message 1101. These functions do nothing; their contracts say what holds of all bytes.

ghost use Rattle.ig_fields.specs.TableLaws.{AskedIsRight, OneRightAsk};
ghost use Rattle.ig_parts.specs.PartsMessages.{ask_of};
ghost use Rattle.ig_parts.specs.MessageLaws.{WrittenAskIsRead, AsksTellApart, ReadMapIsRight, OneRightMap, WrittenMapIsRead, MapsTellApart, SpelledMapFits, ServedMapFits};

/// What reading a request gives is the one right answer. A request that is written is read as it
/// is, and no two requests have the same bytes.
pub fn parts_asks_agree()
    ensures right { AskedIsRight ask_of }
    ensures only { OneRightAsk ask_of }
    ensures written { WrittenAskIsRead }
    ensures apart { AsksTellApart }
{}

/// What reading a map gives is the one right answer. A map that keeps to the limits is read as it
/// was written, and no two such maps have the same bytes. What is read keeps to them, and so does
/// the map that a server answers.
pub fn part_maps_agree()
    ensures right { ReadMapIsRight }
    ensures only { OneRightMap }
    ensures written { WrittenMapIsRead }
    ensures apart { MapsTellApart }
    ensures fit { SpelledMapFits }
    ensures served { ServedMapFits }
{}
