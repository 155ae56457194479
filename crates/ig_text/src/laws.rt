//! Laws of the texts. These functions do nothing; their contracts say what holds of every input.

ghost use Rattle.ig_text.specs.DescriptionLaws.{DescriptionIsText, DescriptionIsRead, DescriptionTextTellsApart};
ghost use Rattle.ig_text.specs.TextLaws.{ReadIsText, TextIsRead, TextTellsApart, ReadIsBounded};

/// What is read from a text keeps to the limits, and its text stood there. The text of a value within
/// the limits is read, whatever follows that a number can't go on with. Two values have two texts. The
/// canonical form of a value that was read has at most 24 bytes for each byte of its text.
pub fn one_text()
    ensures read { ReadIsText }
    ensures again { TextIsRead }
    ensures apart { TextTellsApart }
    ensures bound { ReadIsBounded }
{}

/// What is read as a description of a type keeps to the limits, and its text stood there. The text of a
/// description within the limits is read, whatever follows that a number can't go on with. Two
/// descriptions have two texts.
pub fn one_description()
    ensures read { DescriptionIsText }
    ensures again { DescriptionIsRead }
    ensures apart { DescriptionTextTellsApart }
{}
