//! Laws of the texts of lines. These functions do nothing; their contracts say what holds of every input.

ghost use Rattle.ig_lines.specs.LineLaws.{LineIsText, TextIsLine, WrittenIsText, LinesTellApart};

/// What is read is a line of which this is a text, and each text of a line is read as this line. The text
/// that is written is one of them, and two lines have two such texts.
pub fn one_line()
    ensures read { LineIsText }
    ensures again { TextIsLine }
    ensures written { WrittenIsText }
    ensures apart { LinesTellApart }
{}
