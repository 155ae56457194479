//! Laws of the fields of messages. These functions do nothing; their contracts say what holds of all
//! bytes and of every format.

ghost use Rattle.ig_fields.specs.Laws.{ReadFieldsAreSpelled, SpelledFieldsAreRead, FieldsStopRightly, FieldStopIsRead, WrittenFieldsAreSpelled, SpelledFieldsFit, FieldsTellApart, ReadMessageIsSpelled, SpelledMessageIsRead, MessageStopsRightly, MessageStopIsRead};

/// What is read was spelled, and what is spelled is read, whatever follows it. Reading stops where the
/// bytes stop being fields. The bytes of fields spell them, fields that are spelled keep to the limits,
/// and no bytes spell two.
pub fn fields_agree()
    ensures spelled { ReadFieldsAreSpelled }
    ensures read { SpelledFieldsAreRead }
    ensures stops { FieldsStopRightly }
    ensures stopped { FieldStopIsRead }
    ensures written { WrittenFieldsAreSpelled }
    ensures fit { SpelledFieldsFit }
    ensures apart { FieldsTellApart }
{}

/// The same of a message, which has no bytes after its fields.
pub fn messages_agree()
    ensures spelled { ReadMessageIsSpelled }
    ensures read { SpelledMessageIsRead }
    ensures stops { MessageStopsRightly }
    ensures stopped { MessageStopIsRead }
{}
