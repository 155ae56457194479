//! Laws of these requests and results. These functions do nothing; their contracts say what holds of
//! all bytes.

ghost use Rattle.ig_fields.specs.TableLaws.{AskedIsRight, OneRightAsk, ShownIsRight, OneRightResult};
ghost use Rattle.ig_meta.specs.Requests.{ask_of};
ghost use Rattle.ig_meta.specs.Results.{result_of};
ghost use Rattle.ig_meta.specs.Laws.{WrittenAskIsRead, AsksTellApart, SpelledRequestFits, WrittenResultIsRead, ResultsTellApart, SpelledResultFits, AnswersAreShown, OrderedTypeComesBack, ReadTypeIsInOrder};

/// What reading a request gives is the one right answer. A request that is written is read as it is, or
/// refused for its empty name, and no two requests have the same bytes. What is read can be written.
pub fn meta_asks_agree()
    ensures right { AskedIsRight ask_of }
    ensures only { OneRightAsk ask_of }
    ensures written { WrittenAskIsRead }
    ensures apart { AsksTellApart }
    ensures fit { SpelledRequestFits }
{}

/// What reading a result gives is the one right answer. A result that is written is read as it is, and
/// no two results of an operation have the same bytes. What is read can be written. The outcome that
/// answers a call is a result of the call's operation.
pub fn meta_results_agree()
    ensures right { ShownIsRight result_of }
    ensures only { OneRightResult result_of }
    ensures written { WrittenResultIsRead }
    ensures apart { ResultsTellApart }
    ensures fit { SpelledResultFits }
    ensures answers { AnswersAreShown }
{}

/// A description in order is what its fields hold, and what fields hold is in order.
pub fn read_types_are_in_order()
    ensures back { OrderedTypeComesBack }
    ensures in_order { ReadTypeIsInOrder }
{}
