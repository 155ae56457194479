//! Laws of the requests and results. These functions do nothing; their contracts say what holds of all
//! bytes.

ghost use Rattle.ig_fields.specs.TableLaws.{AskedIsRight, OneRightAsk, ShownIsRight, OneRightResult};
ghost use Rattle.ig_ops.specs.Requests.{ask_of};
ghost use Rattle.ig_ops.specs.Results.{result_of};
ghost use Rattle.ig_ops.specs.Laws.{WrittenAskIsRead, AsksTellApart, ReadAskFits, WrittenResultIsRead, ResultsTellApart, ReadResultFits, AnswersAreShown};

/// What reading a request gives is the one right answer. A request that is written is read as it is, or
/// refused for what it asks, and no two requests have the same bytes. What is read can be written, and
/// can be served.
pub fn requests_agree()
    ensures right { AskedIsRight ask_of }
    ensures only { OneRightAsk ask_of }
    ensures written { WrittenAskIsRead }
    ensures apart { AsksTellApart }
    ensures fit { ReadAskFits }
{}

/// What reading a result gives is the one right answer. A result that is written is read as it is, and
/// no two results of an operation have the same bytes. What is read can be written. The outcome that
/// answers a call is a result of the call's operation.
pub fn results_agree()
    ensures right { ShownIsRight result_of }
    ensures only { OneRightResult result_of }
    ensures written { WrittenResultIsRead }
    ensures apart { ResultsTellApart }
    ensures fit { ReadResultFits }
    ensures answers { AnswersAreShown }
{}
