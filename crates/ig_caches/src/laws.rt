//! Laws of calls, over the definitions alone. Each call here does nothing: its contract is the law.

ghost use Rattle.ig_caches.specs.Laws.{GetFindsWhatWasPut, CallsApartCommute, RefusedCallsChangeNothing};
ghost use Rattle.ig_caches.specs.Laws.{AnswersFit, RowsStandUnderTheirKeys, ScansAreWhole};

/// A get after a put of an equal key finds the value that was put. Calls on two keys that aren't equal
/// commute, and so do calls on keys of two caches.
pub fn keys_are_apart()
    ensures found { GetFindsWhatWasPut }
    ensures commute { CallsApartCommute }
{}

/// A refused call changes nothing, and each answer has the kind that its call asks for.
pub fn answers_fit()
    ensures refused { RefusedCallsChangeNothing }
    ensures fit { AnswersFit }
{}

/// Each row stands under the canonical encoding of its key. So a scan answers each row once, in the
/// order of these, and a size counts the rows of the scan.
pub fn scans_are_whole()
    ensures keyed { RowsStandUnderTheirKeys }
    ensures scans { ScansAreWhole }
{}
