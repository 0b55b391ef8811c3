//! The marks of commands.
ghost use Rattle.forgetting_laws.specs.Marks.{ForgettingCommutes, ForgottenAreUnasked, MarksAreOfIssued};

/// A controller may forget the results of commands that are settled.
pub fn marks_forget()
    // Results come of issued commands alone, from the begin of a view on.
    ensures issued { MarksAreOfIssued }
    // At the log at which they were forgotten, and at each log that it begins, the rules' questions have the answers that they had.
    ensures unasked { ForgottenAreUnasked }
    // What comes from switches is marked alike before and after.
    ensures commutes { ForgettingCommutes }
{}
