//! The controllers of a run agree: what any of them has committed, at any time of any possible past, is the beginning of one
//! log. The laws of agreement are here said of the journals of runs, with losses, repeats, reorderings, crashes, restarts,
//! refused turns and saves that failed.
//! Each law is a function that does nothing, and whose clause says it.

ghost use Rattle.run_laws.specs.RunAgreement.Laws.{DecidedOfRunIsLed, DecidedLasts, KeptLogsAgree, SetupsAreOdd};
ghost use Rattle.run_laws.specs.RunAgreement.Reading.{OwnBodiesAreTrue};

/// Of the logs that any two controllers have committed, at any two times of a possible past, one begins the other.
pub fn kept_logs_agree<B>()
    ensures { KeptLogsAgree B }
{}

/// What was decided after a possible past stays decided.
pub fn decided_lasts<B>()
    ensures { DecidedLasts B }
{}

/// Where f + 1 promises are not above its view, the log of a controller that leads begins with all that is decided.
pub fn decided_is_led<B>()
    ensures { DecidedOfRunIsLed B }
{}

/// Each setup has a group of 2 f + 1 controllers.
pub fn setups_are_odd()
    ensures { SetupsAreOdd }
{}

/// Messages that are their own bodies are read as nothing else.
pub fn own_bodies_are_true()
    ensures { OwnBodiesAreTrue }
{}
