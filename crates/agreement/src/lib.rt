//! Agreement of a group of controllers (Viewstamped Replication Revisited): its laws, over an abstract history.
//! Each law is a function that does nothing, and whose clause says it.
#![tactic(auto)]

ghost use Rattle.agreement.specs.Laws.{CertifiedLogsAgree, CommittedLogsAgree, FrontsComplete, MovesKeepTheInvariant, NothingIsDropped, PrimariesAreBacked, SuffixesComplete, VotesMakeASafeLog};
ghost use Rattle.agreement.specs.Turns.{ShownLogsAgree};
ghost use Rattle.agreement.specs.Journals.{JournalsAgree};
ghost use Rattle.agreement.specs.Decided.{DecisionsLast};
ghost use Rattle.agreement.specs.Leading.{DecidedIsLed, LaterLogsBegin, PrimariesLead, SafeLogsBegin};
ghost use Rattle.agreement.specs.Fitting.{FitsMakeGroups, FitsTestLast};

/// The log of the best of f + 1 votes begins with every entry that an earlier view has committed, or still may.
/// This is asked of the votes alone, and of no invariant.
pub fn votes_make_a_safe_log<E>()
    ensures { VotesMakeASafeLog E }
{}

/// A vote leaves out what its sender has committed. A new primary whose own certified entries reach to there
/// puts the vote's whole log together.
pub fn fronts_complete<E>()
    ensures { FrontsComplete E }
{}

/// News of a later view leave out the first entries of its log. A controller that has committed as many puts the
/// whole log together.
pub fn suffixes_complete<E>()
    ensures { SuffixesComplete E }
{}

/// Of two certified logs one begins the other.
pub fn certified_logs_agree<E>()
    ensures { CertifiedLogsAgree E }
{}

/// Each of the sixteen moves keeps the invariant, and what was certified before it is certified after it.
pub fn moves_keep_the_invariant<E>()
    ensures { MovesKeepTheInvariant E }
{}

/// Whatever moves a group makes from its start: of the logs that any two controllers have committed, at any two
/// times, one begins the other.
pub fn committed_logs_agree<E>()
    ensures { CommittedLogsAgree E }
{}

/// The same of what controllers show while a turn is not over, which may yet be taken back.
pub fn shown_logs_agree<E>()
    ensures { ShownLogsAgree E }
{}

/// No move gives a controller what is no log, a commit number past its end, or another entry in a committed place. So
/// a rule that drops such a message never drops any.
pub fn nothing_is_dropped<E>()
    ensures { NothingIsDropped E }
{}

/// f + 1 controllers have promised the view of each normal primary of a view above 0, or a later one.
pub fn primaries_are_backed<E>()
    ensures { PrimariesAreBacked E }
{}

/// For any rules whose turns are made of the moves, and every legal journal of them, with losses, repeats, reorderings,
/// crashes and refused turns: of what any two controllers show as committed, at any two times, one begins the other.
/// A group may be of one.
pub fn journals_agree<Own, A, E>()
    ensures { JournalsAgree Own A E }
{}

/// For the same rules and journals: what was decided stays so, and what a controller shows begins it.
pub fn decisions_last<Own, A, E>()
    ensures { DecisionsLast Own A E }
{}

/// Where f + 1 promises are below a view, a log that is safe for the view begins with all that is certified.
pub fn safe_logs_begin<E>()
    ensures { SafeLogsBegin E }
{}

/// The same of what was certified at an earlier time, where the promises were below the view then.
pub fn later_logs_begin<E>()
    ensures { LaterLogsBegin E }
{}

/// Where f + 1 promises are not above its view, the log of a normal primary begins with all that is certified.
pub fn primaries_lead<E>()
    ensures { PrimariesLead E }
{}

/// The same of what a journal has decided.
pub fn decided_is_led<Own, A, E>()
    ensures { DecidedIsLed Own A E }
{}

/// Logs that are made entry by entry, each of which fits behind those before it, make a group.
pub fn fits_make_groups<E>()
    ensures { FitsMakeGroups E }
{}

/// Such a list with one entry more is a log just where the list is one and the entry fits behind it.
pub fn fits_test_last<E>()
    ensures { FitsTestLast E }
{}
