//! What a turn of a controller of a group may do, as laws that the proof over runs stands on. No code is here.
//!
//! A turn is taken apart into moves (`turns_are_chains`). What each move keeps, a turn keeps. The laws name where each
//! entry, commit number and view comes from that a controller holds or says, what its letters tell, and that beside
//! facts that only grow it stays true: that is one half of exactly once, the other half is the switch's.

ghost use Rattle.controller_moves.specs.ControllerLaws.Laws.{TurnsAreChains, DownRestsOrRestarts, ChainsReach, EntriesComeFrom, SettledAreFinished, LettersTell, ViewsComeFrom, EmptyAreConsistent, IssuedLasts, CountsLast, LogsProcessInOrder, LogsReceiveInOrder, CommitsComeFrom, LogsNumberByLife};

/// A turn of a controller that is not down is a chain of moves, or a crash, which leaves the stable pair alone and posts
/// nothing.
pub fn turns_are_chains()
    ensures { TurnsAreChains }
{}

/// A controller that is down rests, or begins its next life: it saves the life, has nothing, and asks the others.
pub fn down_rests_or_restarts()
    ensures { DownRestsOrRestarts }
{}

/// Each state of a chain has a log that reaches its commit number, and what was committed stays. Each mark stood before
/// or came with the input. Each letter was said by a state on the way, whose committed log begins the last one's.
pub fn chains_reach()
    ensures { ChainsReach }
{}

/// Each entry that a controller holds or says after a turn stood at that place before, came with the input, or was proposed
/// there at the end of the log. Where its place lies beyond the commit number beside it, it stood or was proposed beside
/// one that was no greater.
pub fn entries_come_from()
    ensures { EntriesComeFrom }
{}

/// Each commit number that a controller holds of others or says is at most its own at the end, or stood before, or came.
pub fn commits_come_from()
    ensures { CommitsComeFrom }
{}

/// The view of a member is its own of before, one that a response told, or that of the input.
pub fn views_come_from()
    ensures { ViewsComeFrom }
{}

/// An event that may be proposed as processed is the next one of the whole log, and each of its commands has its result,
/// or a later life of its switch has begun.
pub fn settled_are_finished()
    ensures { SettledAreFinished }
{}

/// What each letter tells of what its sender had committed when it said it: a command its place among what is issued to
/// its life, an EVENT_ACK the processed events, a CBUF_CLEAR the settled commands. Who says these leads.
pub fn letters_tell()
    ensures { LettersTell }
{}

/// A member that starts, is down, or recovers is consistent: it has nothing yet.
pub fn empty_are_consistent()
    ensures { EmptyAreConsistent }
{}

/// What is issued to a life of a switch only grows with the events.
pub fn issued_lasts()
    ensures { IssuedLasts }
{}

/// How many events of a life are processed, and how many commands settled, only grows with the log.
pub fn counts_last()
    ensures { CountsLast }
{}

/// A log has its events as processed in the order in which it received them, each after it was received.
pub fn logs_process_in_order()
    ensures { LogsProcessInOrder }
{}

/// The events of a life that a log has are the first that the switch made in that life, where each is one that it made.
pub fn logs_receive_in_order()
    ensures { LogsReceiveInOrder }
{}

/// Each event of a log has the next number of its life, and the lives of a switch never fall.
pub fn logs_number_by_life()
    ensures { LogsNumberByLife }
{}
