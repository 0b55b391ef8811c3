//! The steps of a member of a group are turns of the moves of agreement.
//! Each law is a function that does nothing, and whose clause says it.

ghost use Rattle.controller_moves.specs.MemberMoves.Laws.{AloneGoesOn, FallsTurn, LogsMakeGroups, MessagesTurn, ProposalsTurn, RestartsTurn, StepsKeepMembers, SuspicionsTurn, TicksTurn};
ghost use Rattle.controller_moves.specs.MemberMoves.Spelling.{StepsCanBeSpelled};

/// The logs of members make a group: what begins a log is one.
pub fn logs_make_groups()
    ensures { LogsMakeGroups }
{}

/// Whatever the history is: what a member does with a message that was posted to it is a turn of moves, in a group
/// of more than one.
pub fn messages_turn()
    ensures { MessagesTurn }
{}

/// So is what it does with a suspicion.
pub fn suspicions_turn()
    ensures { SuspicionsTurn }
{}

/// So is its proposal of an entry that makes a log.
pub fn proposals_turn()
    ensures { ProposalsTurn }
{}

/// So is what it does with a tick, in any group.
pub fn ticks_turn()
    ensures { TicksTurn }
{}

/// So is a crash, and a save that failed: the member is down, and neither number of its stable pair fell.
pub fn falls_turn()
    ensures { FallsTurn }
{}

/// So is the restart of a member that is down, into its next life.
pub fn restarts_turn()
    ensures { RestartsTurn }
{}

/// A step of a member leaves a state of the same member.
pub fn steps_keep_members()
    ensures { StepsKeepMembers }
{}

/// In a group of one, what a step leaves up was up before, and its log goes on from the one before.
pub fn alone_goes_on()
    ensures { AloneGoesOn }
{}

/// Where what a member holds and hears can be spelled, what it holds then and says can be spelled.
pub fn steps_can_be_spelled()
    ensures { StepsCanBeSpelled }
{}
