//! How a closing brings a group to rest: laws of the closing schedule. No code is here: each law is a function that does
//! nothing, and whose clauses say it.
#![tactic(auto)]

ghost use Rattle.std.specs.Prelude.{◌≡◌, ◌≤◌, ◌<◌, ◌/◌, ◌%◌, ◌++◌, if◌then◌else◌, ℕ, suc, Bool, true, false, nat_lt, List, [], ◌∷◌, length, take, drop, Option, Some, None};
ghost use Rattle.of_types.specs.SmallSets.{with_number};
ghost use Rattle.vr_log.specs.declared.entry.Entry.{Entry};
ghost use Rattle.vr_log.specs.declared.message.VrMessage.TheVariants as message;
ghost use Rattle.vr_log.specs.declared.state.Collected.{Collected};
ghost use Rattle.vr_log.specs.declared.state.Supplied.{Supplied};
ghost use Rattle.vr_log.specs.declared.state.VrState.{VrState};
ghost use Rattle.vr_log.specs.Choosing.{best_of, has_collected};
ghost use Rattle.vr_log.specs.Log.{is_log};
ghost use Rattle.vr_log.specs.Members.{is_up};
ghost use Rattle.vr_log.specs.Steps.{is_sound, letter, quiet, sends, to_others};
ghost use Rattle.view_change.specs.Entering.{own_log, started_view, tells_start};
ghost use Rattle.vr_core.specs.declared.input.VrInput.TheVariants as vr_input;
ghost use Rattle.vr_core.specs.Step.{vr_step};
ghost use Rattle.closing_laws.specs.Quorum.{HasAQuorum, HasTheLeastView, IsQuorum, WhereMostAreUp, has, members_that_close};
ghost use Rattle.closing_laws.specs.Draining.{all_suspected, drains, resting_group};
ghost use Rattle.closing_laws.specs.Held.{EventsAreKept};
ghost use Rattle.closing_laws.specs.Starts.{ViewsStartInTime};
ghost use Rattle.closing_laws.specs.Ends.{ClosingsRest};
ghost use Rattle.closing_laws.specs.Stops.{ClosingsFindAQuorum, ClosingsMeetLimits};
ghost use Rattle.closing_laws.specs.Quick.{ClosingsAreQuick, ClosingsAreSharplyBounded};
ghost use Rattle.closing_laws.specs.Views.{HasBest, HasStarted, IsCovered, IsReadyMember, gathering, in_started, in_view, started_with, vote_letters, voting};

/// Where a majority of a group takes part, the members that a closing takes are a quorum: f + 1 of those that take part,
/// each once and in ascending order, and the primary of the closing's view is one of them.
pub fn members_are_a_quorum<B>()
    ensures { WhereMostAreUp B (λ group states. HasAQuorum group states (members_that_close group states)) }
{}

/// There the view of a closing is above the views and the promises of all that take part, its primary takes part, and no
/// lower view is so.
pub fn view_is_the_least<B>()
    ensures { WhereMostAreUp B (λ group states. HasTheLeastView group states) }
{}

/// A member of a group of several that suspects a view enters it, saves its promise, and asks the others for their votes.
pub fn suspicion_enters()
    ensures { (n w j : ℕ) (s : VrState) → IsReadyMember n w j s → 0 < n / 2 →
        vr_step s (vr_input.Suspect w) ≡ record { state = in_view s w [] false [] None; promise = Some w; letters = to_others s (message.StartViewChange w) } }
{}

/// A member alone in its group starts the view as it suspects, and all of its log is committed.
pub fn alone_starts()
    ensures { (w : ℕ) (s : VrState) → IsReadyMember 1 w 0 s →
        vr_step s (vr_input.Suspect w) ≡ record { state = started_view (gathering s w [] [] None) s.log s.commit s.commit; promise = Some w; letters = [] } }
{}

/// A vote is counted, while a member lacks votes. With the last one a member tells the primary its log, and the primary
/// keeps its own.
pub fn votes_are_counted()
    ensures { (n w from j : ℕ) (s : VrState) (voters : List ℕ) → IsReadyMember n w j s → from < n → (from ≡ j → ⊥) →
        has voters from ≡ false → length voters < n / 2 →
        vr_step (voting (n / 2) w (w % n) s voters) (vr_input.From from (message.StartViewChange w)) ≡
        sends (voting (n / 2) w (w % n) s (with_number from voters)) (vote_letters (n / 2) w (w % n) s voters) }
{}

/// A log of another member is collected by the primary, and nothing is said while logs are lacking.
pub fn logs_are_collected()
    ensures { (n w : ℕ) (s : VrState) (voters : List ℕ) (logs : List Collected) (c : Collected) → IsReadyMember n w (w % n) s →
        c.from < n → (c.from ≡ w % n → ⊥) →
        has_collected (gathering s w voters logs None) c.from ≡ false → suc (length logs) < n / 2 →
        vr_step (gathering s w voters logs None) (vr_input.From c.from (message.DoViewChange w c.normal c.commit c.log)) ≡ quiet (gathering s w voters (logs ++ c ∷ []) None) }
{}

/// With the last log the view starts from the best of them, where that begins no later than what the primary knows as
/// committed, and leaves all of this in place.
pub fn last_log_starts()
    ensures { (n w : ℕ) (s : VrState) (voters : List ℕ) (logs : List Collected) (c : Collected) → IsReadyMember n w (w % n) s →
        c.from < n → (c.from ≡ w % n → ⊥) →
        has_collected (gathering s w voters logs None) c.from ≡ false → suc (length logs) ≡ n / 2 → (best : Collected) →
        best_of (own_log s) (logs ++ c ∷ []) ≡ best →
        best.commit ≤ s.commit → (log : List Entry) → take best.commit s.log ++ best.log ≡ log →
        is_sound s (started_with s w voters (logs ++ c ∷ []) log) ≡ true →
        vr_step (gathering s w voters logs None) (vr_input.From c.from (message.DoViewChange w c.normal c.commit c.log)) ≡ tells_start (started_with s w voters (logs ++ c ∷ []) log) }
{}

/// Where it begins later, what the primary lacks is fetched from the member of that log.
pub fn last_log_is_fetched()
    ensures { (n w : ℕ) (s : VrState) (voters : List ℕ) (logs : List Collected) (c : Collected) → IsReadyMember n w (w % n) s →
        c.from < n → (c.from ≡ w % n → ⊥) →
        has_collected (gathering s w voters logs None) c.from ≡ false → suc (length logs) ≡ n / 2 → (best : Collected) →
        best_of (own_log s) (logs ++ c ∷ []) ≡ best →
        s.commit < best.commit →
        vr_step (gathering s w voters logs None) (vr_input.From c.from (message.DoViewChange w c.normal c.commit c.log)) ≡
        sends (gathering s w voters (logs ++ c ∷ []) None) (letter (message.Fetch w s.commit) best.from ∷ []) }
{}

/// One of several members has a log that is better than that of each other.
pub fn one_log_is_best()
    ensures { (quorum : List ℕ) (start : ℕ → VrState) → 0 < length quorum → (best : ℕ) × HasBest quorum start best }
{}

/// A member that waits in the view takes its log as it hears that the view has started: its own first entries and those that
/// came are the whole log, nothing is asked for, and what goes beyond the commit number is acknowledged.
pub fn log_is_adopted()
    ensures { (n w j : ℕ) (s : VrState) (voters : List ℕ) (sent : Bool) (logs : List Collected) (supply : Option Supplied) (log : List Entry) (base commit : ℕ) →
        IsReadyMember n w j s → (w % n ≡ j → ⊥) → base ≤ s.commit → s.commit ≤ commit → commit ≤ length log → is_log log ≡ true →
        take s.commit s.log ≡ take s.commit log →
        vr_step (in_view s w voters sent logs supply) (vr_input.From (w % n) (message.StartView w base commit (drop base log))) ≡
        sends (in_started (in_view s w voters sent logs supply) w log commit)
        (if nat_lt commit (length log) then letter (message.PrepareOk w (length log)) (w % n) ∷ [] else []) }
{}

/// A quorum of a group of several suspects a view above all that its members know, one member after another, and then what
/// waits is drained, the packet of the lowest number first. The view starts, from the best log of the quorum, in exactly
/// f * f + 3 * f + 1 turns, and two more where its primary has to fetch.
pub fn view_starts()
    ensures { (n w : ℕ) (quorum : List ℕ) (start : ℕ → VrState) → IsQuorum n w quorum → ((j : ℕ) → has quorum j ≡ true →
        IsReadyMember n w j (start j)) → 0 < n / 2 →
        (best : ℕ) → HasBest quorum start best → IsCovered quorum start best →
        (packets : ℕ) × HasStarted n w quorum start best (drains packets quorum (all_suspected (resting_group start) w quorum)) }
{}

/// So it is in every run: a closing over a past in which nothing waits or is owed starts its view from the best log of its
/// quorum, with exactly f * f + 3 * f + 1 turns, and two more where its primary has to fetch, and doesn't end before. Each
/// save has to succeed, and the journal is within its limits.
pub fn views_start_in_time<B>()
    ensures { ViewsStartInTime B }
{}

/// A closing that ends has left nothing undone, whatever it began behind, and however often a failed save made it begin again:
/// nothing waits, each switch is at rest, each event is processed, and what the primary that closed has committed is what is
/// decided. The applications may give at most 128 commands for an event, by their kinds, and the journal is within its limits.
pub fn closings_rest<B>()
    ensures { ClosingsRest B }
{}

/// A closing that a majority takes part in as it begins finds its quorum, where each save in it succeeds: that too few take part
/// is its answer only where it began with too few, or a save failed.
pub fn closings_find_a_quorum<B>()
    ensures { ClosingsFindAQuorum B }
{}

/// A closing that ends for want of room in a log tells of a controller of its group that leads, whose log is as it tells, and
/// which an entry more would take past the limits of a log. Then the events that the switches have made don't fit a log, each
/// with the entries that it was received and that it is processed.
pub fn closings_meet_limits<B>()
    ensures { ClosingsMeetLimits B }
{}

/// A closing takes no more turns than the sharper of two bounds says, and so than the other, at each moment of it at which all
/// is posted, where each save in it succeeds, its journal is within the limits, and the applications give at most 128 commands
/// for an event.
pub fn closings_are_quick<B>()
    ensures sharp { ClosingsAreSharplyBounded B }
    ensures quick { ClosingsAreQuick B }
{}

/// Each switch holds the events that it made in its present life, but for so many of the first as have left.
pub fn events_are_kept<B>()
    ensures { EventsAreKept B }
{}
