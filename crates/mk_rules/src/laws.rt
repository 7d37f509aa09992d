//! What allowed replies keep.
ghost use Rattle.mk_rules.specs.Laws.{AllowedKeeps, RunKeeps, RunStands, UnquotedIsReady, ReadyKeeps, RunKeepsReady, RunIsReady, AlwaysAnswered, RunsExist, StateStaysPossible, BoundedKeeps, NamesKeepBounds, RunStaysBounded, RepliesHaveTexts, RunsJoin, RunIsBounded, SettlementKeeps, RunSettles, BoundIsKept, JudgedExactly, SpreadJudgedExactly, OneRefusal, OneKind, SpreadOneKind};

/// An allowed reply leads from a sound history to a sound one, whatever the line, and users, pairs and units stay in range.
pub fn allowed_keeps()
    ensures { AllowedKeeps }
{}

/// So does a run of any length.
pub fn run_keeps()
    ensures { RunKeeps }
{}

/// After each run from the opening nobody can be bankrupt, and the total weight per unit has not risen.
pub fn run_stands()
    ensures { RunStands }
{}

/// A history that stands is ready where its users were quoted nothing.
pub fn unquoted_is_ready()
    ensures { UnquotedIsReady }
{}

/// An allowed reply leads from a ready standing to a ready one, whatever the line.
pub fn ready_keeps()
    ensures { ReadyKeeps }
{}

/// So does a run of any length.
pub fn run_keeps_ready()
    ensures { RunKeepsReady }
{}

/// The standing after each run from the opening is ready.
pub fn run_is_ready()
    ensures { RunIsReady }
{}

/// In a ready standing every line has an allowed reply.
pub fn always_answered()
    ensures { AlwaysAnswered }
{}

/// From a ready standing every list of lines has a run.
pub fn runs_exist()
    ensures { RunsExist }
{}

/// In a history that stands some state is possible.
pub fn state_stays_possible()
    ensures { StateStaysPossible }
{}

/// An allowed reply to a line that is a text keeps what bounds the history.
pub fn bounded_keeps()
    ensures { BoundedKeeps }
{}

/// So does one to any line, where whoever joins has a name.
pub fn names_keep_bounds()
    ensures { NamesKeepBounds }
{}

/// The history after each run from the opening is bounded.
pub fn run_stays_bounded()
    ensures { RunStaysBounded }
{}

/// In a ready standing of a bounded history an allowed reply has a text.
pub fn replies_have_texts()
    ensures { RepliesHaveTexts }
{}

/// A run that goes on where another ended makes one run with it.
pub fn runs_join()
    ensures { RunsJoin }
{}

/// After each run from the opening, all users together have gained at most one over a possible state's initial
/// probability.
pub fn run_is_bounded()
    ensures { RunIsBounded }
{}

/// A settlement that is allowed costs the operator at most the bound.
pub fn settlement_keeps()
    ensures { SettlementKeeps }
{}

/// In each run from the opening, the payments of each settlement cost the operator at most the bound, by the history that
/// the run leaves.
pub fn run_settles()
    ensures { RunSettles }
{}

/// Whatever comes behind an allowed reply to `bound`, but for added questions, an allowed settlement costs the operator no
/// more than the reply's high end.
pub fn bound_is_kept()
    ensures { BoundIsKept }
{}

/// An edit under limits that were quoted is a trade exactly where its share is inside of them.
pub fn judged_exactly()
    ensures { JudgedExactly }
{}

/// And so is a spread under bounds that were quoted.
pub fn spread_judged_exactly()
    ensures { SpreadJudgedExactly }
{}

/// Where a refusal of the table applies, it is the one reply that is allowed.
pub fn one_refusal()
    ensures { OneRefusal }
{}

/// In the small case an edit has one allowed kind of reply: trades, or refusals.
pub fn one_kind()
    ensures { OneKind }
{}

/// And so has a spread.
pub fn spread_one_kind()
    ensures { SpreadOneKind }
{}
