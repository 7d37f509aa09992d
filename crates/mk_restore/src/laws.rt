//! Laws of what is taken back.
ghost use Rattle.mk_restore.specs.Laws.{AllowedFits, RunIsRestored, FrontStands};
ghost use Rattle.mk_restore.specs.Laws.{FitIsSafe, OpeningIsSafe, RestoredIsSafe};
ghost use Rattle.mk_restore.specs.Laws.{FitAppends, EachCounts, RestoresOne, RestoresJoin};
ghost use Rattle.mk_restore.specs.Laws.{FitQuotesNobody, FrontIsRestored};
ghost use Rattle.mk_restore.specs.Laws.{CommandIsOneLine, RecordSplits, RecordHoldsOne};
ghost use Rattle.mk_restore.specs.Laws.{RecordIsShort};

/// An allowed reply that appends an entry is taken back: what this market wrote fits.
pub fn allowed_fits()
    ensures { AllowedFits }
{}

/// The changes of a run give its history back.
pub fn run_is_restored()
    ensures { RunIsRestored }
{}

/// From a history that stands, each front of a run's changes gives one that stands.
pub fn front_stands()
    ensures { FrontStands }
{}

/// The opening has all that a market's safety rests on.
pub fn opening_is_safe()
    ensures { OpeningIsSafe }
{}

/// A change that is taken back keeps it, whatever its units are.
pub fn fit_is_safe()
    ensures { FitIsSafe }
{}

/// So do many.
pub fn restored_is_safe()
    ensures { RestoredIsSafe }
{}

/// A change that is taken back appends an entry.
pub fn fit_appends()
    ensures { FitAppends }
{}

/// The revision grows by the number of changes.
pub fn each_counts()
    ensures { EachCounts }
{}

/// Where nobody was quoted anything, a change that is taken back leaves nobody quoted.
pub fn fit_quotes_nobody()
    ensures { FitQuotesNobody }
{}

/// Changes give one history.
pub fn restores_one()
    ensures { RestoresOne }
{}

/// Changes that are taken back behind others are taken back with them.
pub fn restores_join()
    ensures { RestoresJoin }
{}

/// Each front of changes that are taken back is taken back.
pub fn front_is_restored()
    ensures { FrontIsRestored }
{}

/// No command's text has an LF.
pub fn command_is_one_line()
    ensures { CommandIsOneLine }
{}

/// The first LF of a record stands between its command and its reply.
pub fn record_splits()
    ensures { RecordSplits }
{}

/// A record holds one change.
pub fn record_holds_one()
    ensures { RecordHoldsOne }
{}

/// A record has 1 to 34,000 bytes.
pub fn record_is_short()
    ensures { RecordIsShort }
{}
