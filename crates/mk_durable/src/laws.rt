//! Laws of what a store file gives back.
ghost use Rattle.mk_durable.specs.Laws.{GivesOne, RefusesNoneGiven, RefusesNoHonest};
ghost use Rattle.mk_durable.specs.Laws.{OneFault, StaysHonest};

/// A file gives back one list of records, and one history.
pub fn gives_one()
    ensures { GivesOne }
{}

/// A file that gives a history back is not refused.
pub fn refuses_none_given()
    ensures { RefusesNoneGiven }
{}

/// An honest file is not refused.
pub fn refuses_no_honest()
    ensures { RefusesNoHonest }
{}

/// A file is refused in one way: as foreign from one place on, or for one record.
pub fn one_fault()
    ensures { OneFault }
{}

/// An honest store stays honest: an empty file is, and so is what a crash leaves of an opening or
/// of a run over an honest store.
pub fn stays_honest()
    ensures { StaysHonest }
{}
