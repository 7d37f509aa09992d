//! Laws of the store file.
ghost use Rattle.mk_journal.specs.Laws.{OneReading, OneAnswer, StaysHonest, RefusesNoHonest};

/// The bytes of a file hold one list of records.
pub fn one_reading()
    ensures { OneReading }
{}

/// A file is refused at one place, and never where it is this market's up to a malformed record. With `stays_honest`
/// each file gets one answer.
pub fn one_answer()
    ensures { OneAnswer }
{}

/// A file that stands for records is honest: it is this market's, and no record in it is malformed. So an opening leaves an
/// honest store honest, and so does a market that is served over one.
pub fn stays_honest()
    ensures { StaysHonest }
{}

/// An opening answers neither that an honest file is another's nor that a record in it is malformed.
pub fn refuses_no_honest()
    ensures { RefusesNoHonest }
{}
