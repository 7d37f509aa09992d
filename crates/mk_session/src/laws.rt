//! What allowed runs keep.
ghost use Rattle.mk_session.specs.Laws.{EndsSafely};

/// After its last line too an allowed run leaves nobody who can be bankrupt, and bounded gains.
pub fn ends_safely()
    ensures { EndsSafely }
{}
