//! Why a few cells are enough.

ghost use Rattle.mk_user_engine.specs.Laws.{UnreadDropOut};

/// Variables that nothing reads drop out of a least value.
pub fn unread_drop_out()
    ensures { UnreadDropOut }
{}
