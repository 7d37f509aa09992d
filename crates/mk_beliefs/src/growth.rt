//! How the meanings begin, and what one more entry does to them.
ghost use Rattle.mk_beliefs.specs.Laws.{OpeningIsRows, WeightsGrow, GainsGrow, NewcomerHasNone};

/// Before any entry the weights are the rows of each variable, and a user has no factor.
pub fn opening_is_rows()
    ensures { OpeningIsRows }
{}

/// A trade multiplies the weights by its ratio, a resolution is known from then on, and no other entry changes them.
pub fn weights_grow()
    ensures { WeightsGrow }
{}

/// A user's own trade multiplies the gains by its ratio, a resolution is known from then on, and no other entry changes them.
pub fn gains_grow()
    ensures { GainsGrow }
{}

/// Who joins next has no factor, and knows what is resolved.
pub fn newcomer_has_none()
    ensures { NewcomerHasNone }
{}
