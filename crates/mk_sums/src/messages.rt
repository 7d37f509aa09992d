//! What a message is made of, and what is read from messages.
ghost use Rattle.mk_sums.specs.Laws.{MessageLaw, MessageReads, ReadLaw};

/// A message is made of what is placed in its sender and of the messages from the sender's other neighbours.
pub fn message_law()
    ensures { MessageLaw }
{}

/// The joint value of an event is read in any clique that holds it, from the messages of all its neighbours.
pub fn read_law()
    ensures { ReadLaw }
{}

/// A message reads only the variables that its two ends share.
pub fn message_reads()
    ensures { MessageReads }
{}
