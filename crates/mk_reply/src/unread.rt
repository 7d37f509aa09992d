//! Why bytes are not read as a reply.

ghost use Rattle.std.specs.Prelude.{◌≡◌};
ghost use Rattle.mk_reply.specs.declared.unread.Unread.TheVariants.{Memory};

use mk_net::NoMemory;
use thiserror::Error;

/// Why some bytes are not read as a reply.
#[derive(Clone, Copy, Debug, PartialEq, Eq, Error)]
pub enum Unread {
    /// They are the text of no reply.
    #[error("no such text")]
    Syntax,
    /// They begin as a settlement does, for which memory was wanting.
    #[error("out of memory")]
    Memory,
}

impl From<NoMemory> for Unread {
    ghost from_gives = { λ _ e. e ≡ Memory };

    fn from(_e: NoMemory) -> Unread {
        Unread::Memory
    }
}
