//! The texts of a sample market.

ghost use Rattle.std.specs.Prelude.{◌≡◌};

use std::marker::Model;

/// Bytes of a text, each line of which ends with LF.
#[derive(Drop)]
pub struct Bytes {
    text: Vec<u8>,
}

impl Model for Bytes {
    ghost use Rattle.std.specs.Prelude.{ℕ, List};

    ghost Value = { List ℕ };

    ghost view = { λ b. b.text.items };
}

impl Bytes {
    /// The bytes of a text.
    pub(crate) fn of(text: Vec<u8>) -> Bytes
        ensures { result ≡ text.items }
    {
        Bytes { text }
    }

    /// All of them, in order.
    pub fn bytes(&self) -> &[u8]
        ensures { result.now ≡ self.now }
    {
        self.text.as_slice()
    }
}

/// A market file, and commands for a market that is started from it.
#[derive(Drop)]
pub struct Sample {
    pub file: Bytes,
    pub commands: Bytes,
}
