//! The keys of a market file.

ghost use Rattle.std.specs.Prelude.{◌≡◌};
ghost use Rattle.mk_names.specs.Key.{key_text};

/// A key of the market file, or of one of its variables.
#[derive(Clone, Copy, Debug, PartialEq, Eq)]
pub enum Key {
    PointsPerBit,
    MaxTrades,
    MaxUsers,
    MaxTransfers,
    Variable,
    Cliques,
    Links,
    Zeros,
    Name,
    Values,
    Parents,
    Rows,
}

impl Key {
    /// How the key is written.
    pub fn text(self) -> &'static str
        ensures { result.now ≡ key_text self }
    {
        match self {
            Key::PointsPerBit => "points_per_bit",
            Key::MaxTrades => "max_trades",
            Key::MaxUsers => "max_users",
            Key::MaxTransfers => "max_transfers",
            Key::Variable => "variable",
            Key::Cliques => "cliques",
            Key::Links => "links",
            Key::Zeros => "zeros",
            Key::Name => "name",
            Key::Values => "values",
            Key::Parents => "parents",
            Key::Rows => "rows",
        }
    }
}
