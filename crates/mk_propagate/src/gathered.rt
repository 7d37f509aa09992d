//! Whose messages a product has.

ghost use Rattle.std.specs.Prelude.{◌≡◌};
ghost use Rattle.mk_propagate.specs.inner.Gathered.{leaves_out, still_marked};

/// Whose messages a product over the core of a clique has: those of all its neighbours, or of all but one, as they are. Where it is
/// `Nothing`, the product is of no use.
#[derive(Clone, Copy)]
pub(crate) enum Gathered {
    Nothing,
    Everything,
    AllBut(u32),
}

impl Gathered {
    /// Whether these are the messages of all neighbours but one.
    pub(crate) fn leaves_out(self, neighbour: u32) -> bool
        ensures { result ≡ leaves_out neighbour self }
    {
        match self {
            Gathered::AllBut(missing) => missing == neighbour,
            _ => false,
        }
    }

    /// What is left of it where a neighbour's message is made anew: a product without that message is as it was.
    pub(crate) fn without(self, neighbour: u32) -> Gathered
        ensures { result ≡ still_marked neighbour self }
    {
        if self.leaves_out(neighbour) {
            self
        } else {
            Gathered::Nothing
        }
    }
}
