//! What a judge answers.
ghost use Rattle.std.specs.Prelude.{◌≡◌};
ghost use Rattle.mk_judge.specs.Compared.{where_at_most, where_above};
ghost use Rattle.mk_judge.specs.Judged.{both, one_of, where_true};

use crate::comparing::Compared;

/// What is printed is allowed, or it is not, or the enclosures leave that open.
#[derive(Clone, Copy, Debug, PartialEq, Eq)]
pub enum Judged {
    Allowed,
    Wrong,
    Unclear,
}

impl Judged {
    /// Where the one number has to be at most the other.
    pub fn at_most(compared: Compared) -> Judged
        ensures { result ≡ where_at_most compared }
    {
        match compared {
            Compared::AtMost => Judged::Allowed,
            Compared::Above => Judged::Wrong,
            Compared::Unsure => Judged::Unclear,
        }
    }

    /// Where the one number has to be above the other.
    pub fn above(compared: Compared) -> Judged
        ensures { result ≡ where_above compared }
    {
        match compared {
            Compared::AtMost => Judged::Wrong,
            Compared::Above => Judged::Allowed,
            Compared::Unsure => Judged::Unclear,
        }
    }

    /// Where both have to be allowed: one that is wrong decides.
    pub fn and(self, other: Judged) -> Judged
        ensures { result ≡ both self other }
    {
        match (self, other) {
            (Judged::Wrong, _) | (_, Judged::Wrong) => Judged::Wrong,
            (Judged::Unclear, _) | (_, Judged::Unclear) => Judged::Unclear,
            (Judged::Allowed, Judged::Allowed) => Judged::Allowed,
        }
    }

    /// Where one of both has to be allowed: one that is decides.
    pub(crate) fn or(self, other: Judged) -> Judged
        ensures { result ≡ one_of self other }
    {
        match (self, other) {
            (Judged::Allowed, _) | (_, Judged::Allowed) => Judged::Allowed,
            (Judged::Unclear, _) | (_, Judged::Unclear) => Judged::Unclear,
            (Judged::Wrong, Judged::Wrong) => Judged::Wrong,
        }
    }

    /// Where a test has to be true.
    pub(crate) fn where_true(test: bool) -> Judged
        ensures { result ≡ where_true test }
    {
        if test { Judged::Allowed } else { Judged::Wrong }
    }
}
