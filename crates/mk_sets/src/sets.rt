//! Sets of variables.

ghost use Rattle.std.specs.Prelude.{◌≡◌, ℕ, ◌<◌, ◌≤◌, ◌&&◌, ◌||◌, ◌==◌, ◌↔◌, not, nat_eq, true, false, IsTrue, IfSome, IfNone};
ghost use Rattle.std.specs.Cmp.{partial_equiv_from_equiv};
ghost use Rattle.std.specs.Cmp.Lexicographic.{pointwise, nat_list_eq_equiv};
ghost use Rattle.mk_sets.specs.Sets.{is_member, IsSubset, no_variables, with_member};
ghost use Rattle.mk_net.specs.Bounds.{max_variables};

use std::marker::Model;

/// A set of variables below 256, one bit for each: those below 128 in `low`.
#[derive(Clone, Copy, Debug)]
pub struct VarSet {
    low: u128,
    high: u128,
}

impl Model for VarSet {
    ghost use Rattle.std.specs.Prelude.{ℕ, List};
    ghost use Rattle.mk_sets.specs.inner.KeptSets.{IsKeptSet, kept_set, words_of, words_back};

    ghost Value = { List ℕ };

    ghost view = { kept_set };

    ghost invariant = { IsKeptSet };

    ghost inverse = { words_of };

    ghost inverse_ok = { words_back };
}

impl PartialEq for VarSet {
    ghost eq = { pointwise nat_eq };

    ghost laws = { partial_equiv_from_equiv nat_list_eq_equiv };

    fn eq(&self, other: &VarSet) -> bool {
        self.low == other.low && self.high == other.high
    }
}

impl Eq for VarSet {
    ghost laws = { nat_list_eq_equiv };
}

impl VarSet {
    /// The set without variables.
    pub fn empty() -> VarSet
        ensures members { (x : ℕ) → is_member result x ≡ false }
        ensures set { result ≡ no_variables }
    {
        VarSet { low: 0, high: 0 }
    }

    /// The set with one variable more.
    pub fn with(&self, variable: u32) -> VarSet
        requires { variable < max_variables }
        ensures members { (x : ℕ) → is_member result x ≡ (x == variable) || is_member self.now x }
        ensures set { result ≡ with_member variable self.now }
    {
        if variable < 128 {
            VarSet {
                low: self.low | 1 << variable,
                high: self.high,
            }
        } else {
            VarSet {
                low: self.low,
                high: self.high | 1 << (variable - 128),
            }
        }
    }

    /// Whether a variable is in the set. No variable from 256 on is.
    pub fn has(&self, variable: u32) -> bool
        ensures { result ≡ is_member self.now variable }
    {
        let (low, high) = (self.low, self.high);
        if variable < 128 {
            low >> variable & 1 == 1
        } else {
            variable < 256 && high >> (variable - 128) & 1 == 1
        }
    }

    /// Whether each of its variables is in the other set.
    pub fn is_within(&self, other: &VarSet) -> bool
        ensures { IsTrue result ↔ IsSubset self.now other.now }
    {
        self.low & other.low == self.low && self.high & other.high == self.high
    }

    /// Whether no variable is in the set.
    pub fn is_empty(&self) -> bool
        ensures { IsTrue result ↔ ((x : ℕ) → is_member self.now x ≡ false) }
    {
        self.low == 0 && self.high == 0
    }

    /// The variables of either set.
    pub fn union(&self, other: &VarSet) -> VarSet
        ensures { (x : ℕ) → is_member result x ≡ is_member self.now x || is_member other.now x }
    {
        VarSet {
            low: self.low | other.low,
            high: self.high | other.high,
        }
    }

    /// The variables that both sets have.
    pub fn common(&self, other: &VarSet) -> VarSet
        ensures { (x : ℕ) → is_member result x ≡ is_member self.now x && is_member other.now x }
    {
        VarSet {
            low: self.low & other.low,
            high: self.high & other.high,
        }
    }

    /// Its variables that the other set does not have.
    pub fn without(&self, other: &VarSet) -> VarSet
        ensures { (x : ℕ) → is_member result x ≡ is_member self.now x && not (is_member other.now x) }
    {
        VarSet {
            low: self.low & !other.low,
            high: self.high & !other.high,
        }
    }

    /// Its first variable. None exactly where it has none.
    pub fn first(&self) -> Option<u32>
        ensures member { IfSome result (λ x. is_member self.now x ≡ true) }
        ensures least { IfSome result (λ x. (y : ℕ) → y < x → is_member self.now y ≡ false) }
        ensures below { IfSome result (λ x. x < max_variables) }
        ensures none { IfNone result ((x : ℕ) → is_member self.now x ≡ false) }
    {
        if self.low != 0 {
            Some(self.low.trailing_zeros())
        } else if self.high != 0 {
            Some(128 + self.high.trailing_zeros())
        } else {
            None
        }
    }
}
