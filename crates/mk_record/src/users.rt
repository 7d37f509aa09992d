//! The users of a market.

ghost use Rattle.std.specs.Prelude.{◌≡◌, ◌<◌, ◌≤◌, [], ◌∷◌, ◌++◌, false, length, position, is_some, Some, IfSome, OnOk, OnErr, slice_get, option_copied};
ghost use Rattle.mk_record.specs.Below.{list_any, max_users, same_text};
ghost use Rattle.mk_record.specs.Members.{new_member, names_of, assets_of, quotes_of, with_quote};

use crate::last_quote::LastQuote;
use indexmap::IndexSet;
use mk_assets::Assets;
use mk_engine::Engine;
use mk_names::Name;
use mk_net::NoMemory;
use mk_semiring::MinProd;
use std::alloc::Global;
use std::marker::Model;

/// A user: a name, assets, and the last quote.
#[derive(Drop)]
pub struct Member<A: Engine<MinProd>> {
    pub name: Name,
    pub assets: Assets<A>,
    pub quote: Option<LastQuote>,
}

/// The users in the order of joining; each is found by name.
#[derive(Drop)]
pub struct Users<A: Engine<MinProd>> {
    names: IndexSet<Name>,
    members: Vec<Member<A>>,
}

impl<A: Engine<MinProd>> Model for Users<A> {
    ghost use Rattle.std.specs.Prelude.{List};
    ghost use Rattle.mk_record.specs.declared.users.Member.{Member};
    ghost use Rattle.mk_record.specs.inner.Enrolled.{IsEnrolled};
    ghost use Rattle.std.specs.Coded.{codes};
    ghost use Rattle.mk_record.specs.contracts.last_quote.LastQuote as quote;

    ghost Value = { List (Member A A.Plan) };

    ghost coded = { Prim.hlevel (codes, quote.the_row.coded, A.code, A.Plan.code) };

    ghost view = { λ u. u.members.items };

    ghost invariant = { λ u. IsEnrolled u.names.keys u.members.items };
}

impl<A: Engine<MinProd>> Users<A> {
    ghost use Rattle.std.specs.Borrow.{sem};
    ghost use Rattle.mk_record.specs.Lending.{LendsAssets};

    /// Nobody. It takes no memory.
    pub fn none(alloc: Global) -> Users<A>
        ensures { result ≡ [] }
    {
        Users {
            names: IndexSet::new(alloc),
            members: Vec::new(alloc),
        }
    }

    /// How many users there are.
    pub fn count(&self) -> u32
        ensures count { result ≡ length self.now }
        ensures few { result ≤ max_users }
    {
        self.members.len() as u32
    }

    /// The number of the user of a name. None exactly where nobody has it.
    pub fn find(&self, name: &Name) -> Option<u32>
        ensures place { result ≡ position (same_text name.now) (names_of self.now) }
        ensures joined { is_some result ≡ list_any (same_text name.now) (names_of self.now) }
        ensures within { IfSome result (λ user. user < length self.now) }
    {
        let place = self.names.get_index_of(name)?;
        Some(place as u32)
    }

    /// A user's name.
    pub fn name(&self, user: u32) -> Name
        requires { user < length self.now }
        ensures { slice_get (names_of self.now) user ≡ Some result }
    {
        self.members[user as usize].name
    }

    /// A user's last quote.
    pub fn quote(&self, user: u32) -> Option<&LastQuote>
        requires { user < length self.now }
        ensures { slice_get (quotes_of self.now) user ≡ Some (option_copied result) }
    {
        self.members[user as usize].quote.as_ref()
    }

    /// Keeps a quote as a user's last one.
    pub fn set_quote(&mut self, user: u32, quote: LastQuote)
        requires { user < length self.old }
        ensures { self.new ≡ with_quote self.old user quote }
    {
        let member = &mut self.members[user as usize];
        member.quote = Some(quote);
    }

    /// A user's assets.
    pub fn assets(&mut self, user: u32) -> &mut Assets<A>
        requires { user < length self.old }
        ensures* writes_back { sem 𝓛 (LendsAssets A.row A.Plan.row A.Engine self.entry user result) }
        ensures value { slice_get (assets_of self.old) user ≡ Some result.now }
    {
        let member = &mut self.members[user as usize];
        &mut member.assets
    }

    /// Gives each user the assets at the user's place in the list. It takes no memory.
    pub fn renew(&mut self, assets: Vec<Assets<A>>)
        requires one_each { length assets.items ≡ length self.old }
        ensures names { names_of self.new ≡ names_of self.old }
        ensures assets { assets_of self.new ≡ assets.items }
        ensures quotes { quotes_of self.new ≡ quotes_of self.old }
    {
        let mut renewed = assets.into_iter();
        for member in self.members.iter_mut() {
            member.assets = renewed.next().unwrap();
        }
    }

    /// Adds a user who was given no quote. Without memory the users stay as they are.
    pub fn join(&mut self, name: Name, assets: Assets<A>) -> Result<(), NoMemory>
        requires few { length self.old < max_users }
        requires new { list_any (same_text name) (names_of self.old) ≡ false }
        ensures ok { OnOk result (self.new ≡ self.old ++ new_member name assets ∷ []) }
        ensures err { OnErr result (self.new ≡ self.old) }
    {
        self.members.reserve(1)?;
        self.names.insert(name)?;
        self.members.push_reserved(Member {
            name,
            assets,
            quote: None,
        });
        Ok(())
    }
}
