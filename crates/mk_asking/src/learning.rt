//! What a user's assets learn before they are asked.

ghost use Rattle.std.specs.Prelude.{◌≡◌, ◌<◌, length};
ghost use Rattle.mk_asking.specs.Below.{IsOpen, holding_of, names_of, quotes_of};
ghost use Rattle.mk_asking.specs.Apart.{OwnApart};
ghost use Rattle.mk_asking.specs.Keeping.{AreHeld};
ghost use Rattle.mk_asking.specs.Quoting.{OwnsAt};

use mk_engine::Engine;
use mk_file::MarketFile;
use mk_record::{Journal, Users};
use mk_semiring::MinProd;

/// A user's assets learn all pairs that are known. Until they have they cannot be asked: a resolution
/// tells no user, so that it takes as long whoever joined.
pub fn learn<A: Engine<MinProd>>(
    users: &mut Users<A>,
    file: &MarketFile,
    journal: &Journal,
    user: u32,
)
    requires is_open { IsOpen file.now.net file.now.tree journal.now.history }
    requires held { AreHeld A.stands_for file.now.net file.now.tree journal.now.history users.old }
    requires user { user < length users.old }
    ensures learnt { OwnsAt A.stands_for users.new user (holding_of file.now.net file.now.tree journal.now.history user) }
    ensures held { AreHeld A.stands_for file.now.net file.now.tree journal.now.history users.new }
    ensures names { names_of users.new ≡ names_of users.old }
    ensures apart { OwnApart user users.old users.new }
    ensures quotes { quotes_of users.new ≡ quotes_of users.old }
{
    users.assets(user).learn(&file.tree, journal.known());
}
