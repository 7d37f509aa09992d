//! The counts of a run's replies.

ghost use Rattle.std.specs.Prelude.{◌≡◌, ◌+◌, List, [], ◌∷◌, ◌++◌};
ghost use Rattle.mk_io.specs.Stream.{max_stream_lines};
ghost use Rattle.mk_tally.specs.Tally.{is_trade, is_refusal, AreCounted};
ghost use Rattle.mk_tally.specs.inner.Counting.{uncounted, IsWithin, HasRoom};

use mk_file::FileFault;
use mk_reply::Reply;

/// The counts of a run: its replies, how many of them are trades and how many refusals, and the
/// last one.
#[derive(Drop)]
pub struct Tally {
    pub replies: u32,
    pub trades: u32,
    pub refused: u32,
    pub last: Option<Reply>,
}

/// Why a run was not counted.
#[derive(Drop)]
pub enum TallyFault {
    /// The market file is refused.
    Market(FileFault),
    /// The commands have more lines or bytes than a stream may have.
    TooMany,
    /// Memory was wanting.
    Memory,
}

impl Tally {
    /// No replies.
    pub fn new() -> Tally
        ensures { result ≡ uncounted }
    {
        Tally {
            replies: 0,
            trades: 0,
            refused: 0,
            last: None,
        }
    }

    /// Counts a reply.
    pub fn add(&mut self, reply: Reply)
        requires room { HasRoom max_stream_lines self.old }
        ensures counts { (earlier : List Reply) → AreCounted earlier self.old
            → AreCounted (earlier ++ reply ∷ []) self.new }
        ensures fits { IsWithin (self.old.replies + 1) self.new }
    {
        self.replies += 1;
        self.trades += u32::from(is_traded(&reply));
        self.refused += u32::from(is_refused(&reply));
        self.last = Some(reply);
    }
}

/// Whether a reply says that a trade was made.
fn is_traded(reply: &Reply) -> bool
    ensures { result ≡ is_trade reply.now }
{
    matches!(reply, Reply::Traded { .. } | Reply::Spreaded { .. })
}

/// Whether a reply refuses its line.
fn is_refused(reply: &Reply) -> bool
    ensures { result ≡ is_refusal reply.now }
{
    matches!(reply, Reply::Refused { .. })
}
