//! Judgements of replies to commands that are refused.
ghost use Rattle.std.specs.Prelude.{◌≡◌};
ghost use Rattle.mk_reply.specs.declared.reply.Reply.TheVariants.{Refused};
ghost use Rattle.mk_judge.specs.Judged.{Judges};

use mk_judge::Judged;
use mk_reply::{Refusal, Reply};

/// Judges a reply to a command that is refused: that refusal alone is allowed.
pub fn judge_refused(why: &Refusal, reply: &Reply) -> Judged
    ensures { Judges result (reply.now ≡ Refused why.now) ⊥ }
{
    match reply {
        Reply::Refused { why: told } => {
            if told == why {
                Judged::Allowed
            } else {
                Judged::Wrong
            }
        }
        _ => Judged::Wrong,
    }
}
