//! Laws of the texts of replies.

ghost use Rattle.std.specs.Prelude.{◌≡◌, ◌<◌, length, MatchResult};
ghost use Rattle.mk_reply.specs.Below.{MAX_ANSWER_BYTES};
ghost use Rattle.mk_reply.specs.Replies.{IsReply, reply_text};
ghost use Rattle.mk_reply.specs.declared.reply.Reply.{Reply};

use crate::print::print_reply;
use crate::read::read_reply;
use crate::reply::Reply;
use crate::unread::Unread;
use arrayvec::ArrayString;
use std::alloc::Global;

/// No two replies share a text.
pub fn one_reply_each()
    ensures { (r s : Reply) → IsReply r → IsReply s → reply_text r ≡ reply_text s → r ≡ s }
{}

/// The text of each reply is shorter than 32,768 bytes.
pub fn short_replies()
    ensures { (r : Reply) → IsReply r → length (reply_text r) < MAX_ANSWER_BYTES }
{}

/// What is read of the text of a reply: the same reply, unless memory was wanting.
pub fn read_printed(alloc: Global, reply: &Reply) -> Result<Reply, Unread>
    requires { IsReply reply.now }
    ensures { MatchResult result (λ read. read ≡ reply.now) (λ unread. unread ≡ Unread.Memory) }
{
    let mut text = ArrayString::new();
    print_reply(reply, &mut text);
    read_reply(alloc, text.as_bytes())
}
