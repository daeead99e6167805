// Replies: they have numbers, since they are those of the C interface (§7.17); a refusal inside the layer is an `HfeRefusal`.
ghost use Rattle.std.specs.Prelude.{◌≡◌};
ghost use Rattle.sector_rules.specs.Replies as Replies;

use sector_rules::Reply;

// Done, with no place named (§7.17).
pub fn done() -> Reply
    ensures { result ≡ Replies.done }
{
    Reply {
        number: 0,
        first: 0,
        second: 0,
        third: 0,
    }
}

// Done, with the first place named (§7.17).
pub fn done_with(first: usize) -> Reply
    ensures { result ≡ Replies.reply_with 0 first 0 0 }
{
    Reply {
        number: 0,
        first,
        second: 0,
        third: 0,
    }
}

// A refusal with its number and first place (§7.17).
pub fn refused(number: usize, first: usize) -> Reply
    ensures { result ≡ Replies.reply_with number first 0 0 }
{
    Reply {
        number,
        first,
        second: 0,
        third: 0,
    }
}
