// Writes a listing, piece by piece.
#![tactic(auto)]

ghost use Rattle.std.specs.Prelude.{◌≡◌, ◌<◌, length};
ghost use Rattle.streams.specs.believed.Sent.{Sent};
ghost use Rattle.listing_text.specs.believed.Listing.{listing};
ghost use Rattle.listing_text.specs.believed.Written.{Written};

use lines::Text;
use listing_text::Piece;
use std::io::Write;
use streams::Sink;

// Writes the listing of the two files in pieces as long as the buffer, and then what is left in it; answers that last piece.
// Where the sink has no error at the end, and what its writer holds is known, the listing is what it writes, if the buffer has room for a byte.
pub fn write_listing<W: Write>(
    grammar: &[u8],
    history: &[u8],
    text: &mut [u8],
    sink: &mut Sink<W>,
) -> Piece
    ensures pieces { Written (listing grammar.now history.now) text.old result text.new }
    ensures sent { 0 < length text.old → Sent W.contents sink.old sink.new (listing grammar.now history.now) }
{
    let mut listed = Text::new(text, sink);
    listing_text::list(grammar, history, &mut listed);
    let Text { out, cursor, sink } = listed;
    sink.put(&out[..cursor.at]);
    Piece {
        end: cursor.before + cursor.at,
        length: cursor.at,
        more: false,
    }
}
