// Tickets: the certificate that one desk hands another. A well-formed ticket certifies nothing by itself: it only says
// of which word and multipliers somebody claims that they meet.
#![tactic(auto)]

ghost use Rattle.std.specs.Prelude.{◌≡◌, take, Some};
ghost use Rattle.std.specs.Option.{option_map};
ghost use Rattle.tickets.specs.Codecs.{Codec};

use weights::Weight;

mod head;
mod kinds;
mod laws;
mod marks;
mod multipliers;
mod reader;
mod reading;
#[cfg(test)]
mod tests;
mod words;
mod writer;

pub use head::Head;
pub use laws::{only_written_tickets_are_read, worked_tickets, written_tickets_read_back};
pub use reader::TicketReader;
pub use reading::read;
pub use words::{is_word, unpack};
pub use writer::{ticket_len, write};

// A kind of weights that goes on tickets. Kind byte and width are fixed for the kind; the byte is no enum, since kinds are open.
pub trait TicketWeight: Weight {
    ghost codec: { Codec Self };

    fn kind_byte() -> u8
        ensures { result ≡ codec.kind_byte };

    // How many bytes a weight takes, at most 64.
    fn width() -> u8
        ensures { result ≡ codec.width };

    // The bytes of this weight, at the front. An array of one length for all kinds, and no type of the kind's own, which each
    // implementation would have to name.
    fn bytes(self) -> [u8; 64]
        ensures front { take codec.width result ≡ codec.put self };

    // The one weight whose bytes these are, or none.
    fn from_bytes(bytes: &[u8]) -> Option<Self>
        ensures { result ≡ codec.get bytes.now };

    // What is read back means what was written.
    ghost meant: { (w : Self) → option_map Self.Weight.kind.meaning (codec.get (codec.put w)) ≡ Some (Self.Weight.kind.meaning w) };
}
