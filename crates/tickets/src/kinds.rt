// Our own kinds on tickets: each part is a signed number of four bytes, two's complement, high byte first.
ghost use Rattle.std.specs.Prelude.{◌≡◌, ◌==◌, ◌++◌, cond, length, take, replicate, Some, None};
ghost use Rattle.tickets.specs.Parts.{part_of};
ghost use Rattle.tickets.specs.Kinds.{plain_codec, plain_bytes, paired_codec, paired_bytes};
ghost use Rattle.std.proofs.Common.{rules};

use crate::TicketWeight;
use weights::{Paired, Plain};

// The part that these bytes write, if they are four.
fn part_of(bytes: &[u8]) -> Option<i32>
    ensures { result ≡ cond (length bytes.now == 4) (Some (part_of bytes.now)) None }
{
    let bytes: [u8; 4] = bytes.try_into().ok()?;
    Some(i32::from_be_bytes(bytes))
}

impl TicketWeight for Plain {
    ghost codec = { plain_codec };

    ghost meant = { Prim.search rules };

    fn kind_byte() -> u8 {
        0
    }

    fn width() -> u8 {
        4
    }

    fn bytes(self) -> [u8; 64]
        ensures front { take plain_codec.width result ≡ plain_codec.put self }
        ensures whole { result ≡ plain_bytes self ++ replicate 60 0 }
    {
        let mut all = [0; 64];
        all[0..4].copy_from_slice(&self.value().to_be_bytes());
        all
    }

    // A number beyond the limit would be cut, and is the number of no weight.
    fn from_bytes(bytes: &[u8]) -> Option<Plain> {
        let number = part_of(bytes)?;
        let weight = Plain::new(i64::from(number));
        (weight.value() == number).then_some(weight)
    }
}

impl TicketWeight for Paired {
    ghost codec = { paired_codec };

    ghost meant = { Prim.search rules };

    fn kind_byte() -> u8 {
        1
    }

    fn width() -> u8 {
        8
    }

    fn bytes(self) -> [u8; 64]
        ensures front { take paired_codec.width result ≡ paired_codec.put self }
        ensures whole { result ≡ paired_bytes self ++ replicate 56 0 }
    {
        let mut all = [0; 64];
        all[0..4].copy_from_slice(&self.grey().to_be_bytes());
        all[4..8].copy_from_slice(&self.dark().to_be_bytes());
        all
    }

    fn from_bytes(bytes: &[u8]) -> Option<Paired> {
        let (front, back) = bytes.split_at_checked(4)?;
        let grey = part_of(front)?;
        let dark = part_of(back)?;
        let weight = Paired::new(i64::from(grey), i64::from(dark));
        (weight.grey() == grey && weight.dark() == dark).then_some(weight)
    }
}
