// The sum modulo 256 that ends a packet and a read's reply.
ghost use Rattle.std.specs.Prelude.{◌≡◌, ◌∷◌};
ghost use Rattle.packet.specs.Packet.{checksum as checksum_of};

#[tactic(auto, using(crate::proofs::PacketLaws::checksum_behind), unfolding(crate::specs::Packet::checksum, crate::specs::Packet::total))]
pub fn checksum(first: u8, count: u8, bytes: &[u8]) -> u8
    ensures { result ≡ checksum_of (first ∷ count ∷ bytes.now) }
{
    let mut sum = first.wrapping_add(count);
    for byte in bytes {
        sum = sum.wrapping_add(*byte);
    }
    sum
}
