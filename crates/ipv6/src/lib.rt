// An offered packet, judged by the fixed header of RFC 8200.
#![tactic(auto)]

ghost use Rattle.std.specs.Prelude.{◌≡◌};
ghost use Rattle.ipv6.specs.Ipv6.{is_ipv6};

use quantity::limit::SHORTEST_PACKET;

// The version stands in the higher four bits of the first byte.
const VERSION_UNIT: u8 = 16;

const VERSION: u8 = 6;

const PAYLOAD_LENGTH_AT: usize = 4;

const PAYLOAD_LENGTH_END: usize = 6;

// Whether number 13 lets a packet pass: 40 bytes, version 6, and the Payload Length is the rest.
#[tactic(auto, unfolding(crate::specs::Ipv6::is_ipv6))]
pub fn is_ipv6(packet: &[u8]) -> bool
    ensures { result ≡ is_ipv6 packet.now }
{
    if packet.len() < SHORTEST_PACKET || packet[0] / VERSION_UNIT != VERSION {
        return false;
    }
    let payload = wire::number::read(&packet[PAYLOAD_LENGTH_AT..PAYLOAD_LENGTH_END]) as usize;
    packet.len() == SHORTEST_PACKET + payload
}
