// The packet that a data message carries.
ghost use Rattle.std.specs.Prelude.{◌≡◌};
ghost use Rattle.read_data.specs.Packet.{packet_of};

use meaning::kind::PACKET_DATA;
use wire::option;
use wire::option::FRAME_SIZE;

// The content of the first Packet Data, as that stretch of the caller's own datagram; or nothing.
pub fn packet(datagram: &[u8]) -> &[u8]
    ensures { result.now ≡ packet_of datagram.now }
{
    let mut at: usize = 1;
    // Each option says where the next begins: no `for` or iterator goes by such steps.
    while at < datagram.len() {
        let Some((kind, size)) = option::first(&datagram[at..]) else {
            return &datagram[..0];
        };
        let from = at + FRAME_SIZE;
        let to = from + size;
        if kind == PACKET_DATA {
            return &datagram[from..to];
        }
        at = to;
    }
    &datagram[..0]
}
