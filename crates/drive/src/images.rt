// Requests for images and for BLIF texts.
use crate::wire::Reply;
use crate::{nets, rooms};
use letters::Wrote;
use network::Network;

// `write ; NET ; ROOM`, `write-blif ; NET ; ROOM`: the groups after the first, by the writer of the one or the other.
pub fn write<F: FnOnce(Network, &mut [u8]) -> Wrote>(
    text: &[u8],
    writer: F,
    reply: &mut Reply,
) -> Option<()>
    requires { F.IsAlwaysCallable writer }
{
    let network = nets::read_net(text)?;
    let lent = drive_request::tail(drive_request::tail(drive_request::tail(text)));
    let mut room = rooms::bytes();
    let r = drive_request::bytes(lent, &mut room)?;
    let a = writer(network, &mut room[..r]);
    reply.left(a, &room[..r]);
    Some(())
}
