// Sending: the boot in its pieces, and replies.
ghost use Rattle.std.specs.Prelude.{◌≡◌, ◌≤◌, [], ◌∷◌, length, take, drop, OnOk, OnErr, IfSome};
ghost use Rattle.pt_base.specs.Faults.{HasCause};
ghost use Rattle.pt_base.specs.Talk.{took};
ghost use Rattle.wire.specs.declared.message.Message.TheVariants.{Boot, Reply};
ghost use Rattle.wire.specs.Limits.{KeepsLimits, Spells, longest_piece};
ghost use Rattle.wire.specs.Spelling.{spelling};
ghost use Rattle.pair_meaning.specs.Peer.{boot_frames};
ghost use Rattle.pair_protocol.specs.SlaveRun.{listed};
ghost use Rattle.pair_runner.specs.Sending.{IsSpelled, Parts, Talks, boot_talk, piece_sent, reply_frames, sent_of};

use pt_base::{Bytes, Link, LinkFault};
use std::alloc::Global;
use wire::{Message, ReplyBody, write_message};

/// A piece of a boot has at most as many bytes.
const LONGEST_PIECE: usize = 1_048_576;

// Sends a message in its frame.
fn send_message<L: Link>(alloc: Global, message: &Message, link: &mut L) -> Result<(), LinkFault>
    requires ready { L.ready link.old }
    requires keeps { KeepsLimits message.now }
    ensures ok { OnOk result (Talks L.came L.sent L.given link.old link.new (took (spelling message.now) ∷ [])) }
    ensures spelled { OnOk result (Spells message.now (spelling message.now)) }
    ensures err { OnErr result (Parts L.sent L.given link.old link.new [] (spelling message.now)) }
    ensures ready { L.ready link.new }
    ensures cause { HasCause (L.faults link.old) (L.faults link.new) result LinkFault.Failed LinkFault.Memory }
{
    let mut frame = Vec::new(alloc);
    write_message(alloc, message, &mut frame)?;
    link.send(alloc, &frame)?;
    Ok(())
}

// Sends a piece of a boot.
fn send_piece<L: Link>(alloc: Global, piece: &[u8], link: &mut L) -> Result<(), LinkFault>
    requires ready { L.ready link.old }
    requires fits { length piece.now ≤ longest_piece }
    ensures ok { OnOk result (Talks L.came L.sent L.given link.old link.new (piece_sent piece.now ∷ [])) }
    ensures err { OnErr result (Parts L.sent L.given link.old link.new [] (spelling (Boot piece.now))) }
    ensures ready { L.ready link.new }
    ensures cause { HasCause (L.faults link.old) (L.faults link.new) result LinkFault.Failed LinkFault.Memory }
{
    let copy = piece.to_vec(alloc)?;
    let message = Message::Boot(Bytes::new(copy));
    send_message(alloc, &message, link)?;
    Ok(())
}

// The first bytes, so many.
fn front(bytes: &[u8], most: usize) -> &[u8]
    requires { most ≤ length bytes.now }
    ensures front { result.now ≡ take most bytes.now }
    ensures fits { length result.now ≤ most }
{
    &bytes[..most]
}

// The bytes behind the first so many.
fn behind(bytes: &[u8], most: usize) -> &[u8]
    requires { most ≤ length bytes.now }
    ensures back { result.now ≡ drop most bytes.now }
{
    &bytes[most..]
}

// Sends a boot in its pieces, and the empty piece that ends it.
pub(crate) fn send_boot<L: Link>(alloc: Global, boot: &[u8], link: &mut L) -> Result<(), LinkFault>
    requires ready { L.ready link.old }
    ensures ok { OnOk result (Talks L.came L.sent L.given link.old link.new (boot_talk boot.now)) }
    ensures err { OnErr result (Parts L.sent L.given link.old link.new [] (boot_frames boot.now)) }
    ensures ready { L.ready link.new }
    ensures cause { HasCause (L.faults link.old) (L.faults link.new) result LinkFault.Failed LinkFault.Memory }
{
    let mut rest = boot;
    while rest.len() > LONGEST_PIECE {
        let piece = front(rest, LONGEST_PIECE);
        send_piece(alloc, piece, link)?;
        let more = behind(rest, LONGEST_PIECE);
        rest = more;
    }
    send_piece(alloc, rest, link)?;
    send_piece(alloc, &[], link)?;
    Ok(())
}

// Sends a reply, if there is one.
pub(crate) fn send_reply<L: Link>(
    alloc: Global,
    reply: Option<ReplyBody>,
    link: &mut L,
) -> Result<(), LinkFault>
    requires ready { L.ready link.old }
    requires keeps { IfSome reply (λ r. KeepsLimits (Reply r)) }
    ensures ok { OnOk result (Talks L.came L.sent L.given link.old link.new (sent_of reply)) }
    ensures spelled { OnOk result (IfSome reply IsSpelled) }
    ensures err { OnErr result (Parts L.sent L.given link.old link.new [] (reply_frames (listed reply))) }
    ensures ready { L.ready link.new }
    ensures cause { HasCause (L.faults link.old) (L.faults link.new) result LinkFault.Failed LinkFault.Memory }
{
    let Some(body) = reply else {
        return Ok(());
    };
    send_message(alloc, &Message::Reply(body), link)?;
    Ok(())
}
