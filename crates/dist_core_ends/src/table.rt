//! The table of peers, changed when an end changes.
ghost use Rattle.std.specs.Prelude.{◌≡◌, [], slice_get, IsOk, OnOk, OnErr, false, Some, None};
ghost use Rattle.std.specs.Option.{option_map};
ghost use Rattle.dist_core_ends.specs.Ends.{Claim, claim_of, kind_in};
ghost use Rattle.dist_core_ends.specs.Change.{claim_at, table_after, table_after_shift, HasEntry, AsksShift};
ghost use Rattle.dist_core_ends.specs.Change.{table_after_entry, AsksEnter, table_after_rise, AsksRaise};

use crate::known::{Attempt, End};
use crate::phase::{Kind, Phase};
use crate::slots::EndList;
use dist_names::NodeName;
use dist_peers::{EndId, Peers};
use std::alloc::AllocError;

// How an end holds its peer, and which peer that is.
fn claim(end: &End) -> Option<(Kind, &NodeName)>
    ensures { option_map (λ r. record { peer = r.1.now; kind = r.0 }) result ≡ claim_of end.now }
{
    match end {
        End::Unnamed => None,
        End::Attempt(attempt) => match kind(attempt.phase) {
            Some(kind) => Some((kind, &attempt.peer)),
            None => None,
        },
        End::Up(record) => Some((Kind::Up, &record.peer)),
        End::Closed(_) => None,
    }
}

fn kind(phase: Phase) -> Option<Kind>
    ensures { result ≡ kind_in phase }
{
    match phase {
        Phase::Dialing | Phase::AwaitStatus | Phase::AwaitChallenge | Phase::AwaitAck => {
            Some(Kind::Out)
        }
        Phase::AwaitTrue | Phase::AwaitComplement | Phase::AwaitReply => Some(Kind::In),
        Phase::DoomedDialing | Phase::Doomed => None,
    }
}

// Keeps the table in step with an end that changes.
fn shift(
    peers: &mut Peers,
    me: &NodeName,
    id: EndId,
    old: &End,
    new: &End,
) -> Result<(), AllocError>
    requires { AsksShift peers.old me.now id (claim_of old.now) (claim_of new.now) }
    ensures ok { OnOk result (peers.new ≡ table_after_shift peers.old me.now id (claim_of old.now) (claim_of new.now)) }
    ensures err { OnErr result (peers.new ≡ peers.old) }
    ensures loss { claim_of new.now ≡ None → IsOk result }
{
    match (claim(old), claim(new)) {
        (None, None) => Ok(()),
        (None, Some((kind, peer))) => enter(peers, me, id, kind, peer),
        (Some((_, peer)), None) => {
            peers.lost(peer, id);
            Ok(())
        }
        (Some((was, _)), Some((is, peer))) => {
            raise(peers, id, was, is, peer);
            Ok(())
        }
    }
}

fn enter(
    peers: &mut Peers,
    me: &NodeName,
    id: EndId,
    kind: Kind,
    peer: &NodeName,
) -> Result<(), AllocError>
    requires { AsksEnter peers.old me.now peer.now kind }
    ensures ok { OnOk result (peers.new ≡ table_after_entry peers.old me.now id peer.now kind) }
    ensures err { OnErr result (peers.new ≡ peers.old) }
{
    match kind {
        Kind::Out => peers.dial_idle(peer, id),
        Kind::In => peers.take_name(me, peer, id),
        Kind::Up => Ok(()),
    }
}

fn raise(peers: &mut Peers, id: EndId, was: Kind, is: Kind, peer: &NodeName)
    requires { AsksRaise peers.old id peer.now was is }
    ensures { peers.new ≡ table_after_rise peers.old id peer.now was is }
{
    match (was, is) {
        (Kind::Out, Kind::Up) | (Kind::In, Kind::Up) => {
            let _ = peers.came_up(peer, id);
        }
        _ => {}
    }
}

// Takes an end that is closed out of its peer's entry. An end that does not know its peer, as most that are lost early, costs no call.
#[inline(always)]
pub fn leave(peers: &mut Peers, id: EndId, closed: Option<End>)
    requires { HasEntry peers.old (claim_at closed) }
    ensures { peers.new ≡ table_after_shift peers.old [] id (claim_at closed) None }
{
    match closed {
        None | Some(End::Unnamed) | Some(End::Closed(_)) => {}
        known => leave_peer(peers, id, known),
    }
}

// The same for an end that knows its peer: the table is searched once, by the name that the end had.
#[inline(never)]
fn leave_peer(peers: &mut Peers, id: EndId, closed: Option<End>)
    requires { HasEntry peers.old (claim_at closed) }
    ensures { peers.new ≡ table_after_shift peers.old [] id (claim_at closed) None }
{
    match closed {
        Some(End::Up(record)) => peers.let_go(record.peer, id),
        Some(End::Attempt(attempt)) => leave_attempt(peers, id, attempt),
        _ => {}
    }
}

// The same for an attempt.
fn leave_attempt(peers: &mut Peers, id: EndId, attempt: Attempt)
    requires { HasEntry peers.old (claim_of (End.Attempt attempt)) }
    ensures { peers.new ≡ table_after_shift peers.old [] id (claim_of (End.Attempt attempt)) None }
{
    match kind(attempt.phase) {
        Some(_) => peers.let_go(attempt.peer, id),
        None => {}
    }
}

// Makes the change in the table that an end's change needs, or that the next end needs.
pub fn shift_by_number(
    peers: &mut Peers,
    list: &EndList,
    me: &NodeName,
    id: EndId,
    this: &End,
) -> Result<(), AllocError>
    requires { AsksShift peers.old me.now id (claim_at (slice_get list.now.items id.0)) (claim_of this.now) }
    ensures ok { OnOk result (peers.new ≡ table_after me.now list.now.items peers.old id this.now) }
    ensures err { OnErr result (peers.new ≡ peers.old) }
    ensures loss { claim_of this.now ≡ None → IsOk result }
{
    match list.at(id) {
        Ok(old) => shift(peers, me, id, old, this),
        Err(_) => shift(peers, me, id, &End::Unnamed, this),
    }
}
