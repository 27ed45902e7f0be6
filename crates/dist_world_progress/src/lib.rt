//! Progress in a world of several nodes: no handshake hangs, nodes that fit can connect, and an undisturbed handshake comes up, with
//! strangers about. Each law is a function that does nothing, and whose contract is the law. None is a promise that something
//! happens: that a node learns of an opened or lost connection, and that bytes arrive, is the carrier's part.
#![tactic(auto)]

ghost use Rattle.std.specs.Prelude.{ℕ, List, ◌≤◌};
ghost use Rattle.dist_core_setup.specs.declared.setup.Setup.{Setup};
ghost use Rattle.dist_world_model.specs.Agreement.{AreSetups, AllFit, IsReached};
ghost use Rattle.dist_world_model.specs.{declared.happening.Happening.Happening, World.World, World.empty, Run.run};
ghost use Rattle.dist_world_progress.specs.Connecting.{Fit, IsPlain, NodesCanConnect, NodesCanReturn, UsualNodesHaveRoom};
ghost use Rattle.dist_world_progress.specs.Undisturbed.{FairComeUp, LeftCanBeDone, UndisturbedComeUp};
ghost use Rattle.dist_world_progress.specs.Progress.{NoHandshakeHangs, OneSidedAwaitAck, DueIsTaken, HandshakesCanBeDecided, frames_taken};

use dist_world_model::nodes_keep_laws;

/// NO HANDSHAKE HANGS. Whatever happens, until both ends of a connection are up or one is closed, the dialled one has yet to learn
/// that its connection opened, or a whole frame is on its way to an end that awaits one. So once all was reported and taken, both are
/// up or one is closed. It needs no equal cookies, versions or flags, and no running node. It says nothing of an end whose other end
/// is closed, or that was never accepted: only a reported loss ends that one.
pub fn no_handshake_hangs()
    ensures runs { (setups : List Setup) (happenings : List Happening) → AreSetups setups → AllFit happenings
        → NoHandshakeHangs (run happenings (empty setups)) }
    ensures reached { (w : World) → IsReached w → NoHandshakeHangs w }
{
    nodes_keep_laws();
}

/// An end takes at most four frames in its life, whatever happens: each brings it further in its handshake, and nothing takes it
/// back. So the two ends of a connection take at most eight. Ticks of an end that is up are no such frames.
pub fn ends_take_few_frames()
    ensures { (setups : List Setup) (happenings : List Happening) (i id : ℕ) → frames_taken happenings (empty setups) i id ≤ 4 }
{
    nodes_keep_laws();
}

/// A CONNECTION THAT ONE NODE ALONE COUNTS. If a node counts another as up on it, and the other, which runs, has its end of it open,
/// then the other counts it too, or awaits the acknowledgement alone, which is on its way. It says nothing of an end that is closed,
/// or of an incarnation that is over.
pub fn one_sided_connections_await_ack()
    ensures runs { (setups : List Setup) (happenings : List Happening) → AreSetups setups → AllFit happenings
        → OneSidedAwaitAck (run happenings (empty setups)) }
    ensures reached { (w : World) → IsReached w → OneSidedAwaitAck w }
{
    nodes_keep_laws();
}

/// A frame that is on its way to an end that awaits one can be delivered and taken, if the end's node runs and has a step left, and
/// two more happenings may apply. With the first law: as long as a handshake isn't over, one of its ends has something to learn or
/// to take.
pub fn due_frames_are_taken()
    ensures runs { (setups : List Setup) (happenings : List Happening) → AreSetups setups → AllFit happenings
        → DueIsTaken (run happenings (empty setups)) }
    ensures reached { (w : World) → IsReached w → DueIsTaken w }
{
    nodes_keep_laws();
}

/// A HANDSHAKE CAN ALWAYS BE DECIDED. If a connection was accepted, and both its nodes run and have eight steps left, at most sixteen
/// happenings lead to both ends being up, or to one being closed. They only report the opened connection, deliver bytes and have
/// frames taken: nothing is lost, and no node ends. It doesn't say which of the two it is, nor that anything happens.
pub fn handshakes_can_be_decided()
    ensures runs { (setups : List Setup) (happenings : List Happening) → AreSetups setups → AllFit happenings
        → HandshakesCanBeDecided (run happenings (empty setups)) }
    ensures reached { (w : World) → IsReached w → HandshakesCanBeDecided w }
{
    nodes_keep_laws();
}

/// TWO NODES CAN CONNECT. From every world that can be, two running nodes that fit, and have room for each other, are at most
/// seventeen happenings away from each counting the other, on one connection, whatever challenges they draw. They fit if the
/// dialled one lets the other connect, both have one cookie for each other, and each announces what the other requires. The first
/// four at most report as lost ends that stood between the two; in the others one dials, and bytes are carried. So nothing that
/// happened before locks them out for good. It doesn't say that any of this happens.
pub fn nodes_can_connect()
    ensures runs { (setups : List Setup) (happenings : List Happening) → AreSetups setups → AllFit happenings
        → NodesCanConnect (run happenings (empty setups)) }
    ensures reached { (w : World) → IsReached w → NodesCanConnect w }
{
    nodes_keep_laws();
}

/// A NODE THAT COMES BACK is let in even if the other one noticed nothing: it may count the old connection as up, or have one half
/// open. At most two losses at the node that comes back, none if it restarted, and sixteen happenings more lead to both being up, if
/// the other one doesn't wait for a dial of its own, of which the greater name would go on.
pub fn nodes_can_return()
    ensures { (w : World) → IsReached w → NodesCanReturn w }
{
    nodes_keep_laws();
}

/// A running node with the usual limits has room for each peer, as long as five steps are left and fewer than 1,024 ends are open.
pub fn usual_nodes_have_room()
    ensures { (w : World) → IsReached w → UsualNodesHaveRoom w }
{
    nodes_keep_laws();
}

/// Two nodes fit that have one cookie for every peer, let every peer connect and ask for no flags of their own, whatever else they
/// announce, and whatever versions they know.
pub fn plain_nodes_fit()
    ensures { (x y : Setup) (cookie : List ℕ) → IsPlain cookie x → IsPlain cookie y → Fit x y }
{}

/// AN UNDISTURBED HANDSHAKE COMES UP, in whatever order things happen. x has dialled y, which fits, and the connection leads to y.
/// Then, whatever happens in whatever order, at these and at other nodes, neither of its two ends is closed, and once nothing is left
/// to be done on it, both are up: as long as both nodes run on with their setups, no other end of one of them holds the other, y has
/// a place for x among its entries, and neither of the two ends is reported as lost. With the other laws: under every schedule that
/// leaves no connection unopened or unaccepted, and no due frame untaken, it comes up after at most eight frames.
pub fn undisturbed_handshakes_come_up()
    ensures runs { (setups : List Setup) (happenings : List Happening) → AreSetups setups → AllFit happenings
        → UndisturbedComeUp (run happenings (empty setups)) }
    ensures reached { (w : World) → IsReached w → UndisturbedComeUp w }
{
    nodes_keep_laws();
}

/// UNDER EVERY FAIR SCHEDULE IT COMES UP. A schedule is a happening for each number, without an end. It's fair to a connection if,
/// whenever something is left to be done on it, sooner or later something is done: it is accepted, its dialled end learns that it
/// opened, one of its ends takes a frame. If x has dialled y, which fits, and nobody disturbs the connection before it is up, it is up
/// at both ends at some number.
pub fn undisturbed_handshakes_come_up_some_time()
    ensures runs { (setups : List Setup) (happenings : List Happening) → AreSetups setups → AllFit happenings
        → FairComeUp (run happenings (empty setups)) }
    ensures reached { (w : World) → IsReached w → FairComeUp w }
{
    nodes_keep_laws();
}

/// What is left to be done on a connection can be done, if both its nodes run and have a step left, the one that hasn't accepted it has
/// room for one more end, and the run for two more happenings: so a schedule can be fair to it.
pub fn what_is_left_can_be_done()
    ensures runs { (setups : List Setup) (happenings : List Happening) → AreSetups setups → AllFit happenings
        → LeftCanBeDone (run happenings (empty setups)) }
    ensures reached { (w : World) → IsReached w → LeftCanBeDone w }
{
    nodes_keep_laws();
}
