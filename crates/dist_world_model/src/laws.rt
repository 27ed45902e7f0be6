//! Laws of all runs of a world: each is a function that does nothing, and whose contract is the law.

ghost use Rattle.std.specs.Prelude.{◌≡◌, ℕ, List, [], Some, slice_get};
ghost use Rattle.dist_core_setup.specs.declared.setup.Setup.{Setup};
ghost use Rattle.dist_world_model.specs.Laws.{AllLives, Alone, Apart, Decided, InTurn, OwnDigests, UpsAreLinked};
ghost use Rattle.dist_world_model.specs.Agreement.{Agreement, AreSetups, AllFit, IsReached, Counts, IsUp, IsFooled, NoImpostors, OpenAgreement};
ghost use Rattle.dist_world_model.specs.Strangers.{AreHonest, AreInside};
ghost use Rattle.dist_world_model.specs.{declared.happening.Happening.Happening, World.World, World.Life, World.empty, World.running, Run.run};
ghost use Rattle.dist_world_model.specs.declared.happening.Happening.TheVariants as happening;
ghost use Rattle.dist_world_model.specs.{Order.AreAbove, Order.AreInOrder, Order.OnlyLastRuns, Frames.AreCanonical};
ghost use Rattle.dist_world_model.specs.OwnSetups.{AreAsBegun, AreNoResets, HasBegunSetup, HasSetDigests, IsSetUp, applied_as, changes_at};
ghost use Rattle.dist_world_model.specs.Renewals.{HasOpened, HasRoom, renewal};

use crate::node_laws::nodes_keep_laws;

/// At every moment, the ends of an incarnation that hold a peer are those that make an entry.
pub fn holders_are_apart()
    ensures { (setups : List Setup) (happenings : List Happening) → AllLives Apart (run happenings (empty setups)) }
{
    nodes_keep_laws();
}

/// Of two attempts that cross, the lesser name's never comes up.
pub fn crossings_are_decided()
    ensures { (setups : List Setup) (happenings : List Happening) → AllLives Decided (run happenings (empty setups)) }
{
    nodes_keep_laws();
}

/// A reply is sent, and an end comes up, only while no other end of that peer stands in its way.
pub fn replies_are_alone()
    ensures { (setups : List Setup) (happenings : List Happening) → AllLives Alone (run happenings (empty setups)) }
{
    nodes_keep_laws();
}

/// Every end that is up holds the digest of the own cookie, that which the node has now, and its own challenge.
pub fn digests_are_own()
    ensures { (setups : List Setup) (happenings : List Happening) → AllLives OwnDigests (run happenings (empty setups)) }
{
    nodes_keep_laws();
}

/// A dialled end is given out where no end holds its peer, and if it comes up no other end of that peer came up in between;
/// once an accepted end took a name, none that took it before comes up; an end that comes up closes the one that was up.
pub fn ends_are_in_turn()
    ensures { (setups : List Setup) (happenings : List Happening) → AllLives InTurn (run happenings (empty setups)) }
{
    nodes_keep_laws();
}

/// On a connection the name is taken, the reply sent, the accepted end comes up and then the dialled end, in this order;
/// once the reply was sent, each end's peer is the other's node.
pub fn connections_are_in_order()
    ensures { (setups : List Setup) (happenings : List Happening) → AreSetups setups → AllFit happenings → AreInOrder (run happenings (empty setups)) }
{
    nodes_keep_laws();
}

/// All numbers of an incarnation are above those of the same node's earlier ones, and at most the last one runs.
pub fn incarnations_are_in_order()
    ensures above { (setups : List Setup) (happenings : List Happening) → AreAbove (run happenings (empty setups)) }
    ensures last { (setups : List Setup) (happenings : List Happening) → OnlyLastRuns (run happenings (empty setups)) }
{
    nodes_keep_laws();
}

/// Where nothing comes from outside, every end of a running incarnation that is up has a connection. Whoever counts a node as up, and
/// does not take somebody outside for it, does so on a connection. Nobody takes somebody outside for a node where no end came up, by
/// what somebody outside did, under the name of a node.
pub fn ups_are_linked()
    ensures runs { (setups : List Setup) (happenings : List Happening) → AreInside happenings → AllLives UpsAreLinked (run happenings (empty setups)) }
    ensures counted { (w : World) (a b : ℕ) → (IsFooled w a b → ⊥) → (u : Counts w a b) → (c : ℕ) × (x : IsUp w a b c) × (x.kept ≡ u.kept) }
    ensures honest { (setups : List Setup) (happenings : List Happening) → AreHonest setups happenings (empty setups)
        → NoImpostors (run happenings (empty setups)) }
{
    nodes_keep_laws();
}

/// THE AGREEMENT. Whatever happens, two running nodes that each count the other as up do so over one connection, with the
/// flags that both announced and each other's creation, each holding the digest of its own cookie and challenge. Each has the setup
/// with which it began, but for its cookies and its allow list: its node's, with a creation, or another one of its node's name.
pub fn nodes_agree()
    ensures runs { (setups : List Setup) (happenings : List Happening) → AreSetups setups → AllFit happenings → Agreement (run happenings (empty setups)) }
    ensures reached { (w : World) → IsReached w → Agreement w }
    ensures strangers { (w : World) → IsReached w → OpenAgreement w }
    ensures begun { (setups : List Setup) (happenings : List Happening) → AreAsBegun setups happenings (run happenings (empty setups)) }
    ensures traced { (w : World) → IsReached w
        → (happenings : List Happening) × (w ≡ run happenings (empty w.setups)) × AreAsBegun w.setups happenings w }
{
    nodes_keep_laws();
}

/// Every incarnation has the setup with which it began, but for the changes of its own resets, in their order. Where nothing was
/// reset, and no node began with another setup than its own, it has its node's cookies and list, and each of its ends that is up
/// holds the digest of its node's cookie for the peer.
pub fn setups_are_own()
    ensures begun { (setups : List Setup) (happenings : List Happening) (i : ℕ) (l : Life)
        → (let w = run happenings (empty setups) in slice_get w.lives i ≡ Some l)
        → HasBegunSetup setups happenings (changes_at happenings (empty setups) i) l }
    ensures unchanged { (setups : List Setup) (happenings : List Happening) → AreNoResets happenings
        → AllLives (IsSetUp setups) (run happenings (empty setups)) }
    ensures digests { (setups : List Setup) (happenings : List Happening) → AreNoResets happenings
        → AllLives (HasSetDigests setups) (run happenings (empty setups)) }
{
    nodes_keep_laws();
}

/// A node that is renewed is one that ended and began again at once with the setup that it had: its running incarnation is then
/// the node that `Node::renew` leaves, wherever the limits of the world leave room for this. So it is where it began as it had
/// begun before, and made again the changes that gave its setup its cookies and its list.
pub fn renewed_nodes_begin_again()
    ensures anew { (setups : List Setup) (happenings : List Happening) (node place : ℕ) (l : Life)
        → running (run happenings (empty setups)) node ≡ Some place
        → (let w = run happenings (empty setups) in slice_get w.lives place ≡ Some l)
        → HasRoom (run happenings (empty setups)) []
        → HasOpened (run (renewal node (happening.BeginAs node l.node.setup) []) (run happenings (empty setups))) node l.node.setup }
    ensures again { (setups : List Setup) (happenings : List Happening) (node place : ℕ) (l : Life)
        → running (run happenings (empty setups)) node ≡ Some place
        → (let w = run happenings (empty setups) in slice_get w.lives place ≡ Some l)
        → HasRoom (run happenings (empty setups)) (changes_at happenings (empty setups) place)
        → (begin : Happening) × (applied_as happenings (empty setups) l.begun ≡ Some begin)
        × HasOpened (run (renewal node begin (changes_at happenings (empty setups) place)) (run happenings (empty setups))) node l.node.setup }
{
    incarnations_are_in_order();
}

/// Whatever happens, each body that an end can take next has no byte, or is the canonical spelling of a message whose flags,
/// where it has any, are those that one of the nodes announces with a setup with which it began, or the lower half of them.
pub fn frames_are_canonical()
    ensures { (setups : List Setup) (happenings : List Happening) → AreSetups setups → AllFit happenings
        → AreCanonical setups happenings (run happenings (empty setups)) }
{
    nodes_keep_laws();
}

/// A world that can be stays one, whatever happens.
pub fn worlds_are_reached()
    ensures new { (setups : List Setup) → AreSetups setups → IsReached (empty setups) }
    ensures run { (w : World) (happenings : List Happening) → IsReached w → AllFit happenings → IsReached (run happenings w) }
{}
