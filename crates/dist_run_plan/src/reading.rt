//! A plan is read from the outside to the inside: the document, its keys, each node and dial, each value.

ghost use Rattle.std.specs.{Prelude.◌≡◌, Prelude.option_map, Prelude.codes, Prelude.not, Prelude.Some, Prelude.None, List.list_all, List.list_any};
ghost use Rattle.toml.specs.{View.view, View.table_view, Data.get_member};
ghost use Rattle.dist_names.specs.{Order.same_name, NodeName.short_of};
ghost use Rattle.dist_run_plan.specs.Plans.{or_usual, usual_alone, needed_member, node_of, node_in, dial_in, list_in, nodes_in, dials_in, are_apart};
ghost use Rattle.dist_run_plan.specs.Plans.{are_made_by, parts_of, plan_in, plan_of};
ghost use Rattle.dist_run_plan.specs.{declared.plan_error.PlanError.TheVariants.Bad, Answer.Reads, Values.names_in, Values.cookies_in};

use crate::fields::{FromValue, add_cookies, all_of, array_of, table_of};
use crate::keys::{has_only, value_at};
use crate::lists::PlanList;
use crate::plan::{DialPlan, NodePlan, Plan};
use crate::plan_error::PlanError;
use dist_core_setup::{NameList, Version};
use dist_names::{Flags, NodeName, is_same_text};
use dist_secret::{Cookie, Cookies};
use std::alloc::Global;
use toml::{Table, Value};

// The usual number of turns.
const TURNS: u32 = 200;

// The most nodes of a file.
const MOST_NODES: usize = 16;

// The most dials of a file.
const MOST_DIALS: usize = 64;

// What the value at a key says, which must be there.
fn needed_member<T: FromValue>(alloc: Global, table: &Table, key: &str) -> Result<T, PlanError>
    ensures { Reads result (needed_member T.says key.now (table_view table.now)) }
{
    match value_at(table, key) {
        Some(value) => T::from_value(alloc, value),
        None => Err(PlanError::Bad),
    }
}

// What the value at a key says, or the usual where the key is absent.
fn or_usual<T: FromValue + Drop>(
    alloc: Global,
    table: &Table,
    key: &str,
    usual: T,
) -> Result<T, PlanError>
    ensures { Reads result (or_usual T.says usual (get_member key.now (table_view table.now))) }
{
    match value_at(table, key) {
        Some(value) => T::from_value(alloc, value),
        None => Ok(usual),
    }
}

// The usual cookie, and the cookies of peers that have their own.
fn cookies_member(alloc: Global, cookie: &Cookie, table: &Table) -> Result<Cookies, PlanError>
    ensures { Reads result (or_usual (cookies_in (usual_alone cookie.now)) (usual_alone cookie.now) (get_member (codes "cookies") (table_view table.now))) }
{
    let mut cookies = Cookies::new(alloc, cookie.try_clone(alloc)?);
    if let Some(value) = value_at(table, "cookies") {
        add_cookies(alloc, &mut cookies, table_of(value)?)?;
    }
    Ok(cookies)
}

// The node of a table whose keys are a node's.
fn node_of(alloc: Global, table: &Table) -> Result<NodePlan, PlanError>
    ensures { Reads result (node_of (table_view table.now)) }
{
    let name = needed_member(alloc, table, "name")?;
    let cookie = needed_member(alloc, table, "cookie")?;
    let cookies = cookies_member(alloc, &cookie, table)?;
    let version = or_usual(alloc, table, "version", Version::Six)?;
    let flags = needed_member(alloc, table, "flags")?;
    let required = or_usual(alloc, table, "required", Flags(0))?;
    let listen = or_usual(alloc, table, "listen", 0)?;
    let allow = or_usual(alloc, table, "allow", None)?;
    Ok(NodePlan {
        name,
        cookie,
        cookies,
        version,
        flags,
        required,
        listen,
        allow,
    })
}

/// A node, in a table that has the keys of a node and no other.
impl FromValue for NodePlan {
    ghost says = { node_in };

    fn from_value(alloc: Global, value: &Value) -> Result<NodePlan, PlanError> {
        let table = table_of(value)?;
        if has_only(
            table,
            &[
                "name", "cookie", "cookies", "version", "flags", "required", "listen", "allow",
            ],
        ) {
            node_of(alloc, table)
        } else {
            Err(PlanError::Bad)
        }
    }
}

/// A dial, in a table that has the keys of a dial and no other.
impl FromValue for DialPlan {
    ghost says = { dial_in };

    fn from_value(alloc: Global, value: &Value) -> Result<DialPlan, PlanError> {
        let table = table_of(value)?;
        if !has_only(table, &["from", "to"]) {
            return Err(PlanError::Bad);
        }
        let from = needed_member(alloc, table, "from")?;
        let to = needed_member(alloc, table, "to")?;
        Ok(DialPlan { from, to })
    }
}

/// The names of an array, in order. One may stand there twice.
impl FromValue for Option<NameList> {
    ghost says = { λ value. option_map Some (names_in value) };

    fn from_value(alloc: Global, value: &Value) -> Result<Option<NameList>, PlanError> {
        let names = all_of(alloc, array_of(value)?)?;
        Ok(Some(NameList::from_vec(names)))
    }
}

// What each value of an array says, if their number is within these bounds.
#[tactic(auto, using(crate::proofs::Found::length_view))]
fn list_in<T: FromValue + Drop>(
    alloc: Global,
    value: &Value,
    least: usize,
    most: usize,
) -> Result<PlanList<T>, PlanError>
    ensures { Reads result (list_in T.says least most (view value.now)) }
{
    let values = array_of(value)?;
    if values.len() < least || most < values.len() {
        return Err(PlanError::Bad);
    }
    Ok(PlanList::from_vec(all_of(alloc, values)?))
}

/// The 1 to 16 nodes of an array.
impl FromValue for PlanList<NodePlan> {
    ghost says = { nodes_in };

    fn from_value(alloc: Global, value: &Value) -> Result<PlanList<NodePlan>, PlanError> {
        list_in(alloc, value, 1, MOST_NODES)
    }
}

/// The at most 64 dials of an array.
impl FromValue for PlanList<DialPlan> {
    ghost says = { dials_in };

    fn from_value(alloc: Global, value: &Value) -> Result<PlanList<DialPlan>, PlanError> {
        list_in(alloc, value, 0, MOST_DIALS)
    }
}

// Whether no other node has the short name of this one.
fn is_apart(node: &NodePlan, others: &[NodePlan]) -> bool
    ensures { result ≡ list_all (λ other. not (same_name (short_of other.name) (short_of node.now.name))) others.now }
{
    others.iter().all(|other| !is_same_text(other.name.short(), node.name.short()))
}

// Whether no two nodes have one short name. Their names differ then too.
fn are_apart(nodes: &[NodePlan]) -> bool
    ensures { result ≡ are_apart nodes.now }
{
    match nodes {
        [node, others @ ..] => is_apart(node, others) && are_apart(others),
        [] => true,
    }
}

// Whether one of the nodes has this name.
fn is_there(nodes: &[NodePlan], name: &NodeName) -> bool
    ensures { result ≡ list_any (λ node. same_name node.name name.now) nodes.now }
{
    nodes.iter().any(|node| node.name.is_same(name))
}

// Whether each dial is made by one of the nodes.
fn are_made_by(nodes: &[NodePlan], dials: &[DialPlan]) -> bool
    ensures { result ≡ are_made_by nodes.now dials.now }
{
    dials.iter().all(|dial| is_there(nodes, &dial.from))
}

// What the keys of the file say.
fn parts_of(alloc: Global, table: &Table) -> Result<Plan, PlanError>
    ensures { Reads result (parts_of (table_view table.now)) }
{
    let port = or_usual(alloc, table, "port", 0)?;
    let turns = or_usual(alloc, table, "turns", TURNS)?;
    let node = needed_member(alloc, table, "node")?;
    let dial = or_usual(alloc, table, "dial", PlanList::from_vec(Vec::new(alloc)))?;
    Ok(Plan {
        port,
        turns,
        node,
        dial,
    })
}

// The plan of a document, where its nodes and dials fit together.
fn plan_in(alloc: Global, table: &Table) -> Result<Plan, PlanError>
    ensures { Reads result (plan_in (table_view table.now)) }
{
    if !has_only(table, &["port", "turns", "node", "dial"]) {
        return Err(PlanError::Bad);
    }
    let plan = parts_of(alloc, table)?;
    if are_apart(plan.node.as_slice()) && are_made_by(plan.node.as_slice(), plan.dial.as_slice()) {
        Ok(plan)
    } else {
        Err(PlanError::Bad)
    }
}

/// The plan that a text says.
///
/// `Bad` comes exactly where the text is no TOML document, or the document breaks a rule: a key that isn't known, one that is
/// missing, a value of the wrong type or out of its range, a name that is none, two nodes of one short name, a dial by a
/// node that isn't in the file. A key that may be absent has its usual value then. The keys are our own choice.
pub fn plan_of(alloc: Global, text: &str) -> Result<Plan, PlanError>
    ensures { Reads result (plan_of text.now) }
{
    match toml::table_from_str(alloc, text) {
        Ok(table) => plan_in(alloc, &table),
        Err(error) if error.is_memory() => Err(PlanError::NoMemory),
        Err(_) => Err(PlanError::Bad),
    }
}
