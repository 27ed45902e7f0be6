//! The nodes to dial: those that are named, and those that the port mappers of hosts know, which are asked one after another. A port
//! mapper may send anything: if it sends more than is dialled or shown, the number of the rest is printed.

ghost use Rattle.std.specs.Prelude.{◌≡◌, ◌⊎◌, ◌++◌, ◌∷◌, [], Contains, IfOk, List, OnOk, ℕ, length, true};
ghost use Rattle.dist_cluster.specs.declared.targets.Target.TheVariants as named;
ghost use Rattle.dist_talk.specs.Words.{status_of};
ghost use Rattle.distping.specs.Runs.{AreNodes};

use crate::common::Context;
use crate::grouping::is_among;
use crate::links::{Names, ask_census, no_dial, no_host};
use crate::nodes::Nodes;
use dist_cluster::{Group, ServiceName, Target, first_of, name_in_line};
use dist_names::{NameError, NodeName};
use dist_program::Resolving;
use dist_talk::HandshakeVerdict;
use distping_report::{LeftOut, LineSink, MOST_SHOWN, ProbeOutcome};
use distping_words::Fault;
use std::net::SocketAddr;

// Whether the command line, or the file, names this node itself.
fn is_named(targets: &[Target], node: &NodeName) -> bool
    ensures { result ≡ true → Contains targets.now (named.Node node.now) }
{
    targets.iter().any(|target| match target {
        Target::Node(name) => name.is_same(node),
        Target::Group(_) | Target::Service(_) => false,
    })
}

// What the port mapper of a host names.
#[derive(Drop)]
struct Gathering<'a> {
    lines: LineSink<'a>,
    // What is named itself.
    targets: &'a [Target],
    mapper_port: u16,
    group: &'a Group,
    // How many lines name a node.
    named: u32,
    // How many lines that name none were printed.
    shown: u32,
    // What was left out, and not printed.
    left_out: LeftOut,
}

impl Gathering<'_> {
    // Leaves out a line that names no node: prints it if it is one of the first, else counts it.
    fn leave_out(&mut self, text: &[u8]) -> Result<(), Fault> {
        if self.shown >= MOST_SHOWN {
            self.left_out.lines = self.left_out.lines.saturating_add(1);
            return Ok(());
        }
        self.shown += 1;
        self.lines.put_left_out(self.group, text)
    }

    // Adds a node, unless it is there already, or there are enough.
    fn push_new(&mut self, nodes: &mut Nodes, node: NodeName) -> Result<(), Fault>
        ensures { OnOk result (Contains nodes.new.names.items node ⊎ Contains self.old.targets.now (named.Node node)
            ⊎ (length nodes.old.names.items ≡ 1024)) }
    {
        self.named = self.named.saturating_add(1);
        if is_among(&nodes.names, &node) || is_named(self.targets, &node) {
            return Ok(());
        }
        if nodes.is_full() {
            self.left_out.nodes = self.left_out.nodes.saturating_add(1);
            return Ok(());
        }
        Ok(nodes.push(node)?)
    }

    // Takes the node that a line of the port mapper names, if it names one.
    fn take_line(&mut self, nodes: &mut Nodes, line: &[u8]) -> Result<(), Fault> {
        if line.is_empty() {
            return Ok(());
        }
        let Some(short) = name_in_line(line) else {
            return self.leave_out(line);
        };
        match self.group.member(self.lines.alloc, short) {
            Ok(node) => self.push_new(nodes, node),
            Err(NameError::NoMemory) => Err(Fault::NoMemory),
            Err(_) => self.leave_out(short),
        }
    }

    // Prints the verdict on the host, which gave no node, and returns its status.
    fn put_nobody(&self, outcome: &ProbeOutcome) -> Result<u8, Fault>
        ensures { IfOk result (λ status. status ≡ status_of outcome.now.verdict) }
    {
        self.lines.put_nobody(self.group, outcome)?;
        Ok(outcome.verdict.status())
    }

    // Takes the nodes that the port mapper named, and returns the status: if it named none, that of a host without nodes.
    fn take_names(&mut self, nodes: &mut Nodes, names: &Names) -> Result<u8, Fault> {
        let lines = self.lines;
        for line in names.lines().split(|byte| *byte == b'\n') {
            self.take_line(nodes, line)?;
        }
        self.left_out.is_cut = names.is_cut;
        lines.put_more_left_out(self.group, self.left_out)?;
        if self.named == 0 {
            lines.put_names(b"")?;
            let verdict = HandshakeVerdict::NotRegistered;
            return self.put_nobody(&no_dial(lines.alloc, Some(names.address), verdict));
        }
        lines.put_known(self.mapper_port, self.named)?;
        Ok(self.left_out.status())
    }
}

// Asks the port mapper of a host for its nodes, and returns the status.
fn ask_group<'g, R: Resolving>(
    context: &'g Context<'_, R>,
    group: &'g Group,
    nodes: &mut Nodes,
) -> Result<u8, Fault> {
    let mut gathering = Gathering {
        lines: context.screen(),
        targets: &context.wanted.targets,
        mapper_port: context.wanted.choices.mapper_port,
        group,
        named: 0,
        shown: 0,
        left_out: LeftOut {
            lines: 0,
            nodes: 0,
            is_cut: false,
        },
    };
    gathering.lines.put_heading(group.word())?;
    let dial = context.make_dial(gathering.lines, &group.own, &group.own);
    match ask_census(&dial, context.addresses(&group.own))? {
        Ok(names) => gathering.take_names(nodes, &names),
        Err(outcome) => gathering.put_nobody(&outcome),
    }
}

// Adds a node that is not there yet.
fn push_node(nodes: &mut Nodes, node: NodeName) -> Result<(), Fault>
    ensures { OnOk result (Contains nodes.new.names.items node) }
{
    if is_among(&nodes.names, &node) {
        return Ok(());
    }
    if nodes.is_full() {
        return Err(Fault::TooManyNodes);
    }
    Ok(nodes.push(node)?)
}

// Adds what stands at an address of a service, and returns the status.
fn take_member<'x, R: Resolving>(
    context: &Context<'x, R>,
    service: &ServiceName,
    address: &SocketAddr,
    nodes: &mut Nodes,
) -> Result<u8, Fault> {
    let alloc = context.rt.alloc();
    let text = format!(in alloc; "{}", address.ip())?;
    match service.member(alloc, text.as_bytes()) {
        Ok(Target::Node(node)) => {
            push_node(nodes, node)?;
            Ok(0)
        }
        Ok(Target::Group(group)) => ask_group(context, &group, nodes),
        Ok(Target::Service(_)) => Ok(0),
        Err(NameError::NoMemory) => Err(Fault::NoMemory),
        Err(_) => Err(Fault::BadName),
    }
}

// Adds what stands at each address of a service, and returns the status: if it has no address, that of its name.
fn ask_service<'x, R: Resolving>(
    context: &Context<'x, R>,
    service: &'x ServiceName,
    nodes: &mut Nodes,
) -> Result<u8, Fault> {
    let group = &service.group;
    let addresses = match context.addresses(&group.own) {
        Ok(addresses) => addresses,
        Err(error) => {
            let lines = context.screen();
            lines.put_heading(group.word())?;
            let outcome = no_host(lines.alloc, &context.wanted.choices, error);
            lines.put_nobody(group, &outcome)?;
            return Ok(outcome.verdict.status());
        }
    };
    let mut status = 0;
    for address in &addresses {
        status = first_of(status, take_member(context, service, address, nodes)?);
    }
    Ok(status)
}

// Adds the nodes of a target, and returns the status.
fn take_target<'x, R: Resolving>(
    context: &Context<'x, R>,
    target: &'x Target,
    nodes: &mut Nodes,
) -> Result<u8, Fault>
    ensures node { (name : List ℕ) → target.now ≡ named.Node name
        → IfOk result (λ status. (status ≡ 0) × (nodes.new.names.items ≡ nodes.old.names.items ++ name ∷ [])) }
{
    match target {
        Target::Node(name) => {
            if nodes.is_full() {
                return Err(Fault::TooManyNodes);
            }
            nodes.push(name.try_clone(context.rt.alloc())?)?;
            Ok(0)
        }
        Target::Group(group) => ask_group(context, group, nodes),
        Target::Service(service) => ask_service(context, service, nodes),
    }
}

/// Adds the nodes to dial, and returns the first status that is not 0 of the hosts that were asked for their nodes.
pub fn gather<R: Resolving>(context: &Context<'_, R>, nodes: &mut Nodes) -> Result<u8, Fault>
    // Nodes that are named themselves are dialled as they stand there.
    ensures nodes { (names : List (List ℕ)) → AreNodes context.now.wanted.now.targets.items names
        → IfOk result (λ status. (status ≡ 0) × (nodes.new.names.items ≡ nodes.old.names.items ++ names)) }
{
    let mut status = 0;
    for target in &context.wanted.targets {
        status = first_of(status, take_target(context, target, nodes)?);
    }
    Ok(status)
}
