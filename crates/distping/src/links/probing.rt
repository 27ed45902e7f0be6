//! The addresses of a host, one after the other: until a node is found at one, or to ask the port mapper at each. Each step is printed.

ghost use Rattle.std.specs.Prelude.{◌≡◌, ◌++◌, ◌∷◌, [], is_some, IfErr, IfOk, IsErrAnd, length, OnOk};
ghost use Rattle.distping.specs.{Coming.AllCome, Coming.Comes, Coming.OutcomeComes, Places.host_verdict, Trying.AreTried};
ghost use Rattle.distping_report.specs.declared.{asked.Dial.Dial, found.Found.Found};

use crate::links::attempt::{AddressAttempt, Stop};
use crate::links::mapper::Names;
use crate::links::outcomes::no_host;
use crate::links::tries::Tries;
use dist_program::Addresses;
use dist_talk::{HandshakeVerdict, is_found};
use distping_report::{Dial, ProbeOutcome};
use distping_words::Fault;
use std::alloc::Global;
use std::net::SocketAddr;

/// The names that the port mapper of a host knows, or the result if it gave none.
pub type Census = Result<Names, ProbeOutcome>;

// The verdict of an attempt, of the talk or of the way to it.
fn verdict_in(outcome: Result<HandshakeVerdict, Stop>) -> Result<HandshakeVerdict, Fault>
    ensures { IfOk result (λ v. (d : Dial) (f : Found) → OutcomeComes d f outcome → Comes d f v) }
{
    match outcome {
        Ok(verdict) | Err(Stop::Verdict(verdict)) => Ok(verdict),
        Err(Stop::Fault(fault)) => Err(fault),
    }
}

// Tries the next one of these addresses.
fn try_address(
    dial: &Dial<'_>,
    address: &SocketAddr,
    addresses: &[SocketAddr],
    all: &mut Tries,
) -> Result<HandshakeVerdict, Fault>
    ensures comes { OnOk result (AllCome dial.now all.old → AllCome dial.now all.new) }
    ensures verdict { IfOk result (λ v. all.new.verdicts.items ≡ all.old.verdicts.items ++ v ∷ []) }
{
    let mut attempt = AddressAttempt::begin(dial, address, addresses, all.budget)?;
    let verdict = verdict_in(attempt.probe_node())?;
    all.push(attempt, verdict)?;
    Ok(verdict)
}

// Tries each address, until the node is found at one.
#[tactic(auto, using(crate::proofs::Trying::none_come))]
fn find_node(dial: &Dial<'_>, addresses: &[SocketAddr]) -> Result<Tries, Fault>
    ensures comes { IfOk result (λ all. AllCome dial.now all) }
    ensures tried { IfOk result (λ all. AreTried (length addresses.now) all.verdicts.items) }
{
    let mut all = Tries::nothing(dial, addresses);
    for address in addresses {
        if is_found(try_address(dial, address, addresses, &mut all)?) {
            return Ok(all);
        }
    }
    Ok(all)
}

// These names, and those of one more port mapper.
fn with_more(alloc: Global, known: Option<Names>, more: Names) -> Result<Names, Fault> {
    match known {
        None => Ok(more),
        Some(mut known) => {
            known.merge(alloc, &more)?;
            Ok(known)
        }
    }
}

// Asks at each address, and returns what all port mappers that answered know.
fn find_names(
    dial: &Dial<'_>,
    addresses: &[SocketAddr],
    all: &mut Tries,
) -> Result<Option<Names>, Fault> {
    let mut known: Option<Names> = None;
    for address in addresses {
        let mut attempt = AddressAttempt::begin(dial, address, addresses, all.budget)?;
        match attempt.ask_for_names() {
            Ok(names) => {
                all.pass(&attempt);
                known = Some(with_more(dial.lines.alloc, known, names)?);
            }
            Err(Stop::Verdict(verdict)) => all.push(attempt, verdict)?,
            Err(Stop::Fault(fault)) => return Err(fault),
        }
    }
    Ok(known)
}

/// Dials the node at the addresses of its host, prints each step, and returns the result.
pub fn probe(dial: &Dial<'_>, addresses: Addresses) -> Result<ProbeOutcome, Fault>
    // The verdict is that of what was said, or of the way.
    ensures comes { IfOk result (λ it. Comes dial.now it.found it.verdict) }
    ensures found { IfOk addresses (λ all. IfOk result (λ it. it.addresses ≡ all)) }
    // Tries are made until one finds the node, or as many as there are addresses.
    ensures tried { IfOk addresses (λ all. IfOk result (λ it. AreTried (length all.items) it.verdicts.items)) }
    ensures no_host { IfErr addresses (λ error. IfOk result (λ it. it.verdict ≡ host_verdict (is_some dial.now.choices.address) error)) }
{
    dial.lines.put_styles(dial.own, dial.node)?;
    let addresses = match addresses {
        Ok(addresses) => addresses,
        Err(error) => return Ok(no_host(dial.lines.alloc, &dial.choices, error)),
    };
    let all = find_node(dial, &addresses)?;
    Ok(all.into_outcome(addresses))
}

/// Asks the port mappers of a host for all nodes that they know, at each of its addresses, and prints each step.
pub fn ask_census(dial: &Dial<'_>, addresses: Addresses) -> Result<Census, Fault>
    ensures found { IfOk addresses (λ all. IfOk result (λ census. IfErr census (λ it. it.addresses ≡ all))) }
    ensures no_host { IfErr addresses (λ error. IfOk result
        (λ census. IsErrAnd census (λ it. it.verdict ≡ host_verdict (is_some dial.now.choices.address) error))) }
{
    let addresses = match addresses {
        Ok(addresses) => addresses,
        Err(error) => return Ok(Err(no_host(dial.lines.alloc, &dial.choices, error))),
    };
    let mut all = Tries::nothing(dial, &addresses);
    match find_names(dial, &addresses, &mut all)? {
        Some(names) => Ok(Ok(names)),
        None => Ok(Err(all.into_outcome(addresses))),
    }
}
