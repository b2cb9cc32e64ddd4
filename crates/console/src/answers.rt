ghost use Rattle.std.specs.Prelude.{◌≡◌, ◌++◌, IfOk, string_bytes, codes, decimal, MatchResult};
ghost use Rattle.std.specs.List.{repeat};
ghost use Rattle.text.specs.Reads.{ReadsAs};
ghost use Rattle.console.specs.Answers.{Fails, SaysNodes, SaysPorts};
ghost use Rattle.console.specs.Lines.{listed, ports_line};
ghost use Rattle.console.specs.Texts.{text_of};

use crate::failure::{Failure, told};
use crate::sources::Sources;
use packet::Packet;
use policy::{Policy, evaluate};
use std::alloc::{AllocError, Global};
use text::read;

/// What `yarnbrick help` prints.
pub const HELP: &str = "\
yarnbrick check FILE..                                   read; say how many nodes, or the fault
yarnbrick ports [--switch N] --packet \"FIELD=V ..\" FILE..  where the policy sends a packet
yarnbrick help

Several files are one text. The switch is 1 unless given. -- ends options.";

/// The policy of some files.
fn policy_of(heap: Global, sources: &Sources) -> Result<Policy, Failure>
    ensures { MatchResult result (λ p. ReadsAs (text_of sources.now) p) (λ f. Fails sources.now f) }
{
    let mut policy = Policy::empty();
    read(&mut policy, sources.text()).map_err(|fault| told(sources.tell(heap, &fault)))?;
    Ok(policy)
}

/// How many nodes the policy of some files has.
pub fn check(heap: Global, sources: &Sources) -> Result<String, Failure>
    ensures { MatchResult result (λ line. SaysNodes (text_of sources.now) (string_bytes line)) (λ f. Fails sources.now f) }
{
    let policy = policy_of(heap, sources)?;
    let nodes = policy.nodes().len();
    Ok(format!(in heap; "{nodes} nodes")?)
}

/// Where the policy of some files sends a packet at a switch.
// Switch and packet apart: a struct of the two would be made for this one call.
pub fn ports(
    heap: Global,
    sources: &Sources,
    switch: u16,
    packet: &Packet,
) -> Result<String, Failure>
    ensures { MatchResult result (λ line. SaysPorts (text_of sources.now) switch packet.now (string_bytes line)) (λ f. Fails sources.now f) }
{
    let policy = policy_of(heap, sources)?;
    let counts = evaluate(&policy, switch, packet);
    Ok(line_of(heap, &counts)?)
}

/// Ports in rising order, each as often as it is counted.
fn line_of(heap: Global, counts: &[u16; 48]) -> Result<String, AllocError>
    ensures { IfOk result (λ line. string_bytes line ≡ ports_line counts.now) }
{
    let list = list_of(heap, &counts[..])?;
    if list.is_empty() {
        return String::from_str(heap, "ports none");
    }
    format!(in heap; "ports{list}")
}

/// The ports of a line, each after a space and as often as it is counted.
fn list_of(heap: Global, counts: &[u16]) -> Result<String, AllocError>
    ensures { IfOk result (λ list. string_bytes list ≡ listed 1 counts.now) }
{
    let mut list = String::new(heap);
    for (count, port) in counts.iter().zip(1..) {
        let copies = copies_of(heap, port, *count)?;
        list.push_str(copies.as_str())?;
    }
    Ok(list)
}

/// One port, after a space, as often as it is counted.
fn copies_of(heap: Global, port: usize, count: u16) -> Result<String, AllocError>
    ensures { IfOk result (λ copies. string_bytes copies ≡ repeat count (codes " " ++ decimal port)) }
{
    format!(in heap; " {port}")?.repeat(heap, usize::from(count))
}
