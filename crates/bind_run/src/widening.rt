//! A netlist with its word leaves.
ghost use Rattle.std.specs.Prelude.{◌≡◌, ◌≤◌, ◌<◌, ◌+◌, ◌*◌, ◌^◌, ◌++◌, ◌∷◌, [], length, map, IfOk, OnOk};
ghost use Rattle.std.specs.Cmp.Lexicographic.{slice_cmp};
ghost use Rattle.std.specs.Ordering.{is_lt, nat_cmp};
ghost use Rattle.std.specs.List.{insert, range_with_len};
ghost use Rattle.coco_base.specs.declared.netlist.FlatPort.{FlatPort};
ghost use Rattle.coco_base.specs.declared.netlist.Wire.TheVariants.{Bit};
ghost use Rattle.label_file.specs.Conditions.{AreLabels};
ghost use Rattle.bind_run.specs.Causes.{Answers};
ghost use Rattle.gate_graph.specs.Graphs.{Gates, IsGraphOf};
ghost use Rattle.bind_run.specs.Widened.{HasGraph, bits_with, first_taken, leaf_addresses, leaf_bits, leaf_port, widened, widened_by, with_leaves, with_port};

use crate::copies::{cells_of, flops_of, nets_of, ports_of};
use crate::fault::BindFault;
use crate::items::first;
use crate::leaf_name::leaf_name;
use crate::names::Names;
use crate::nets::names_of;
use coco_base::{Flat, FlatPort, Limits, List, NoMemory, Text, Wire};
use label_file::{LabelLine, Labels};
use std::alloc::Global;

/// How many bits a memory word has.
#[tactic(auto, unfolding(crate::specs::Widened::leaf_bits))]
fn leaf_bits() -> u32
    ensures value { result ≡ leaf_bits }
    ensures small { leaf_bits ≤ 32 }
{
    32
}

/// The addresses of `leaf` lines, in order.
fn leaf_addresses(alloc: Global, lines: &[LabelLine]) -> Result<Vec<u32>, NoMemory>
    ensures { IfOk result (λ addresses. addresses.items ≡ leaf_addresses lines.now) }
{
    let mut addresses = Vec::new(alloc);
    let mut rest = lines;
    'lines: while let Some((line, more)) = first(rest) {
        if let LabelLine::Leaf { address } = line {
            addresses.push(*address)?;
        }
        rest = more;
    }
    Ok(addresses)
}

/// The first port of words whose name is among names.
fn first_taken(
    alloc: Global,
    names: &Names<'_>,
    addresses: &[u32],
) -> Result<Option<Text>, NoMemory>
    ensures { IfOk result (λ taken. taken ≡ first_taken names.now addresses.now) }
{
    let mut rest = addresses;
    'addresses: while let Some((address, more)) = first(rest) {
        let name = leaf_name(alloc, *address)?;
        if names.get(name.as_bytes()).is_some() {
            return Ok(Some(name));
        }
        rest = more;
    }
    Ok(None)
}

fn goes_before(name: &str, other: &str) -> bool
    ensures { result ≡ is_lt (slice_cmp nat_cmp name.now other.now) }
{
    name.as_bytes().cmp(other.as_bytes()).is_lt()
}

/// The place of a port of a name among ports in order of names: before the first whose name is greater.
fn place_for(ports: &[FlatPort], name: &str) -> usize
    ensures within { result ≤ length ports.now }
    ensures place { (p : FlatPort) → p.name ≡ name.now → with_port p ports.now ≡ insert ports.now result p }
{
    let mut place = 0usize;
    let mut rest = ports;
    'ports: while let Some((port, more)) = first(rest) {
        if goes_before(name, port.name.as_str()) {
            break;
        }
        place += 1;
        rest = more;
    }
    place
}

/// The bits of a word, from the first on.
#[tactic(auto, using(crate::proofs::ListLemmas::range_more))]
fn leaf_wires(alloc: Global, first: u32) -> Result<List<Wire>, NoMemory>
    requires { first + leaf_bits ≤ 2 ^ 32 }
    ensures { IfOk result (λ wires. wires ≡ map Bit (range_with_len first leaf_bits)) }
{
    let mut wires = Vec::new(alloc);
    'bits: for place in 0..leaf_bits() {
        wires.push(Wire::Bit(first + place))?;
    }
    Ok(List::from_vec(wires))
}

/// Adds the port of a word at its place.
fn add_leaf(
    alloc: Global,
    ports: &mut Vec<FlatPort>,
    first: u32,
    address: u32,
) -> Result<(), NoMemory>
    requires { first + leaf_bits ≤ 2 ^ 32 }
    ensures { OnOk result (ports.new.items ≡ with_port (leaf_port first address) ports.old.items) }
{
    let name = leaf_name(alloc, address)?;
    let place = place_for(ports.as_slice(), name.as_str());
    let wires = leaf_wires(alloc, first)?;
    ports.insert(
        place,
        FlatPort {
            name,
            input: true,
            wires,
        },
    )?;
    Ok(())
}

/// Ports with those of words. A list of them has numbers of 32 bits for its places.
fn ports_with(alloc: Global, flat: &Flat, addresses: &[u32]) -> Result<List<FlatPort>, NoMemory>
    requires { bits_with flat.now addresses.now < 2 ^ 32 }
    ensures ports { IfOk result (λ ports. ports ≡ with_leaves flat.now.bits flat.now.ports addresses.now) }
    ensures few { IfOk result (λ ports. length ports < 2 ^ 32) }
{
    let mut ports = ports_of(alloc, flat.ports.as_slice())?;
    let mut bits = flat.bits;
    let mut rest = addresses;
    'addresses: while let Some((address, more)) = first(rest) {
        add_leaf(alloc, &mut ports, bits, *address)?;
        bits += leaf_bits();
        rest = more;
    }
    if ports.len() >= 1 << 32 {
        return Err(NoMemory);
    }
    Ok(List::from_vec(ports))
}

fn widened(alloc: Global, flat: &Flat, bits: u32, addresses: &[u32]) -> Result<Flat, NoMemory>
    requires { bits ≡ bits_with flat.now addresses.now }
    ensures wide { IfOk result (λ wide. wide ≡ widened flat.now addresses.now) }
    ensures few { IfOk result (λ wide. length wide.ports < 2 ^ 32) }
{
    Ok(Flat {
        bits,
        ports: ports_with(alloc, flat, addresses)?,
        cells: cells_of(alloc, flat.cells.as_slice())?,
        flops: flops_of(alloc, flat.flops.as_slice())?,
        nets: nets_of(alloc, flat.nets.as_slice())?,
    })
}

/// How many bits a netlist has with those of words.
#[tactic(auto, unfolding(crate::specs::Widened::leaf_bits))]
fn bits_with(flat: &Flat, addresses: &[u32]) -> u64
    requires { length addresses.now < 2 ^ 32 }
    ensures { result ≡ bits_with flat.now addresses.now }
{
    u64::from(flat.bits) + u64::from(leaf_bits()) * addresses.len() as u64
}

/// The netlist with an input port `mem@XXXXXXXX` of 32 bits for each `leaf` line, at its place in the order of names.
/// The bits of the first line are those from `flat.bits` on. A name that is taken comes before too many bits. Where the netlist
/// has a graph, the widened one has one too: `build` refuses it for want of memory alone.
pub fn widen(
    alloc: Global,
    flat: &Flat,
    labels: &Labels,
    limits: &Limits,
) -> Result<Flat, BindFault>
    requires { AreLabels labels.now }
    ensures wide { Answers (λ wide. wide) result (widened_by flat.now labels.now.lines limits.now.bits) }
    ensures graph { IfOk result (λ wide. (gates : Gates) → IsGraphOf flat.now gates → HasGraph wide) }
{
    let addresses = leaf_addresses(alloc, labels.lines.as_slice())?;
    let names = names_of(alloc, flat)?;
    if let Some(name) = first_taken(alloc, &names, addresses.as_slice())? {
        return Err(BindFault::NameTaken { name });
    }
    let count = bits_with(flat, addresses.as_slice());
    let limit = u64::from(limits.bits);
    if limit < count {
        return Err(BindFault::LeafBits { count, limit });
    }
    Ok(widened(alloc, flat, count as u32, addresses.as_slice())?)
}
