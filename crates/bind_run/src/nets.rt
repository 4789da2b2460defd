//! What the word of a net means.
ghost use Rattle.std.specs.Prelude.{◌≡◌, ◌∷◌, [], ◌++◌, true, Some, OnOk, IfOk, map};
ghost use Rattle.coco_base.specs.Numbers.{are_digits};
ghost use Rattle.bind_run.specs.Nets.{AreAlike, meaning_in, names_of, net_named, place_in, port_named, seen_wires};

use crate::names::Names;
use crate::net_word::place_word;
use coco_base::{Flat, FlatNet, FlatPort, NoMemory, Wire, number_of};
use std::alloc::Global;

/// Why a word means no wires: no net and no port has the name, or the place is not below its width.
#[derive(Clone, Copy, Debug, PartialEq, Eq)]
pub(crate) enum NetFault {
    Missing,
    Outside,
}

/// One of wires, by the digits of its place.
fn wire_at<'a>(wires: &'a [Wire], digits: &[u8]) -> Result<&'a [Wire], NetFault>
    requires { are_digits 10 digits.now ≡ true }
    ensures { seen_wires result ≡ place_in digits.now (Some wires.entry.now) }
{
    match number_of(digits, 10, u64::MAX) {
        Ok(place) if place < wires.len() as u64 => {
            let place = place as usize;
            Ok(&wires[place..place + 1])
        }
        _ => Err(NetFault::Outside),
    }
}

/// The wires that a word means among names.
pub(crate) fn meaning_in<'a>(names: &Names<'a>, word: &[u8]) -> Result<&'a [Wire], NetFault>
    ensures { seen_wires result ≡ meaning_in names.now word.now }
{
    if let Some(wires) = names.get(word) {
        return Ok(wires);
    }
    let Some((name, digits)) = place_word(word) else {
        return Err(NetFault::Missing);
    };
    match names.get(name) {
        Some(wires) => wire_at(wires, digits),
        None => Err(NetFault::Missing),
    }
}

/// Adds a name where it is not there yet.
fn note<'a>(
    alloc: Global,
    names: &mut Names<'a>,
    name: &[u8],
    wires: &'a [Wire],
) -> Result<(), NoMemory>
    ensures { OnOk result (AreAlike names.new (names.old ++ (name.now, wires.entry.now) ∷ [])) }
{
    if names.get(name).is_some() {
        return Ok(());
    }
    names.add(alloc, name, wires)
}

fn note_nets<'a>(alloc: Global, names: &mut Names<'a>, nets: &'a [FlatNet]) -> Result<(), NoMemory>
    ensures { OnOk result (AreAlike names.new (names.old ++ map net_named nets.entry.now)) }
{
    'nets: for net in nets {
        note(alloc, names, net.name.as_bytes(), net.wires.as_slice())?;
    }
    Ok(())
}

fn note_ports<'a>(
    alloc: Global,
    names: &mut Names<'a>,
    ports: &'a [FlatPort],
) -> Result<(), NoMemory>
    ensures { OnOk result (AreAlike names.new (names.old ++ map port_named ports.entry.now)) }
{
    'ports: for port in ports {
        note(alloc, names, port.name.as_bytes(), port.wires.as_slice())?;
    }
    Ok(())
}

/// The names of nets and ports. Of a net and a port of one name, and of several of one kind, the first counts.
pub(crate) fn names_of(alloc: Global, flat: &Flat) -> Result<Names<'_>, NoMemory>
    ensures { IfOk result (λ names. AreAlike names (names_of flat.entry.now)) }
{
    let mut names = Names::new(alloc);
    note_nets(alloc, &mut names, flat.nets.as_slice())?;
    note_ports(alloc, &mut names, flat.ports.as_slice())?;
    Ok(names)
}
