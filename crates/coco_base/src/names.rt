ghost use Rattle.std.specs.Prelude.{◌≡◌, ℕ, ◌+◌, ◌<◌, ◌^◌, Some, None, length, map, fold, flat_map, IfOk, option_map};
ghost use Rattle.std.specs.List.{range_with_len};
ghost use Rattle.coco_base.specs.BitNames.{better, bit_text, goes_before, is_hidden, name_of_bit, naming_place, net_places, place_text, places_from, port_places};
ghost use Rattle.coco_base.specs.Shown.{place_at, shown};

use crate::fault::NoMemory;
use crate::list::List;
use crate::netlist::{Flat, FlatNet, FlatPort, Wire};
use crate::text::Text;
use std::alloc::Global;

// a place of a net or a port: its name, its width, and which of its wires
#[derive(Clone, Copy, Debug)]
struct Named<'a> {
    name: &'a str,
    width: usize,
    place: usize,
}

fn is_hidden(name: &str) -> bool
    ensures { result ≡ is_hidden name.now }
{
    match name.as_bytes() {
        [] => false,
        [first, ..] => *first == b'$',
    }
}

fn goes_before(a: &str, b: &str) -> bool
    ensures { result ≡ goes_before a.now b.now }
{
    match (is_hidden(a), is_hidden(b)) {
        (false, true) => true,
        (true, false) => false,
        (false, false) => a.as_bytes().cmp(b.as_bytes()).is_lt(),
        (true, true) => a.as_bytes().cmp(b.as_bytes()).is_lt(),
    }
}

fn better<'a>(best: Option<Named<'a>>, other: Named<'a>) -> Named<'a>
    ensures { Some (shown result) ≡ better (option_map shown best.entry) (shown other.entry) }
{
    match best {
        None => other,
        Some(best) => {
            if goes_before(other.name, best.name) {
                other
            } else {
                best
            }
        }
    }
}

// puts what names the bits from `first` on into a table, with one net or port more
fn note<'a>(table: &mut [Option<Named<'a>>], first: u32, name: &'a str, wires: &[Wire])
    ensures { (k : ℕ) → k < length table.old → place_at table.new k
        ≡ fold better (place_at table.old k) (places_from name.entry.now (length wires.now) 0 wires.now (first + k)) }
{
    'wires: for (place, wire) in wires.iter().enumerate() {
        if let Wire::Bit(number) = *wire {
            if first <= number {
                let index = (number - first) as usize;
                if index < table.len() {
                    let named = Named {
                        name,
                        width: wires.len(),
                        place,
                    };
                    table[index] = Some(better(table[index], named));
                }
            }
        }
    }
}

fn note_nets<'a>(table: &mut [Option<Named<'a>>], first: u32, nets: &'a [FlatNet])
    ensures { (k : ℕ) → k < length table.old → place_at table.new k
        ≡ fold better (place_at table.old k) (flat_map (net_places (first + k)) nets.entry.now) }
{
    'nets: for net in nets {
        note(table, first, net.name.as_str(), net.wires.as_slice());
    }
}

fn note_ports<'a>(table: &mut [Option<Named<'a>>], first: u32, ports: &'a [FlatPort])
    ensures { (k : ℕ) → k < length table.old → place_at table.new k
        ≡ fold better (place_at table.old k) (flat_map (port_places (first + k)) ports.entry.now) }
{
    'ports: for port in ports {
        note(table, first, port.name.as_str(), port.wires.as_slice());
    }
}

// puts what names the bits from `first` on into a table that is empty before
fn note_all<'a>(table: &mut [Option<Named<'a>>], first: u32, flat: &'a Flat)
    requires { (k : ℕ) → k < length table.old → place_at table.old k ≡ None }
    ensures { (k : ℕ) → k < length table.old → place_at table.new k ≡ naming_place flat.entry.now (first + k) }
{
    note_nets(table, first, flat.nets.as_slice());
    note_ports(table, first, flat.ports.as_slice());
}

fn text(alloc: Global, bit: u32, place: Option<Named>) -> Result<Text, NoMemory>
    ensures { IfOk result (λ t. t ≡ bit_text bit (option_map shown place.entry)) }
{
    match place {
        None => Ok(Text::from_string(format!(in alloc; "#{bit}")?)),
        Some(named) => place_text(alloc, named),
    }
}

fn place_text(alloc: Global, named: Named) -> Result<Text, NoMemory>
    ensures { IfOk result (λ t. t ≡ place_text (shown named.entry)) }
{
    let Named { name, width, place } = named;
    if width == 1 {
        return Text::of(alloc, name);
    }
    Ok(Text::from_string(format!(in alloc; "{name}[{place}]")?))
}

/// The name of a bit: of all nets and ports that have it, that of one whose name does not begin with `$`, if any, and
/// then the least by its bytes, a net before a port of one name; with the least place `[k]` where the net or port has
/// several wires. A bit without a name is `#` and its number.
pub fn name_of_bit(alloc: Global, flat: &Flat, bit: u32) -> Result<Text, NoMemory>
    ensures { IfOk result (λ t. t ≡ name_of_bit flat.now bit) }
{
    let mut table = [None];
    note_all(&mut table, bit, flat);
    text(alloc, bit, table[0])
}

fn empty_table<'a>(alloc: Global, bits: usize) -> Result<Vec<Option<Named<'a>>>, NoMemory>
    ensures len { IfOk result (λ v. length v.items ≡ bits) }
    ensures empty { IfOk result (λ v. (k : ℕ) → place_at v.items k ≡ None) }
{
    let mut table = Vec::with_capacity(alloc, bits)?;
    'bits: for _bit in 0..bits {
        table.push(None)?;
    }
    Ok(table)
}

// the names of the bits from 0 on, of a table of what names them
fn texts(alloc: Global, table: &[Option<Named>]) -> Result<List<Text>, NoMemory>
    requires { length table.now < 2 ^ 32 }
    ensures { IfOk result (λ names.
        names ≡ map (λ k. bit_text k (place_at table.now k)) (range_with_len 0 (length table.now))) }
{
    let mut names = List::new(alloc);
    'bits: for (bit, place) in table.iter().enumerate() {
        names.push(text(alloc, bit as u32, *place)?)?;
    }
    Ok(names)
}

// the names of as many bits as a table has places, in one walk
fn names<'a>(
    alloc: Global,
    flat: &'a Flat,
    table: &mut [Option<Named<'a>>],
) -> Result<List<Text>, NoMemory>
    requires few { length table.old < 2 ^ 32 }
    requires empty { (k : ℕ) → k < length table.old → place_at table.old k ≡ None }
    ensures { IfOk result (λ names. names ≡ map (name_of_bit flat.entry.now) (range_with_len 0 (length table.old))) }
{
    note_all(table, 0, flat);
    texts(alloc, table)
}

/// The names of all bits, in one walk over nets and ports: place b of the list is the name of bit b.
pub fn names_of_bits(alloc: Global, flat: &Flat) -> Result<List<Text>, NoMemory>
    ensures { IfOk result (λ names. names ≡ map (name_of_bit flat.now) (range_with_len 0 flat.now.bits)) }
{
    let mut table = empty_table(alloc, flat.bits as usize)?;
    names(alloc, flat, table.as_mut_slice())
}
