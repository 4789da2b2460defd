// The settled valuation, cell by cell in order.
ghost use Rattle.std.specs.Prelude.{◌≡◌, ◌<◌, ℕ, Contains, length, get_or};
ghost use Rattle.coco_model.specs.Netlist.{cell_value, wire_value, IsInRange};
ghost use Rattle.gate_graph.specs.declared.driver.Driver.TheVariants.{Nothing};
ghost use Rattle.gate_graph.specs.Settled.{leaf_value, valuation_of, IsAfterCells};

use crate::driver::Driver;
use cell_table::value;
use coco_base::{Flat, FlatCell, Wire};

/// Writes the values of the leaves at the bits that input ports and flops drive, and 0 at all others.
pub(crate) fn place_leaves(drivers: &[Driver], leaves: &[bool], row: &mut [bool])
    requires leaves { length leaves.now ≡ length drivers.now }
    requires row { length row.old ≡ length drivers.now }
    ensures { (b : ℕ) → valuation_of row.new b ≡ leaf_value (get_or drivers.now b Nothing) (valuation_of leaves.now b) }
{
    'bits: for bit in 0..drivers.len() {
        row[bit] = leaf_value(drivers[bit], leaves[bit]);
    }
}

fn leaf_value(driver: Driver, value: bool) -> bool
    ensures { result ≡ leaf_value driver value }
{
    match driver {
        Driver::Port(_) | Driver::Flop(_) => value,
        Driver::Cell(_) | Driver::Nothing => false,
    }
}

/// Gives the output of each cell its function of the present inputs, in the order given.
pub(crate) fn settle_cells(flat: &Flat, order: &[u32], row: &mut [bool])
    requires range { IsInRange flat.now }
    requires numbers { (i : ℕ) → Contains order.now i → i < length flat.now.cells }
    requires row { length row.old ≡ flat.now.bits }
    ensures { IsAfterCells flat.now order.now row.old row.new }
{
    'cells: for number in order {
        let cell = &flat.cells.as_slice()[*number as usize];
        row[cell.output as usize] = cell_value(row, cell);
    }
}

/// What a cell computes from the values of all bits; a bit behind the list's end is 0. It takes no memory.
pub fn cell_value(row: &[bool], cell: &FlatCell) -> bool
    ensures { result ≡ cell_value (valuation_of row.now) cell.now }
{
    let [a, b, c, d] = cell.inputs;
    let inputs = [
        wire_value(row, a),
        wire_value(row, b),
        wire_value(row, c),
        wire_value(row, d),
    ];
    value(cell.kind, inputs)
}

fn wire_value(row: &[bool], wire: Wire) -> bool
    ensures { result ≡ wire_value (valuation_of row.now) wire }
{
    match wire {
        Wire::Const(value) => value,
        Wire::Bit(bit) => row.get(bit as usize).copied().unwrap_or(false),
    }
}
