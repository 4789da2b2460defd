ghost use Rattle.std.specs.Prelude.{◌≡◌, ◌<◌, ◌≤◌, ◌+◌, ◌^◌, length, IfOk, OnOk};
ghost use Rattle.circuit_clauses.specs.Formulas.{Fits};
ghost use Rattle.clause_builds.specs.Builds.{made, after};
ghost use Rattle.probe_clauses.specs.Windows.{to_block_end, tails, from_block_start, over_window, lasting, heads, windowed};

use circuit_clauses::{FALSE, Form, Signal, TRUE};
use clause_builds::signal_at;
use coco_base::{List, NoMemory};
use std::alloc::Global;

/// By cycle, whether some signal of a row is true in the window that ends with the cycle.
pub(crate) fn windowed(
    alloc: Global,
    form: &mut Form,
    window: usize,
    row: &[Signal],
) -> Result<List<Signal>, NoMemory>
    requires lasting { 1 ≤ window }
    requires fits { Fits (after form.old (windowed window row.now)) }
    ensures row { IfOk result (λ list. list ≡ made form.old (windowed window row.now)) }
    ensures formula { OnOk result (form.new ≡ after form.old (windowed window row.now)) }
{
    let tails = tails(alloc, form, window, row)?;
    let list = heads(alloc, form, window, row, tails.as_slice())?;
    Ok(list)
}

/// By cycle, whether some signal is true from it to the end of its block.
fn tails(
    alloc: Global,
    form: &mut Form,
    window: usize,
    row: &[Signal],
) -> Result<Vec<Signal>, NoMemory>
    requires lasting { 1 ≤ window }
    requires fits { Fits (after form.old (tails window row.now)) }
    ensures row { IfOk result (λ list. list.items ≡ made form.old (tails window row.now)) }
    ensures formula { OnOk result (form.new ≡ after form.old (tails window row.now)) }
{
    let count = row.len();
    let mut tails = vec![in alloc; FALSE; count]?;
    'cycles: for i in 0..count {
        let cycle = count - 1 - i;
        tails[cycle] = to_block_end(form, window, row, cycle, tails.as_slice())?;
    }
    Ok(tails)
}

fn to_block_end(
    form: &mut Form,
    window: usize,
    row: &[Signal],
    cycle: usize,
    tails: &[Signal],
) -> Result<Signal, NoMemory>
    requires lasting { 1 ≤ window }
    requires cycle { cycle < length row.now }
    requires fits { Fits (after form.old (to_block_end window row.now cycle tails.now)) }
    ensures signal { IfOk result (λ s. s ≡ made form.old (to_block_end window row.now cycle tails.now)) }
    ensures formula { OnOk result (form.new ≡ after form.old (to_block_end window row.now cycle tails.now)) }
{
    if row.len() - cycle / window * window <= window {
        return Ok(FALSE);
    }
    if cycle % window == window - 1 {
        return Ok(signal_at(row, cycle));
    }
    if cycle % window == 0 {
        return Ok(FALSE);
    }
    form.or_and(signal_at(tails, cycle + 1), signal_at(row, cycle), TRUE)
}

/// By cycle, whether some signal is true in its window, from those of blocks.
fn heads(
    alloc: Global,
    form: &mut Form,
    window: usize,
    row: &[Signal],
    tails: &[Signal],
) -> Result<List<Signal>, NoMemory>
    requires lasting { 1 ≤ window }
    requires fits { Fits (after form.old (heads window row.now tails.now)) }
    ensures row { IfOk result (λ list. list ≡ (made form.old (heads window row.now tails.now)).row) }
    ensures formula { OnOk result (form.new ≡ after form.old (heads window row.now tails.now)) }
{
    let mut head = FALSE;
    let mut list = List::new(alloc);
    'cycles: for cycle in 0..row.len() {
        head = from_block_start(form, window, row, cycle, head)?;
        let over = over_window(form, window, tails, cycle, head)?;
        list.push(over)?;
    }
    Ok(list)
}

fn from_block_start(
    form: &mut Form,
    window: usize,
    row: &[Signal],
    cycle: usize,
    head: Signal,
) -> Result<Signal, NoMemory>
    requires lasting { 1 ≤ window }
    requires fits { Fits (after form.old (from_block_start window row.now cycle head)) }
    ensures signal { IfOk result (λ s. s ≡ made form.old (from_block_start window row.now cycle head)) }
    ensures formula { OnOk result (form.new ≡ after form.old (from_block_start window row.now cycle head)) }
{
    if cycle % window == 0 {
        return Ok(signal_at(row, cycle));
    }
    form.or_and(head, signal_at(row, cycle), TRUE)
}

fn over_window(
    form: &mut Form,
    window: usize,
    tails: &[Signal],
    cycle: usize,
    head: Signal,
) -> Result<Signal, NoMemory>
    requires lasting { 1 ≤ window }
    requires cycle { cycle + 1 < 2 ^ 64 }
    requires fits { Fits (after form.old (over_window window tails.now cycle head)) }
    ensures signal { IfOk result (λ s. s ≡ made form.old (over_window window tails.now cycle head)) }
    ensures formula { OnOk result (form.new ≡ after form.old (over_window window tails.now cycle head)) }
{
    if cycle % window == window - 1 || cycle < window {
        return Ok(head);
    }
    form.or_and(signal_at(tails, cycle + 1 - window), head, TRUE)
}
