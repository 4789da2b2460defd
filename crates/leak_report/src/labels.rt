ghost use Rattle.std.specs.Prelude.{◌≡◌, ◌+◌, ◌*◌, ◌-◌, ◌<◌, ◌≤◌, ◌++◌, IfSome, OnOk, find, option_copied, true};
ghost use Rattle.leak_report.specs.Labels.{bit_text, declared_text, fresh_or_none, fresh_text, is_among, is_mask_bit, is_share, label_text, later_text, mask_or_none, mask_text, share_or_mask, share_text};

use crate::text::{add, add_name, add_number};
use coco_base::{LabelTable, MaskPlan, NoMemory, SecretPlan};
use std::alloc::Global;

// whether the label is of a share of the secret
fn is_share(label: u128, secret: &SecretPlan) -> bool
    ensures { result ≡ is_share label secret.now }
{
    let first = u128::from(secret.first);
    let count = u128::from(secret.shares) * u128::from(secret.width);
    first <= label && label < first + count
}

// whether the label is of a bit of the mask
fn is_mask_bit(label: u128, mask: &MaskPlan) -> bool
    ensures { result ≡ is_mask_bit label mask.now }
{
    let first = u128::from(mask.first);
    first <= label && label < first + u128::from(mask.width)
}

fn secret_of(label: u128, secrets: &[SecretPlan]) -> Option<&SecretPlan>
    ensures first { option_copied result ≡ find (is_share label) secrets.now }
    ensures fits { IfSome result (λ s. is_share label s.now ≡ true) }
{
    secrets.iter().find(|secret| is_share(label, *secret))
}

fn mask_of(label: u128, masks: &[MaskPlan]) -> Option<&MaskPlan>
    ensures first { option_copied result ≡ find (is_mask_bit label) masks.now }
    ensures fits { IfSome result (λ m. is_mask_bit label m.now ≡ true) }
{
    masks.iter().find(|mask| is_mask_bit(label, *mask))
}

fn add_bit(text: &mut Vec<u8>, alloc: Global, bit: u128) -> Result<(), NoMemory>
    ensures { OnOk result (text.new.items ≡ text.old.items ++ bit_text bit) }
{
    add(text, b"[")?;
    add_number(text, alloc, bit)?;
    add(text, b"]")
}

fn add_share(
    text: &mut Vec<u8>,
    alloc: Global,
    secret: &SecretPlan,
    label: u128,
) -> Result<(), NoMemory>
    requires { is_share label secret.now ≡ true }
    ensures { OnOk result (text.new.items ≡ text.old.items ++ share_text secret.now label) }
{
    let place = label - u128::from(secret.first);
    let width = u128::from(secret.width);
    add_name(text, alloc, secret.name.as_bytes())?;
    add(text, b".")?;
    add_number(text, alloc, place / width)?;
    add_bit(text, alloc, place % width)
}

fn add_mask(text: &mut Vec<u8>, alloc: Global, mask: &MaskPlan, label: u128) -> Result<(), NoMemory>
    requires { is_mask_bit label mask.now ≡ true }
    ensures { OnOk result (text.new.items ≡ text.old.items ++ mask_text mask.now label) }
{
    add_name(text, alloc, mask.name.as_bytes())?;
    add_bit(text, alloc, label - u128::from(mask.first))
}

fn add_fresh(
    text: &mut Vec<u8>,
    alloc: Global,
    mask: &MaskPlan,
    cycle: u128,
    place: u128,
) -> Result<(), NoMemory>
    requires { is_mask_bit place mask.now ≡ true }
    ensures { OnOk result (text.new.items ≡ text.old.items ++ fresh_text mask.now cycle place) }
{
    add_name(text, alloc, mask.name.as_bytes())?;
    add(text, b"@")?;
    add_number(text, alloc, cycle)?;
    add_bit(text, alloc, place - u128::from(mask.first))
}

fn add_declared(
    text: &mut Vec<u8>,
    alloc: Global,
    table: &LabelTable,
    label: u128,
) -> Result<(), NoMemory>
    ensures { OnOk result (text.new.items ≡ text.old.items ++ declared_text table.now label) }
{
    if let Some(secret) = secret_of(label, table.secrets.as_slice()) {
        return add_share(text, alloc, secret, label);
    }
    match mask_of(label, table.masks.as_slice()) {
        Some(mask) => add_mask(text, alloc, mask, label),
        None => Ok(()),
    }
}

fn add_later(
    text: &mut Vec<u8>,
    alloc: Global,
    table: &LabelTable,
    later: u128,
) -> Result<(), NoMemory>
    requires { 0 < table.now.per_cycle }
    ensures { OnOk result (text.new.items ≡ text.old.items ++ later_text table.now later) }
{
    let per_cycle = u128::from(table.per_cycle);
    let place = later % per_cycle;
    match mask_of(place, table.fresh.as_slice()) {
        Some(mask) => add_fresh(text, alloc, mask, later / per_cycle, place),
        None => Ok(()),
    }
}

/// Adds the name of a label of a run.
pub(crate) fn add_label(
    text: &mut Vec<u8>,
    alloc: Global,
    table: &LabelTable,
    label: u128,
) -> Result<(), NoMemory>
    requires { table.now.declared ≤ label → 0 < table.now.per_cycle }
    ensures { OnOk result (text.new.items ≡ text.old.items ++ label_text table.now label) }
{
    let declared = u128::from(table.declared);
    if label < declared {
        add_declared(text, alloc, table, label)
    } else {
        add_later(text, alloc, table, label - declared)
    }
}
