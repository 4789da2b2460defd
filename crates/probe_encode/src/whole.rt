// The secret bits whose shares all have variables.
ghost use Rattle.std.specs.Prelude.{◌≡◌, ℕ, suc, ◌<◌, ◌^◌, ◌&&◌, nat_eq, cond, map, [], ◌∷◌, ◌++◌, get_or, IfOk, OnOk};
ghost use Rattle.std.specs.List.{range_with_len};
ghost use Rattle.std.specs.List.Sorted.{IsStrictlyIncreasing};
ghost use Rattle.coco_model.specs.Goals.{is_among, all_among, variable_of, whole_with, whole_bits};
ghost use Rattle.coco_model.specs.Labels.{IsLabelTable, secret_labels, share_label, share_labels};
ghost use Rattle.probe_encode.specs.Shares.{AreSmall};

use coco_base::{LabelTable, List, NoMemory, SecretPlan};
use std::alloc::Global;

/// The labels of the shares of each secret bit whose shares all have variables, by the label of share 0.
pub(crate) fn whole_bits(
    alloc: Global,
    table: &LabelTable,
    labels: &[u32],
) -> Result<List<List<u32>>, NoMemory>
    requires table { IsLabelTable table.now }
    requires labels { IsStrictlyIncreasing labels.now }
    ensures { IfOk result (λ bits. bits ≡ whole_bits table.now labels.now) }
{
    let shares = secret_labels(alloc, table.secrets.as_slice())?;
    let mut bits = List::new(alloc);
    'labels: for label in labels {
        add_whole(alloc, labels, shares.as_slice(), *label, &mut bits)?;
    }
    Ok(bits)
}

// Of the secret bits those whose share 0 is a label and whose shares all have variables.
fn add_whole(
    alloc: Global,
    labels: &[u32],
    shares: &[List<u32>],
    label: u32,
    bits: &mut List<List<u32>>,
) -> Result<(), NoMemory>
    requires { IsStrictlyIncreasing labels.now }
    ensures { OnOk result (bits.new ≡ bits.old ++ whole_with labels.now shares.now label) }
{
    'shares: for bit in shares {
        add_if_whole(alloc, labels, bit.as_slice(), label, bits)?;
    }
    Ok(())
}

fn add_if_whole(
    alloc: Global,
    labels: &[u32],
    bit: &[u32],
    label: u32,
    bits: &mut List<List<u32>>,
) -> Result<(), NoMemory>
    requires { IsStrictlyIncreasing labels.now }
    ensures { let whole = all_among labels.now bit.now && nat_eq (get_or bit.now 0 (suc label)) label in
        OnOk result (bits.new ≡ bits.old ++ cond whole (bit.now ∷ []) []) }
{
    if is_whole(labels, bit, label) {
        let bit = List::from_vec(Vec::from_slice(alloc, bit)?);
        bits.push(bit)?;
    }
    Ok(())
}

fn is_whole(labels: &[u32], bit: &[u32], label: u32) -> bool
    requires { IsStrictlyIncreasing labels.now }
    ensures { result ≡ (all_among labels.now bit.now && nat_eq (get_or bit.now 0 (suc label)) label) }
{
    starts_with(bit, label) && all_among(labels, bit)
}

fn starts_with(bit: &[u32], label: u32) -> bool
    ensures { result ≡ nat_eq (get_or bit.now 0 (suc label)) label }
{
    match bit.first() {
        Some(first) => *first == label,
        None => false,
    }
}

// Whether all of some labels have variables.
fn all_among(labels: &[u32], bit: &[u32]) -> bool
    requires { IsStrictlyIncreasing labels.now }
    ensures { result ≡ all_among labels.now bit.now }
{
    'bits: for label in bit {
        if !is_among(labels, *label) {
            return false;
        }
    }
    true
}

fn is_among(labels: &[u32], label: u32) -> bool
    requires { IsStrictlyIncreasing labels.now }
    ensures { result ≡ is_among labels.now label }
{
    match labels.binary_search(&label) {
        Ok(_) => true,
        Err(_) => false,
    }
}

/// The variable of a label: its place among those with variables.
pub(crate) fn variable_of(labels: &[u32], label: u32) -> usize
    requires { IsStrictlyIncreasing labels.now }
    ensures { result ≡ variable_of labels.now label }
{
    match labels.binary_search(&label) {
        Ok(place) => place,
        Err(_) => labels.len(),
    }
}

// For each bit of each secret, in order, the labels of its shares.
fn secret_labels(alloc: Global, secrets: &[SecretPlan]) -> Result<List<List<u32>>, NoMemory>
    requires { AreSmall (secret_labels secrets.now) }
    ensures { IfOk result (λ sets. sets ≡ secret_labels secrets.now) }
{
    let mut sets = List::new(alloc);
    'secrets: for secret in secrets {
        add_bits(alloc, &mut sets, secret)?;
    }
    Ok(sets)
}

fn add_bits(alloc: Global, sets: &mut List<List<u32>>, secret: &SecretPlan) -> Result<(), NoMemory>
    requires { AreSmall (map (share_labels secret.now) (range_with_len 0 secret.now.width)) }
    ensures { OnOk result (sets.new ≡ sets.old ++ map (share_labels secret.now) (range_with_len 0 secret.now.width)) }
{
    'bits: for bit in 0..secret.width {
        let labels = share_labels(alloc, secret, bit)?;
        sets.push(labels)?;
    }
    Ok(())
}

fn share_labels(alloc: Global, secret: &SecretPlan, bit: u32) -> Result<List<u32>, NoMemory>
    requires { (share : ℕ) → share < secret.now.shares → share_label secret.now share bit < 2 ^ 32 }
    ensures { IfOk result (λ labels. labels ≡ share_labels secret.now bit) }
{
    let mut labels = List::new(alloc);
    'shares: for share in 0..secret.shares {
        labels.push(secret.first + share * secret.width + bit)?;
    }
    Ok(labels)
}
