// Whether a set of labels has no mask and no fresh label, and all shares or none of each secret bit.
ghost use Rattle.std.specs.Prelude.{◌↔◌, ◌<◌, ℕ, Contains, IsTrue};
ghost use Rattle.coco_base.specs.declared.labels.SecretPlan.{SecretPlan};
ghost use Rattle.coco_base.specs.LabelSets.{has};
ghost use Rattle.coco_model.specs.Labels.{IsLabelTable};
ghost use Rattle.coco_model.specs.Findings.{IsWhole};
ghost use Rattle.stable_sets.specs.Shares.{AllAlike, AllOrNone, AreBitAlike, AllShares, FitsLabels, IsShareOf, IsSomeShare};

use coco_base::{LabelSet, LabelTable, SecretPlan};

pub(crate) fn is_whole(table: &LabelTable, set: &LabelSet) -> bool
    requires { IsLabelTable table.now }
    ensures { IsTrue result ↔ IsWhole table.now (has set.now) }
{
    let secrets = table.secrets.as_slice();
    are_shares(secrets, set) && are_alike(secrets, set)
}

// whether each member of a set is a share
fn are_shares(secrets: &[SecretPlan], set: &LabelSet) -> bool
    ensures { IsTrue result ↔ AllShares secrets.now set.now }
{
    let mut all = true;
    'labels: for label in set.iter().copied() {
        if !is_some_share(secrets, label) {
            all = false;
        }
    }
    all
}

// whether a label is a share of one of the secrets
fn is_some_share(secrets: &[SecretPlan], label: u32) -> bool
    ensures { IsTrue result ↔ IsSomeShare secrets.now label }
{
    'secrets: for place in 0..secrets.len() {
        if is_share(&secrets[place], label) {
            return true;
        }
    }
    false
}

fn is_share(secret: &SecretPlan, label: u32) -> bool
    ensures { IsTrue result ↔ IsShareOf secret.now label }
{
    secret.first <= label
        && u64::from(label - secret.first) < u64::from(secret.shares) * u64::from(secret.width)
}

// whether all shares of each bit of each secret are members, or none
fn are_alike(secrets: &[SecretPlan], set: &LabelSet) -> bool
    requires { (s : SecretPlan) → Contains secrets.now s → FitsLabels s }
    ensures { IsTrue result ↔ AllOrNone secrets.now (has set.now) }
{
    'secrets: for place in 0..secrets.len() {
        if !is_alike(&secrets[place], set) {
            return false;
        }
    }
    true
}

fn is_alike(secret: &SecretPlan, set: &LabelSet) -> bool
    requires { FitsLabels secret.now }
    ensures { IsTrue result ↔ AllAlike secret.now (has set.now) }
{
    'bits: for bit in 0..secret.width {
        if !is_bit_alike(secret, bit, set) {
            return false;
        }
    }
    true
}

fn is_bit_alike(secret: &SecretPlan, bit: u32, set: &LabelSet) -> bool
    requires fits { FitsLabels secret.now }
    requires bit { bit < secret.now.width }
    ensures { IsTrue result ↔ AreBitAlike secret.now (has set.now) bit }
{
    let first = set.has(secret.first + bit);
    'shares: for share in 0..secret.shares {
        if set.has(secret.first + share * secret.width + bit) != first {
            return false;
        }
    }
    true
}
