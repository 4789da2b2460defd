ghost use Rattle.std.specs.Prelude.{◌≡◌, ◌<◌, ◌^◌, ◌↔◌, ℕ, [], ◌∷◌, length, IsTrue, IfOk};
ghost use Rattle.std.specs.List.Sorted.{IsStrictlyIncreasing};
ghost use Rattle.coco_base.specs.LabelSets.{has, IsSymmetricDifference, IsUnion};

use crate::fault::NoMemory;
use std::alloc::Global;
use std::collections::BTreeSet;
use std::collections::btree_set::Iter;
use std::marker::Model;

/// A finite set of label numbers, seen by contracts as its members in ascending order.
#[derive(Debug, Drop)]
pub struct LabelSet {
    labels: BTreeSet<u32>,
}

impl Model for LabelSet {
    ghost use Rattle.std.specs.Prelude.{ℕ, List};
    ghost use Rattle.std.specs.List.Sorted.{IsStrictlyIncreasing};

    ghost Value = { List ℕ };

    ghost view = { λ s. s.labels.keys };

    ghost invariant = { λ s. IsStrictlyIncreasing s.labels.keys };
}

impl LabelSet {
    /// The empty set. It keeps the allocator and takes no memory.
    pub fn empty(alloc: Global) -> Self
        ensures { result ≡ [] }
    {
        LabelSet {
            labels: BTreeSet::new(alloc),
        }
    }

    /// The set of one label.
    pub fn of(alloc: Global, label: u32) -> Result<Self, NoMemory>
        ensures { IfOk result (λ s. s ≡ label ∷ []) }
    {
        let mut labels = BTreeSet::new(alloc);
        labels.insert(label)?;
        Ok(LabelSet { labels })
    }

    /// Whether the label is a member.
    pub fn has(&self, label: u32) -> bool
        ensures { result ≡ has self.now label }
    {
        self.labels.contains(&label)
    }

    /// How many labels the set has.
    pub fn len(&self) -> usize
        ensures len { result ≡ length self.now }
        ensures small { result < 2 ^ 63 }
        ensures ascending { IsStrictlyIncreasing self.now }
    {
        self.labels.len()
    }

    /// Whether the set has no label.
    pub fn is_empty(&self) -> bool
        ensures { IsTrue result ↔ (self.now ≡ []) }
    {
        self.labels.is_empty()
    }

    /// The labels in ascending order.
    pub fn iter(&self) -> Iter<'_, u32>
        ensures { result ≡ self.now }
    {
        self.labels.iter()
    }

    /// The labels that exactly one of the two sets has.
    pub fn xor(&self, _alloc: Global, other: &LabelSet) -> Result<Self, NoMemory>
        ensures { IfOk result (IsSymmetricDifference self.now other.now) }
    {
        let labels = (&self.labels ^ &other.labels)?;
        Ok(LabelSet { labels })
    }

    /// The labels that one of the two sets has, or both.
    pub fn union(&self, _alloc: Global, other: &LabelSet) -> Result<Self, NoMemory>
        ensures { IfOk result (IsUnion self.now other.now) }
    {
        let labels = (&self.labels | &other.labels)?;
        Ok(LabelSet { labels })
    }
}
