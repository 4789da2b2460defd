ghost use Rattle.std.specs.Prelude.{◌≡◌, ◌<◌, ◌≤◌, ◌^◌, length, IfOk, IfErr};
ghost use Rattle.label_cone.specs.Coned.{IsConedRun, IsTooLarge, IsWithinWeight};
ghost use Rattle.label_cone.specs.NodeCones.{IsOrderedRun};

use crate::fault::ConeFault;
use crate::marks::marks;
use crate::node_sets::{NodeSets, node_sets};
use crate::weight::need;
use coco_base::{LabelSet, Limits, List, Unrolled};
use std::alloc::Global;
use std::marker::Model;

/// The cones of an unrolled run: for each node the labels that its sets can have; which nodes matter; and the need.
#[derive(Debug, Drop)]
pub struct Cones {
    sets: List<LabelSet>,
    places: Vec<u32>,
    marks: Vec<bool>,
    need: u64,
}

impl Model for Cones {
    ghost use Rattle.label_cone.specs.Coned.{Coned, coned_of};
    ghost use Rattle.label_cone.specs.NodeCones.{AreSets};

    ghost Value = { Coned };

    ghost view = { λ c. coned_of c.sets c.places.items c.marks.items c.need };

    ghost invariant = { λ c. AreSets c.sets c.places.items };
}

impl Cones {
    ghost use Rattle.label_cone.specs.Coned.{mark_at};
    ghost use Rattle.label_cone.specs.NodeCones.{cone_at};

    /// The cone of a node.
    pub fn of(&self, node: u32) -> &LabelSet
        requires { node < length self.now.cones }
        ensures { result.now ≡ cone_at self.now.cones node }
    {
        &self.sets.as_slice()[self.places[node as usize] as usize]
    }

    /// Whether a node matters: it is a label, or a gate to which a copy leads or that a gate that matters reads. The
    /// formula has no part for the other nodes.
    pub fn matters(&self, node: u32) -> bool
        requires { node < length self.now.matters }
        ensures { result ≡ mark_at self.now.matters node }
    {
        self.marks[node as usize]
    }

    /// Bits times cycles times one more than the order, and the cone sizes of the nodes that matter.
    pub fn need(&self) -> u64
        ensures { result ≡ self.now.need }
    {
        self.need
    }
}

/// The cones of an unrolled run at an order, from 1 to 64; refused where the weight is above its limit.
pub fn cone_of(
    alloc: Global,
    unrolled: &Unrolled,
    order: u32,
    limits: &Limits,
) -> Result<Cones, ConeFault>
    requires unrolled { IsOrderedRun unrolled.now }
    requires order { order ≤ 64 }
    requires limits { limits.now.weight ≤ 16000000 }
    ensures cones { IfOk result (IsConedRun unrolled.now order) }
    ensures within { IfOk result (IsWithinWeight unrolled.now order limits.now.weight) }
    ensures too_large { IfErr result (IsTooLarge unrolled.now order limits.now.weight) }
{
    let nodes = unrolled.nodes.as_slice();
    let cones = node_sets(alloc, nodes)?;
    let marks = marks(alloc, nodes)?;
    let base = nodes.len() as u64 * (u64::from(order) + 1);
    match need(nodes, marks.as_slice(), &cones, base, limits.weight) {
        Ok(need) => {
            let NodeSets { sets, places } = cones;
            Ok(Cones {
                sets,
                places,
                marks,
                need,
            })
        }
        Err(count) => Err(ConeFault::TooLarge {
            count,
            limit: limits.weight,
        }),
    }
}
