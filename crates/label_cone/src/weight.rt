// The weight of a run, node by node, and the need.
ghost use Rattle.std.specs.Prelude.{◌≡◌, ◌+◌, ◌<◌, ◌≤◌, ◌^◌, ℕ, true, cond, length, get_or, IfOk, IfErr};
ghost use Rattle.coco_base.specs.declared.unrolled.Node.TheVariants.{Nothing};
ghost use Rattle.coco_model.specs.Cones.{cone_weight};
ghost use Rattle.coco_model.specs.Matters.{mattering_weight};
ghost use Rattle.label_cone.specs.Coned.{mark_at};
ghost use Rattle.label_cone.specs.NodeCones.{AreSets, cone_at, cones_in};
ghost use Rattle.label_cone.specs.Weights.{IsFirstAbove, weighs};

use crate::node_sets::NodeSets;
use coco_base::Node;

fn weighs(node: &Node) -> bool
    ensures { result ≡ weighs node.now }
{
    matches!(node, Node::Label(_) | Node::Gate { .. })
}

// what a node adds
fn part(counts: bool, size: u64) -> u64
    ensures { result ≡ cond counts size 0 }
{
    if counts { size } else { 0 }
}

fn size(cones: &NodeSets, place: usize) -> u64
    requires sets { AreSets cones.now.sets cones.now.places.items }
    requires place { place < length cones.now.places.items }
    ensures size { result ≡ length (cone_at (cones_in cones.now.sets cones.now.places.items) place) }
    ensures small { result < 2 ^ 63 }
{
    let set = cones.places[place] as usize;
    cones.sets.as_slice()[set].len() as u64
}

/// The need, where the weight stays within the limit, and else the first sum above it; `base` is the share of the bits.
pub fn need(
    nodes: &[Node],
    marks: &[bool],
    cones: &NodeSets,
    base: u64,
    limit: u64,
) -> Result<u64, u64>
    requires limit { limit < 2 ^ 62 }
    requires marks { length marks.now ≡ length nodes.now }
    requires weighing { (i : ℕ) → mark_at marks.now i ≡ true → weighs (get_or nodes.now i Nothing) ≡ true }
    requires as_long { length cones.now.places.items ≡ length nodes.now }
    requires sets { AreSets cones.now.sets cones.now.places.items }
    ensures need { IfOk result (λ n. n ≡ base + mattering_weight (mark_at marks.now)
        (cone_at (cones_in cones.now.sets cones.now.places.items)) 0 nodes.now) }
    ensures within { IfOk result (λ _. base
        + cone_weight (cone_at (cones_in cones.now.sets cones.now.places.items)) 0 nodes.now ≤ limit) }
    ensures above { IfErr result
        (IsFirstAbove base nodes.now (cone_at (cones_in cones.now.sets cones.now.places.items)) limit) }
{
    if limit < base {
        return Err(base);
    }
    let mut sum = base;
    let mut need = base;
    'nodes: for place in 0..nodes.len() {
        let size = size(cones, place);
        need += part(marks[place], size);
        sum += part(weighs(&nodes[place]), size);
        if limit < sum {
            return Err(sum);
        }
    }
    Ok(need)
}
