// What a formula is made from.
ghost use Rattle.std.specs.Prelude.{◌≡◌, ◌<◌, length};
ghost use Rattle.probe_encode.specs.Labels.{node_of};
ghost use Rattle.probe_encode.specs.Sources.{IsGood};

use coco_base::Unrolled;
use label_cone::Cones;
use probe_clauses::ProbedRun;

/// A probed run with its nodes and their cones.
#[derive(Debug, Drop)]
pub struct Source<'a> {
    pub run: ProbedRun<'a>,
    pub unrolled: &'a Unrolled,
    pub cones: &'a Cones,
}

/// The number of the node of a bit in a cycle.
pub(crate) fn node_of(source: &Source<'_>, cycle: u32, bit: u32) -> u32
    requires source { IsGood source.now }
    requires cycle { cycle < length source.now.run.rows }
    requires bit { bit < source.now.run.gates.flat.bits }
    ensures node { result ≡ node_of source.now.run cycle bit }
    ensures there { result < length source.now.run.nodes }
{
    cycle * source.unrolled.bits + source.unrolled.ranks.as_slice()[bit as usize]
}
