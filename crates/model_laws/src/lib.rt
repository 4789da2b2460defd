//! The laws of runs, each the contract of a function that does nothing: what is settled, known, calm, reached and
//! rooted.
#![tactic(auto)]

ghost use Rattle.model_laws.specs.NodeLaws.{UnrolledRunLaw, MattersLaw};
ghost use Rattle.model_laws.specs.RunLaws.{GoodCycleLaw, OneOutcomeLaw, FewerCyclesLaw, RankOrderLaw, OneCycleLaw, CoveredWindowLaw};
ghost use Rattle.model_laws.specs.Laws.{OneSettledLaw, SomeSettledLaw, OneForcedLaw, KnownLaw, RequestsLaw, WordLeafLaw, CalmLaw, WaveformLaw, RootLaw, OneRunLaw, OneKnownLaw, OneRootedLaw, OneReachLaw, SecureLaw, MeaningLaw, EndLaw, UnrolledLaw, NodesLaw, NodeSetsLaw, RootSetsLaw, ConesLaw};

/// Two settled valuations that agree on the bits that no cell drives are one, where no cells make a loop.
pub fn one_settled_law()
    ensures { OneSettledLaw }
{}

/// A netlist without loops and with one driver for each bit has a settled valuation for all values of the bits that
/// input ports and flops drive.
pub fn some_settled_law()
    ensures { SomeSettledLaw }
{}

/// Two rows of what is forced that agree on the bits that no cell drives are one, where no cells make a loop.
pub fn one_forced_law()
    ensures { OneForcedLaw }
{}

/// What is known of a bit or of a memory word is its value in every run, where every control that applies is known.
pub fn known_law()
    ensures { KnownLaw }
{}

/// Every run reads, addresses and stores what is known of the memory ports.
pub fn requests_law()
    ensures { RequestsLaw }
{}

/// A bit of a word leaf has in each cycle what its word's bit has.
pub fn word_leaf_law()
    ensures { WordLeafLaw }
{}

/// Under every schedule of gate events a calm bit has its calm value at every moment.
pub fn calm_law()
    ensures { CalmLaw }
{}

/// Runs that agree on the old and new values of the leaves that a bit reaches show one waveform of it, under every
/// schedule of gate events.
pub fn waveform_law()
    ensures { WaveformLaw }
{}

/// An unknown bit has in every run the value of its root: a label of the run, or a cell's output, the bit itself or one
/// of an earlier cycle.
pub fn root_law()
    ensures { RootLaw }
{}

/// A choice has at most one run.
pub fn one_run_law()
    ensures { OneRunLaw }
{}

/// What is known is one.
pub fn one_known_law()
    ensures { OneKnownLaw }
{}

/// The roots of a run are one.
pub fn one_rooted_law()
    ensures { OneRootedLaw }
{}

/// What a probe reaches is one.
pub fn one_reach_law()
    ensures { OneReachLaw }
{}

/// A run that is secure for its one calm-blocked reach is secure.
pub fn secure_law()
    ensures { SecureLaw }
{}

/// A netlist without loops, with one driver for each bit and with numbers in range, and a setup that binds its
/// inputs, have runs, known values, roots and reaches.
pub fn meaning_law()
    ensures { MeaningLaw }
{}

/// The events of all leaves and then of all cells in order end in the settled valuation of the new leaves.
pub fn end_law()
    ensures { EndLaw }
{}

/// The nodes of a run stand for its roots.
pub fn unrolled_law()
    ensures { UnrolledLaw }
{}

/// Nodes that lead to one origin have one root, and a node whose root is an output leads to that output's node.
pub fn nodes_law()
    ensures { NodesLaw }
{}

/// A selection of roots is a selection of nodes.
pub fn node_sets_law()
    ensures { NodeSetsLaw }
{}

/// A selection of nodes is a selection of roots.
pub fn root_sets_law()
    ensures { RootSetsLaw }
{}

/// The cone of a node is the cone of the root that it stands for.
pub fn cones_law()
    ensures { ConesLaw }
{}

/// A good cycle has none of the three faults.
pub fn good_cycle_law()
    ensures { GoodCycleLaw }
{}

/// A cycle is good or has one first fault, and never two of them.
pub fn one_outcome_law()
    ensures { OneOutcomeLaw }
{}

/// What holds of a run, of what is known and of the roots over some cycles holds over fewer.
pub fn fewer_cycles_law()
    ensures { FewerCyclesLaw }
{}

/// The numbers of all cells by rank are an order of cells.
pub fn rank_order_law()
    ensures { RankOrderLaw }
{}

/// Probes that last one cycle are their own moments.
pub fn one_cycle_law()
    ensures { OneCycleLaw }
{}

/// A run that is covered for one window is covered for each.
pub fn covered_window_law()
    ensures { CoveredWindowLaw }
{}

/// The nodes of an unrolled run stand for the roots of the run and tell which bits are unknown; those of bits that no
/// cell drives are no gates.
pub fn unrolled_run_law()
    ensures { UnrolledRunLaw }
{}

/// A node that does not matter never takes part: the sets of all other nodes are the same whatever it chooses.
pub fn matters_law()
    ensures { MattersLaw }
{}
