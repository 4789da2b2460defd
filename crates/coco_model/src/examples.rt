//! The definitions at small circuits: each function's contract is what they say there, as worked out by hand.
ghost use Rattle.std.specs.Prelude.{◌≡◌, ℕ, ◌<◌, true, false, [], ◌∷◌, get_or, pos, negsuc};
ghost use Rattle.coco_base.specs.declared.text.Text.{Text};
ghost use Rattle.coco_base.specs.declared.cell.Kind.TheVariants.{And, Xor, Mux};
ghost use Rattle.coco_base.specs.declared.cell.Part.TheVariants.{Zero, One, Vary};
ghost use Rattle.coco_base.specs.declared.setup.When.TheVariants.{Always, Requested, Written};
ghost use Rattle.coco_model.specs.Controls.{IsUnknownControl, IsResetActive, IsInRegion, IsOutside};
ghost use Rattle.coco_base.specs.declared.unrolled.Node.TheVariants.{Nothing, Label};
ghost use Rattle.coco_model.specs.Known.{Row, IsKnown};
ghost use Rattle.coco_model.specs.Roots.{Root, IsRooted};
ghost use Rattle.coco_model.specs.Roots.Root.{nothing, label};
ghost use Rattle.coco_model.specs.Nodes.{node_number, IsUnrolled};
ghost use Rattle.coco_model.specs.Cones.{AreCones, run_weight};
ghost use Rattle.coco_model.specs.Matters.{AreMattering, run_need};
ghost use Rattle.coco_model.specs.Events.{waveform};
ghost use Rattle.coco_model.specs.Events.Event.{leaf, cell};
ghost use Rattle.coco_model.specs.Reach.{Reach, IsReach};
ghost use Rattle.coco_model.specs.Secure.{moments};
ghost use Rattle.coco_model.specs.Findings.{HasFinding};
ghost use Rattle.coco_model.specs.WrittenFindings.{IsFindingValue};
ghost use Rattle.coco_model.specs.Examples.{signed_sums, inputs_high, two_input_xor, selected_shares, selected_setup, IsSelectedReach, pulsing_gate, pulsing_setup, IsPulsingReach, one_register, unshared_setup, unshared_value, unshared_run, known_bits, setup_with_port, control, high_port, low_port, resettable, masked_register, masked_setup, masked_row, masked_root, masked_index, masked_node, masked_nodes, masked_cones, masked_matters, overwritten_word, overwritten_setup, y_from, FindsLateShares};

/// The signed sums of an AND at the subsets of its inputs: none, A, B, and both.
pub fn and_sums()
    ensures { signed_sums And (Vary ∷ Vary ∷ []) 4 ≡ pos 2 ∷ pos 2 ∷ pos 2 ∷ negsuc 1 ∷ [] }
{}

/// The signed sums of an exclusive or: 4 at both inputs together, and 0 elsewhere.
pub fn xor_sums()
    ensures { signed_sums Xor (Vary ∷ Vary ∷ []) 4 ≡ pos 0 ∷ pos 0 ∷ pos 0 ∷ pos 4 ∷ [] }
{}

/// The signed sums of a multiplexer at the subsets of its inputs: none, A, B, A and B, S, A and S, B and S, and all;
/// and where S is 0, at the first four of these.
pub fn multiplexer_sums()
    ensures varying { signed_sums Mux (Vary ∷ Vary ∷ Vary ∷ []) 8
        ≡ pos 0 ∷ pos 4 ∷ pos 4 ∷ pos 0 ∷ pos 0 ∷ pos 4 ∷ negsuc 3 ∷ pos 0 ∷ [] }
    ensures selected { signed_sums Mux (Vary ∷ Vary ∷ Zero ∷ []) 4 ≡ pos 0 ∷ pos 4 ∷ pos 0 ∷ pos 0 ∷ [] }
{}

/// The output of an exclusive or whose two inputs go from 0 to 1 one after the other pulses: it is 0 before the events
/// input a, gate, input b, gate, and 0, 1, 1, 0 after them.
pub fn pulse()
    ensures { (name : Text) →
        waveform (two_input_xor name) inputs_high 2 (λ b. false) (leaf 0 ∷ cell 0 ∷ leaf 1 ∷ cell 0 ∷ [])
        ≡ false ∷ false ∷ true ∷ true ∷ false ∷ [] }
{}

/// What a multiplexer of two registers reaches while its select stays 0, changes, and stays 1.
pub fn selected_reach()
    ensures { (name : Text) (reach : Reach) → IsReach (selected_shares name) (selected_setup name) 3 reach
        → IsSelectedReach reach }
{}

/// What a gate reaches whose other input is known, but may pulse while the signal behind it changes.
pub fn pulsing_reach()
    ensures { (name : Text) (reach : Reach) → IsReach (pulsing_gate name) (pulsing_setup name) 3 reach
        → IsPulsingReach reach }
{}

/// A secret of one share in a register is a finding of order 1.
pub fn unshared_secret()
    ensures { (name : Text) → HasFinding (one_register name) (unshared_setup name) 1 1 1 }
{}

/// That finding as a value: with the set of label 0 it is one, and with the empty set it is none.
pub fn unshared_finding_value()
    ensures value { (name : Text) →
        IsFindingValue (unshared_run name) 1 (unshared_value (0 ∷ [])) }
    ensures other { (name : Text) →
        IsFindingValue (unshared_run name) 1 (unshared_value []) → ⊥ }
{}

/// The edges of the memory's two regions: from 0 to 0x3fff, and from 0x10000 to 0x10fff.
pub fn region_edges()
    ensures text { IsInRegion 0 × IsInRegion 0x3fff × (IsInRegion 0x4000 → ⊥) }
    ensures data { (IsInRegion 0xffff → ⊥) × IsInRegion 0x10000 × IsInRegion 0x10fff × (IsInRegion 0x11000 → ⊥) }
{}

/// A memory port asks for what is outside where its request is known as 1 and its address is 0x4000, and not where the
/// request is 0 or unknown, or the address is 0x3fff.
pub fn outside_request()
    ensures outside { IsOutside (known_bits (Zero ∷ One ∷ [])) high_port }
    ensures no_request { IsOutside (known_bits (Zero ∷ Zero ∷ [])) high_port → ⊥ }
    ensures unknown { IsOutside (known_bits (Zero ∷ Vary ∷ [])) high_port → ⊥ }
    ensures inside { IsOutside (known_bits (Zero ∷ One ∷ [])) low_port → ⊥ }
{}

/// An unknown request is an unknown control; an unknown address is one where the request is 1 and not where it is 0,
/// and an unknown byte enable where request and write are 1 and not where the write is 0.
pub fn unknown_control()
    ensures request { (name : Text) →
        IsUnknownControl (setup_with_port name) (known_bits (Zero ∷ Vary ∷ [])) (control name 1 Always) }
    ensures address { (name : Text) →
        IsUnknownControl (setup_with_port name) (known_bits (Zero ∷ One ∷ Zero ∷ Zero ∷ Vary ∷ []))
        (control name 4 (Requested 0)) }
    ensures no_request { (name : Text) →
        IsUnknownControl (setup_with_port name) (known_bits (Zero ∷ Zero ∷ Zero ∷ Zero ∷ Vary ∷ []))
        (control name 4 (Requested 0)) → ⊥ }
    ensures enable { (name : Text) →
        IsUnknownControl (setup_with_port name) (known_bits (Zero ∷ One ∷ One ∷ Vary ∷ []))
        (control name 3 (Written 0)) }
    ensures no_write { (name : Text) →
        IsUnknownControl (setup_with_port name) (known_bits (Zero ∷ One ∷ Zero ∷ Vary ∷ []))
        (control name 3 (Written 0)) → ⊥ }
{}

/// A reset is active where it is known at its level, and not where it is at the other or unknown.
pub fn active_reset()
    ensures high { (name : Text) → IsResetActive (known_bits (Zero ∷ Zero ∷ One ∷ [])) (resettable name true) }
    ensures low { (name : Text) → IsResetActive (known_bits (Zero ∷ Zero ∷ Zero ∷ [])) (resettable name false) }
    ensures other { (name : Text) → IsResetActive (known_bits (Zero ∷ Zero ∷ Zero ∷ [])) (resettable name true) → ⊥ }
    ensures unknown { (name : Text) → IsResetActive (known_bits (Zero ∷ Zero ∷ Vary ∷ [])) (resettable name false) → ⊥ }
{}

/// The number of a node: of 7 bits with their own numbers as ranks, bit 6 has the nodes 6 and 13 in the cycles 0 and 1.
pub fn node_numbers()
    ensures first { node_number 7 (λ b. b) 0 6 ≡ 6 }
    ensures second { node_number 7 (λ b. b) 1 6 ≡ 13 }
{}

/// What is known, the roots and the nodes of two cycles of a masked share that is stored in a register: in the second
/// cycle the register has the root of the gate before it, that gate keeps its root, and the gate behind it has a new
/// one.
pub fn masked_run()
    ensures known { (name : Text)
        → IsKnown (masked_register name) (masked_setup name) 2 masked_row (λ t address k. Zero) }
    ensures roots { (name : Text) →
        IsRooted (masked_register name) (masked_setup name) 2 masked_row masked_root (λ t address k. nothing) }
    ensures nodes { (name : Text) →
        IsUnrolled (masked_register name) (masked_setup name) 2 masked_index masked_row masked_root masked_node
        (λ t address k. Nothing) }
    ensures numbers { (t b : ℕ) → t < 2 → b < 7
        → get_or masked_nodes (masked_index t b) Nothing ≡ masked_node t b }
{}

/// The weight of these two cycles: 7 bits in 2 cycles at order 1 make 28, and the cones of labels and gates have 1,
/// 1, 1, 2, 1 and 3 labels.
pub fn masked_weight()
    ensures cones { AreCones masked_nodes masked_cones }
    ensures weight { run_weight 7 2 1 masked_nodes masked_cones ≡ 37 }
{}

/// What of these nodes a formula needs: the three labels and the first gate, to which copies lead; so the need is 33.
pub fn masked_need()
    ensures matters { AreMattering masked_nodes masked_matters }
    ensures need { run_need 7 2 1 masked_nodes masked_matters masked_cones ≡ 33 }
{}

/// A probe that lasts two cycles: its moments are its bit in both, cut at the end of the run. In a circuit whose output
/// shows one share in cycle 1 and the other in cycle 2, such a probe finds the secret.
pub fn window_of_two_cycles()
    ensures moments { moments 3 2 (y_from 1 ∷ []) ≡ y_from 1 ∷ y_from 2 ∷ [] }
    ensures cut { moments 3 2 (y_from 2 ∷ []) ≡ y_from 2 ∷ [] }
    ensures finding { (name : Text) → FindsLateShares name }
{}

/// A word leaf that starts with one share and is overwritten with the other: its bit has the roots of the two shares,
/// one after the other, and a probe of it in the second cycle is a finding.
pub fn overwritten_leaf()
    ensures roots { (name : Text) (row : ℕ → Row) (root : ℕ → ℕ → Root) (word : ℕ → ℕ → ℕ → Root) →
        IsRooted (overwritten_word name) (overwritten_setup name) 2 row root word
        → (root 0 2 ≡ label 0) × (root 1 2 ≡ label 1) }
    ensures finding { (name : Text) → HasFinding (overwritten_word name) (overwritten_setup name) 2 1 1 }
{}
