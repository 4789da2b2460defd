use cell_table::{forced, live};
use coco_base::{Kind, Part};

const KINDS: [Kind; 4] = [Kind::And, Kind::Xor, Kind::Mux, Kind::Aoi4];

const PARTS: [Part; 3] = [Part::Vary, Part::Zero, Part::One];

/// How many of `count` cells have an unknown output and a live second input, over kinds and parts in turn.
pub(crate) fn tally(count: u32) -> u32 {
    let mut live_inputs = 0u32;
    for cell in 0..count {
        let kind = KINDS[(cell % 4) as usize];
        let other = PARTS[(cell / 4 % 3) as usize];
        let parts = [
            other,
            Part::Vary,
            PARTS[(cell / 12 % 3) as usize],
            Part::Vary,
        ];
        if forced(kind, parts) == Part::Vary && live(kind, parts, 1) {
            live_inputs = live_inputs.saturating_add(1);
        }
    }
    live_inputs
}
