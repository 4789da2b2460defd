ghost use Rattle.std.specs.Prelude.{◌≡◌, ◌-◌, ◌≤◌, length, drop, OnOk, OnErr};
ghost use Rattle.coco_base.specs.Causes.{Rose};
ghost use Rattle.coco_base.specs.Outside.{after};
ghost use Rattle.coco_engine.specs.Files.{HasPrefix};

use coco_base::{Failed, Sink};

fn rest(text: &[u8], at: usize) -> &[u8]
    requires { at ≤ length text.now }
    ensures value { result.now ≡ drop at text.now }
    ensures len { length result.now ≡ length text.now - at }
{
    &text[at..]
}

/// Writes a whole text. It takes no memory.
pub fn write_whole<K: Sink>(out: &mut K, text: &[u8]) -> Result<(), Failed>
    ensures whole { OnOk result (K.taken out.new ≡ after (K.taken out.old) text.now) }
    ensures prefix { OnErr result (HasPrefix (K.taken out.old) (K.taken out.new) text.now) }
    ensures failed { OnErr result (Rose (K.faults out.old) (K.faults out.new)) }
    ensures later { K.faults out.old ≤ K.faults out.new }
{
    let mut done = 0;
    'writing: while done < text.len() {
        done += out.write(rest(text, done))?;
    }
    Ok(())
}
