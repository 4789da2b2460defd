//! The laws at a small circuit.
ghost use Rattle.std.specs.Prelude.{ℕ};
ghost use Rattle.coco_base.specs.declared.text.Text.{Text};
ghost use Rattle.coco_model.specs.Secure.{IsSecure};
ghost use Rattle.coco_model.specs.Examples.{one_register};
ghost use Rattle.walsh_laws.specs.Examples.{one_share_setup};

/// A register with one of the two shares of a secret is secure of every order, however long probes last.
pub fn one_share()
    ensures { (name : Text) (window d : ℕ) → IsSecure (one_register name) (one_share_setup name) 1 window d }
{}
