ghost use Rattle.std.specs.Prelude.{◌≡◌, ℕ, ◌≤◌, ◌^◌, length, IfSome, IfNone};
ghost use Rattle.pickers.specs.Choices.{IsOpen, AllAreSet};

/// Chooses the variable that a search decides on next.
///
/// Variables are numbered from 0. A picker may know of fewer variables than there are: it takes no notice of bumps of
/// the others, and still picks among all.
pub trait Picker: Drop {
    /// The number of variables whose bumps the picker takes notice of.
    ghost bound: { Self → ℕ };

    /// The number of variables whose bumps the picker takes notice of.
    fn size(&self) -> u32
        ensures { result ≡ bound self.now };

    /// Notes that a search came upon the variable. A variable that is not below the size changes nothing.
    fn bump(&mut self, var: u32)
        ensures size { bound self.new ≡ bound self.old }
        ensures beyond { bound self.old ≤ var → self.new ≡ self.old };

    /// A variable at which `unset` is true, or none where there is no such variable.
    fn pick(&mut self, unset: &[bool]) -> Option<u32>
        requires { length unset.now ≤ 2 ^ 30 }
        ensures size { bound self.new ≡ bound self.old }
        ensures picked { IfSome result (IsOpen unset.now) }
        ensures none { IfNone result (AllAreSet unset.now) };
}
