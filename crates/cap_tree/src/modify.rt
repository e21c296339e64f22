//! Values that are made of those that they replace.
ghost use Rattle.std.specs.Prelude.{◌≡◌, IfOk};

use cap_value::OutOfMemory;

/// Makes the next value of a key of its present one.
pub trait Modify<V> {
    // Whether the next value can be made of this one.
    ghost can_modify: { Self → V → Type 0 };

    // What is made of a value.
    ghost modified: { Self → V → V };

    fn modify(&self, present: &V) -> Result<V, OutOfMemory>
        requires { can_modify self.now present.now }
        ensures { IfOk result (λ next. next ≡ modified self.now present.now) };
}
