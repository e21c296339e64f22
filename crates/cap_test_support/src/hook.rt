//! A hook that counts how often it is asked.

ghost use Rattle.std.specs.Prelude.{◌≡◌, ◌↔◌, ◌+◌, ◌-◌, ◌^◌, min, IsOk, true};

use cap_tree::Hook;

/// A hook that counts how often it is asked, and allows every change or refuses every one.
#[derive(Drop)]
pub struct CountingHook {
    /// Whether it allows changes.
    pub allows: bool,
    /// How often it was asked.
    pub asked: u64,
}

impl CountingHook {
    /// A hook that nobody has asked.
    pub fn new(allows: bool) -> CountingHook
        ensures answer { result.allows ≡ allows }
        ensures asked { result.asked ≡ 0 }
    {
        CountingHook { allows, asked: 0 }
    }

    /// Counts a question, and answers it.
    pub fn ask(&mut self) -> Result<(), ()>
        ensures answer { IsOk result ↔ (self.old.allows ≡ true) }
        ensures asked { self.new.asked ≡ min (self.old.asked + 1) (2 ^ 64 - 1) }
        ensures same { self.new.allows ≡ self.old.allows }
    {
        self.asked = self.asked.saturating_add(1);
        if self.allows { Ok(()) } else { Err(()) }
    }
}

impl<V> Hook<V> for CountingHook {
    ghost use Rattle.std.specs.Prelude.{◌≡◌, ◌↔◌, IsOk, true};

    type Refusal = ();

    ghost can_ask = { λ hook present next. Unit {0} };

    ghost gives = { λ old present next answer new. IsOk answer ↔ (old.allows ≡ true) };

    fn before_change(&mut self, _present: Option<&V>, _next: Option<&V>) -> Result<(), ()> {
        self.ask()
    }
}
