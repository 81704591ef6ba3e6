//! What has a key and a moment.
ghost use Rattle.std.specs.Prelude.{◌≡◌, ℕ, List};
ghost use Rattle.rep_values.specs.declared.value.Value.{Value};

use rep_values::{Key, Value as One};

/// A value with a key and a moment.
pub trait Noted: Drop {
    ghost key: { Self → List Value };

    ghost moment: { Self → ℕ };

    /// Some value. It fills a place until the place is used.
    fn blank() -> Self;

    /// Its key.
    fn key(&self) -> &Key
        ensures { result.now ≡ key self.now };

    /// Its moment.
    fn moment(&self) -> u64
        ensures { result ≡ moment self.now };
}

/// A key alone is of moment 0.
impl Noted for Key {
    ghost key = { λ k. k };

    ghost moment = { λ k. 0 };

    fn blank() -> Key {
        Key::first(One::Num(0))
    }

    fn key(&self) -> &Key {
        self
    }

    fn moment(&self) -> u64 {
        0
    }
}
