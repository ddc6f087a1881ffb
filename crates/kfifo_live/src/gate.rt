//! What threads pass before their calls.
ghost use Rattle.std.specs.Prelude.{ℕ};

/// What each thread of a run passes before each of its calls. The threads share it.
///
/// A test can hold a thread back there, or see who calls. The call always returns.
pub trait Gate {
    // This thread has passed before this call. A gate may leave out what that means: a run is proved for any meaning.
    ghost passed: { Self → ℕ → ℕ → Type 0 } = { λ _ _ _. Unit {0} };

    /// This thread is about to make this call, from 1.
    fn pass(&self, thread: u32, call: u32)
        ensures { passed self.now thread call };
}

/// A gate that holds nobody back, and keeps nothing.
#[derive(Clone, Copy, Debug)]
pub struct OpenGate;

impl Gate for OpenGate {
    fn pass(&self, _thread: u32, _call: u32) {}
}
