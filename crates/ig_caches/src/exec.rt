//! What runs calls.

use crate::answer::Answer;
use crate::call::Call;
use ig_base::NoRoom;

/// An object that runs calls as plain caches do.
pub trait Exec {
    ghost use Rattle.std.specs.Prelude.{◌≡◌, IfOk, OnOk, IfErr, OnErr};
    ghost use Rattle.ig_caches.specs.PlainCaches.{PlainCaches};
    ghost use Rattle.ig_caches.specs.Answered.{answered, after};
    ghost use Rattle.ig_caches.specs.IsRunnable.{IsRunnable};

    /// The plain caches that it represents.
    ghost caches: { Self → PlainCaches };

    /// Runs a call.
    ///
    /// # Errors
    ///
    /// [`NoRoom`] with the call if memory runs out; nothing has changed.
    fn run(&mut self, call: Call) -> Result<Answer, NoRoom<Call>>
        requires { IsRunnable call }
        ensures answer { IfOk result (λ answer. answer ≡ answered (caches self.old) call) }
        ensures after { OnOk result (caches self.new ≡ after (caches self.old) call) }
        ensures back { IfErr result (λ e. e.back ≡ call) }
        ensures unchanged { OnErr result (caches self.new ≡ caches self.old) };
}
