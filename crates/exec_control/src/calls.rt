//! Calls.

ghost use Rattle.std.specs.Prelude.{◌≡◌, ◌+◌, ◌^◌, ◌<◌, [], ◌∷◌, ◌++◌, true, false, nat_lt, length};
ghost use Rattle.exec_control.specs.Moves.{called, moved};

use crate::control::{Control, behind};

impl Control {
    /// Calls a procedure, or goes past the call where calls are as deep as they may be.
    pub(crate) fn call(&mut self, entry: u32)
        requires same { length self.old.returns ≡ length self.old.saved }
        ensures deep { nat_lt (length self.old.returns) 16 ≡ false → self.old.at + 1 < 2 ^ 32
            → self.new ≡ moved (self.old.at + 1) self.old }
        ensures called { nat_lt (length self.old.returns) 16 ≡ true → self.old.at + 1 < 2 ^ 32
            → self.new ≡ called entry self.old }
    {
        let next = behind(self.at);
        if self.returns.is_full() {
            self.at = next;
        } else {
            self.returns.push(next);
            self.numbers.call();
            self.at = entry;
        }
    }

    /// Ends the last call.
    pub(crate) fn back(&mut self)
        requires same { length self.old.returns ≡ length self.old.saved }
        requires some { 0 < length self.old.returns }
        ensures place { self.old.returns ≡ self.new.returns ++ self.new.at ∷ [] }
        ensures values { self.old.saved ≡ self.new.saved ++ self.new.values ∷ [] }
        ensures long { length self.new.values ≡ length self.old.values }
        ensures lasts { self.new.lasts ≡ self.old.lasts }
    {
        if let Some(at) = self.returns.pop() {
            self.at = at;
            self.numbers.back();
        }
    }
}
