//! Who saves what was fired.
use crate::session::Session;

/// Saves what was fired in a session, if a line asks for it.
pub trait Saver {
    ghost use Rattle.std.specs.Prelude.{ℕ, Bool, List};
    ghost use Rattle.step_session.specs.SessionOf.{plant_stepped, session_of};
    ghost use Rattle.step_session.specs.Saved.{saved_text};

    /// What one call may be: the saver before it, the path, the text of what was fired, what the call says, and the saver after it.
    ghost saves: { Self → List ℕ → List ℕ → Bool → Self → Type 0 } = { λ before path text said after. Unit {0} };

    /// Saves what was fired at the path, as [`Session::print_fired`] prints it. Says whether it could.
    fn save(&mut self, path: &[u8], session: &Session<'_>) -> bool
        ensures { saves self.old path.now (saved_text (plant_stepped session.now) (session_of session.now)) result self.new };
}
