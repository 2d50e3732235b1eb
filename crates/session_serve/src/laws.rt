//! What follows for whoever has sessions. Each law is a contract.

ghost use Rattle.std.specs.Prelude.{◌≡◌, ℕ, false, [], length, map, All, IfSome};
ghost use Rattle.desk_lock.specs.Account.{Each};
ghost use Rattle.desk_lock.specs.Known.{Fits};
ghost use Rattle.desk_lock.specs.Seats.{last_of};
ghost use Rattle.desk_lock.specs.declared.seats.Desk.{Desk};
ghost use Rattle.desk_lock.specs.declared.seats.Seat.{Seat};
ghost use Rattle.desk_lock.specs.declared.views.Known.{Known};
ghost use Rattle.world_holder.specs.declared.kept.WorldOnDesk.{WorldOnDesk};
ghost use Rattle.world_holder.specs.Laid.{laid, world_account};
ghost use Rattle.world_holder.specs.Rests.{IsSeated};
ghost use Rattle.world_holder.specs.View.{view, IsFree};
ghost use Rattle.session_serve.specs.Sessions.{Caller, MayCall, StandsIn, own_of};

use outer_traits::Line;

/// The first seat finds in the World that the desk gives back, of each seat that was joined into it, all that this had
/// seen, and its calls, each once: all stand in one legal journal.
pub fn joined_sessions_stand_in_one_journal()
    ensures { (x : WorldOnDesk) (first : Known WorldOnDesk) → Fits world_account x first
        → Each (λ (p : ℕ × WorldOnDesk). StandsIn p.0 (laid p.1) (laid x)) first.joined }
{}

/// At a seat that was just split off a session may call, on lines that have neither failed nor carried anything.
pub fn a_new_seat_may_call<L: Line + Drop>()
    ensures { (d : Desk WorldOnDesk) (s : Seat WorldOnDesk) (c : Caller L) → IsSeated d s c.number
        → IsFree c.number (laid (last_of s)) → (view false c.number (laid (last_of s))).running ≡ []
        → own_of c.number (laid (last_of s)) ≡ [] → length c.channels ≡ length (laid (last_of s)).nodes
        → All (λ t. IfSome t (λ frames. frames ≡ [])) (map (λ x. L.carried x.line) c.channels)
        → MayCall L.count L.carried d s c }
{}
