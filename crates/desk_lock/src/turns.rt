//! One turn at a desk, as steps on its table.
ghost use Rattle.std.specs.Prelude.{◌≡◌, ℕ, [], ◌∷◌, None};
ghost use Rattle.desk_lock.specs.declared.views.Known.{Known};
ghost use Rattle.desk_lock.specs.declared.views.View.TheVariants.{Knows};
ghost use Rattle.desk_lock.specs.declared.views.Stage.TheVariants.{Idle, Holds};
ghost use Rattle.desk_lock.specs.Account.{MayLeave};
ghost use Rattle.desk_lock.specs.Known.{knowing};
ghost use Rattle.desk_lock.specs.Rule.{Says};
ghost use Rattle.desk_lock.specs.Turns.{IsIdle, Draws, Takes};

use crate::kept::Kept;
use crate::plays::{Compare, Draw, End, Look, PassOn, Publish};
use crate::seats::{Desk, Pass};
use std::hint::spin_loop;
use std::sync::Wait;
use std::time::Duration;

// The words of the table: tickets drawn, turns ended, and the length of the journal that was last put back.
const DRAWN: usize = 0;

pub(crate) const SERVED: usize = 1;

pub(crate) const LENGTH: usize = 2;

// How often one who waits looks before it sleeps: some fifteen microseconds, which is longer than most turns take. To look for
// longer keeps the processor from whoever has the turn, where there are more threads than processors.
const LOOKS: u32 = 4_000;

// How many microseconds one sleeps at most whom nobody wakes.
const PAUSE: u64 = 1_000;

impl<S: Kept> Desk<S> {
    // Draws a ticket, waits for its turn, and takes the state out.
    pub(crate) fn take<R: Wait>(&self, rt: &R, pass: &mut Pass<S>) -> S
        requires { (pass.old.table_id ≡ self.now.table.shared.table_id) × IsIdle pass.old.me }
        ensures same { (pass.new.table_id ≡ pass.old.table_id) × (pass.new.id ≡ pass.old.id) }
        ensures takes { Takes S.account pass.old.me result pass.new.me }
    {
        let ticket = self.draw(rt, pass);
        let shared = &self.table.shared;
        // No ticket was out when it was drawn, so that its turn has come.
        for _ in rt.forever() {
            let serving = shared.load::<Look>(pass, SERVED);
            if serving == ticket {
                return shared.exchange(pass, 0, None).unwrap();
            }
            spin_loop();
        }
        unreachable!()
    }

    // Draws a ticket where none is out, and waits until it can. Who drew one while another's turn is on would have the
    // desk handed over at each turn of streams that take turn after turn. Who sleeps is woken by who ends a turn.
    fn draw<R: Wait>(&self, rt: &R, pass: &mut Pass<S>) -> u64
        requires { (pass.old.table_id ≡ self.now.table.shared.table_id) × IsIdle pass.old.me }
        ensures same { (pass.new.table_id ≡ pass.old.table_id) × (pass.new.id ≡ pass.old.id) }
        ensures draws { Draws pass.old.me result pass.new.me }
    {
        let shared = &self.table.shared;
        let pause = Duration::from_micros(PAUSE);
        let mut waits = false;
        let mut looks = 0;
        for _ in rt.forever() {
            let served = shared.peek(SERVED);
            let drawn = shared.peek(DRAWN);
            if drawn == served {
                let next = drawn.wrapping_add(1);
                if shared.compare_exchange::<Draw>(pass, DRAWN, drawn, next) == drawn {
                    if waits {
                        self.waiters.end_to_look();
                    }
                    return drawn;
                }
            }
            if !waits {
                waits = true;
                self.waiters.begin_to_look();
            }
            if looks < LOOKS {
                looks += 1;
                spin_loop();
            } else {
                looks = 0;
                self.waiters.lie_down();
                // A turn that ended meanwhile has changed the word, and then nobody sleeps.
                shared.park_timeout(rt, SERVED, (served & 0xffff_ffff) as u32, pause);
                self.waiters.get_up();
            }
        }
        unreachable!()
    }

    // Puts the state back, and passes the turn on. Between the two the journal's length is published, where the turn
    // made it longer: so one without an entry stores nothing.
    pub(crate) fn put(&self, pass: &mut Pass<S>, state: S)
        requires turn { (pass.old.table_id ≡ self.now.table.shared.table_id) × (pass.old.me.1 ≡ (0, None) ∷ []) }
        requires may { (v : Known S) × (a : _) × Says pass.old.me.0 v × (v.stage ≡ Holds a)
            × MayLeave S.account v.number v.last state }
        ensures same { (pass.new.table_id ≡ pass.old.table_id) × (pass.new.id ≡ pass.old.id) }
        ensures left { (v : Known S) (told : ℕ) → pass.old.me.0 ≡ Knows v told
            → pass.new.me ≡ (Knows (knowing v state Idle) told, []) }
    {
        let shared = &self.table.shared;
        let length = state.length();
        match shared.exchange(pass, 0, Some(state)) {
            None => {}
            Some(_) => unreachable!(),
        }
        if shared.load::<Compare>(pass, LENGTH) == length {
            shared.fetch_add::<PassOn>(pass, SERVED, 1);
        } else {
            shared.store::<Publish>(pass, LENGTH, length);
            shared.fetch_add::<End>(pass, SERVED, 1);
        }
    }

    // Wakes one who sleeps, if that is needed, once a turn has ended.
    pub(crate) fn wake_next(&self) {
        if self.waiters.must_wake() {
            self.table.shared.wake_one(SERVED);
        }
    }
}
