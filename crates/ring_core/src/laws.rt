//! Laws of every picture, every world and every run.
ghost use Rattle.std.specs.Prelude.{◌≡◌, ℕ, List, None, IsTrue};
ghost use Rattle.ring_core.specs.declared.states.RankState.{RankState};
ghost use Rattle.ring_core.specs.declared.states.Token.{Token};
ghost use Rattle.ring_core.specs.declared.events.Event.{Event};
ghost use Rattle.ring_core.specs.World.{Seen, rank_of, started, queued_in, on_way_in};
ghost use Rattle.ring_core.specs.Step.{refused, after};
ghost use Rattle.ring_core.specs.Picture.{Picture, Happens, PictureInvariant, WorldInvariant, IsStepOfPicture};
ghost use Rattle.ring_core.specs.Run.{IsRun, after_all, NoEmptyBatch};

/// Each event alone keeps the token invariant, from every picture that has it.
pub fn event_keeps_invariant_of_picture()
    ensures { (n : ℕ) (p : Picture) (t : Token) (event : Event) (q : Picture) (u : Token)
        → Happens n p t event q u → PictureInvariant n p t → PictureInvariant n q u }
{}

/// Each legal event alone keeps the token invariant, from every world that has it.
pub fn event_keeps_invariant_of_world()
    ensures { (world : Seen) (event : Event) → refused world event ≡ None → WorldInvariant world → WorldInvariant (after world event) }
{}

/// The ranks begin with the token invariant, whatever they are dealt.
pub fn start_has_invariant()
    ensures { (n starts : ℕ) → WorldInvariant (started n starts) }
{}

/// Every run keeps the token invariant, from every world that has it.
pub fn run_keeps_invariant()
    ensures { (world : Seen) (events : List Event) → IsRun world events → WorldInvariant world → WorldInvariant (after_all world events) }
{}

/// A legal event of a world is a step of its picture, if no batch on the way is empty. A run from the start makes none.
pub fn legal_event_is_step_of_picture()
    ensures step { (world : Seen) (event : Event) → NoEmptyBatch world.0 → refused world event ≡ None → IsStepOfPicture world event }
    ensures start { (n starts : ℕ) → NoEmptyBatch (started n starts).0 }
    ensures kept { (world : Seen) (event : Event) → refused world event ≡ None → NoEmptyBatch world.0 → NoEmptyBatch (after world event).0 }
{}

/// Whatever the order of events, no rank learns of the end while a string is queued or on the way: if a rank has ended, none is.
pub fn no_rank_ends_early()
    ensures { (n starts : ℕ) (events : List Event) (r : ℕ) → IsRun (started n starts) events
        → IsTrue (rank_of (after_all (started n starts) events).0 r).ended
        → (queued_in (after_all (started n starts) events).0 ≡ 0) × (on_way_in (after_all (started n starts) events).0 ≡ 0) }
{}
