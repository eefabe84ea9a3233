//! The life of an entry, over all its ticks: what the timers result in.

ghost use Rattle.std.specs.Prelude.{ℕ, List, true};
ghost use Rattle.dsx_messages.specs.declared.kind.Kind.{Kind};
ghost use Rattle.dsx_messages.specs.declared.modem.Modem.{Modem};
ghost use Rattle.transactions.specs.declared.entry.KeptEntry.{KeptEntry};
ghost use Rattle.transactions.specs.Waits.{Waits, IsLasting};
ghost use Rattle.transactions.specs.Keeping.{begun_entry, held_entry};
ghost use Rattle.transactions.specs.Life.{WaitsInVain, IsOnlyHeld};

/// States that an entry that waits and is never acknowledged is resent at the end of each of its
/// first `resends` waits, and abandoned at the end of the next. An entry that is held is forgotten
/// at the end of its time, and never resent. Does nothing.
pub fn timers_keep_time()
    ensures waiting { (waits : Waits) (modem : Modem) (tid : ℕ) (kind : Kind) (reply : List ℕ) (sfid : ℕ)
        → IsLasting waits → WaitsInVain waits (begun_entry waits modem tid kind reply sfid true) }
    ensures held { (waits : Waits) (e : KeptEntry) → IsLasting waits → IsOnlyHeld waits (held_entry waits e) }
{}
