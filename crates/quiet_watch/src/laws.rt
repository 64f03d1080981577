//! Laws of the definitions.
ghost use Rattle.std.specs.Prelude.{ℕ, Bool, List};
ghost use Rattle.dev_card.specs.declared.desc.Desc.{Desc};
ghost use Rattle.stapl_meaning.specs.Scopes.{Played};
ghost use Rattle.quiet_watch.specs.Watches.{Watched};
ghost use Rattle.quiet_watch.specs.HeardPlays.{HearsPlay, HasSeenPlay};

/// A play whose scans are told, and that hears the answers of a watch, stands as the play on the devices alone. The
/// watch has seen nothing exactly if that play is quiet, and else the reason of its first deed that is not.
pub fn a_watch_has_seen_the_first_deed_that_is_not_quiet()
    ensures { (program : Played) (chosen : List ℕ) (n : ℕ) (run : List Desc) (bs : List Bool) (v : Watched) →
        HearsPlay program chosen n run bs v → HasSeenPlay program chosen n run bs v }
{}
