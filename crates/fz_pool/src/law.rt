//! The law of the window, over lists of events: no code runs.
ghost use Rattle.std.specs.Prelude.{◌≡◌, ℕ, ◌+◌, ◌<◌, ◌≤◌, List, None};
ghost use Rattle.fz_pool.specs.WindowCore.{Event, done, first_state, AreEvents, IsComplete, last_state, draws_of, puts_of, late_draws};

/// For every list of draws and puts by one or more workers: each tile is drawn at most once, and is
/// put back done at most once, with the result of its own job. After a complete list every tile is
/// done and no worker holds one, so all complete lists leave the same tiles. The ticket is then the
/// number of tiles and of the draws that came too late.
pub fn window_law()
    ensures once { (workers count : ℕ) (result : ℕ → ℕ) (es : List Event) → AreEvents workers count result first_state es
        → (k : ℕ) → k < count → (draws_of workers count result k first_state es ≤ 1) × (puts_of workers count result k first_state es ≤ 1) }
    ensures own_result { (workers count : ℕ) (result : ℕ → ℕ) (es : List Event) → AreEvents workers count result first_state es
        → (k r : ℕ) → (last_state workers count result first_state es).tiles k ≡ done r → r ≡ result k }
    ensures complete { (workers count : ℕ) (result : ℕ → ℕ) (es : List Event) → 0 < workers → IsComplete workers count result es
        → ((k : ℕ) → k < count → (last_state workers count result first_state es).tiles k ≡ done (result k))
        × ((w : ℕ) → w < workers → (last_state workers count result first_state es).held w ≡ None) }
    ensures ticket { (workers count : ℕ) (result : ℕ → ℕ) (es : List Event) → 0 < workers → IsComplete workers count result es
        → (last_state workers count result first_state es).ticket ≡ count + late_draws workers count result first_state es }
    ensures same { (workers others count : ℕ) (result : ℕ → ℕ) (es fs : List Event) → 0 < workers → 0 < others
        → IsComplete workers count result es → IsComplete others count result fs
        → (k : ℕ) → k < count → (last_state workers count result first_state es).tiles k ≡ (last_state others count result first_state fs).tiles k }
{}
