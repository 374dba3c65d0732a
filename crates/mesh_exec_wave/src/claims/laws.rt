// Numbers are drawn once each.
ghost use Rattle.std.specs.Prelude.{◌≡◌, ◌<◌, ◌≤◌, ◌^◌, ℕ, List, length};
ghost use Rattle.mesh_exec_wave.specs.claims.Claims.{AreAll, times};

/// While all that was drawn are fewer than 2^64 numbers, each is drawn once at most; and where one of them isn't
/// below n, the numbers below n were drawn once each, and none was left out.
pub fn numbers_are_drawn_once()
    ensures once { (word : ℕ) (drawn : List ℕ) (n last : ℕ) → AreAll word drawn → length drawn < 2 ^ 64 → 0 < times last drawn → n ≤ last → (i : ℕ) → i < n → times i drawn ≡ 1 }
    ensures at_most { (word : ℕ) (drawn : List ℕ) → AreAll word drawn → length drawn < 2 ^ 64 → (i : ℕ) → times i drawn ≤ 1 }
{}
