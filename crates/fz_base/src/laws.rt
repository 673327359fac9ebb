//! What the definitions of logs, of contents and of takings promise together.
ghost use Rattle.std.specs.Option.{option_map};
ghost use Rattle.std.specs.Prelude.{ℕ, ◌≡◌, ◌+◌, ◌-◌, ◌≤◌, ◌<◌, ◌⊎◌, max, length, get_or};
ghost use Rattle.std.specs.Prelude.{List, [], ◌∷◌, ◌++◌, Option, Some};
ghost use Rattle.fz_base.specs.FirstByte.{IsShut, StaysShut, with_first_byte};
ghost use Rattle.fz_base.specs.Ranges.{LogsSomeLaw, LogsAllLaw, LogsWithinLaw, LogsJoinLaw};
ghost use Rattle.fz_base.specs.Sink.{overwrite, written, emptied};
ghost use Rattle.fz_base.specs.Source.{logged, MayLog, LogsWithin};
ghost use Rattle.fz_base.specs.Takings.{PastFirstLaw, PastSecondLaw, PastWithinLaw};
ghost use Rattle.fz_base.specs.Told.{StaysTold};

/// Logs of several reads: none, one, one after another, and within wider places. A log that was shown is still
/// shown with more after it, whatever the more is.
pub fn log_law()
    ensures none { (from to : ℕ) (ranges : Option (List (ℕ × ℕ))) → LogsWithin from to ranges ranges }
    ensures one { (from to at count : ℕ) (old new : Option (List (ℕ × ℕ))) →
        0 < count → from ≤ at → at + count ≤ to → MayLog at count old new → LogsWithin from to old new }
    ensures both { (from to : ℕ) (old mid new : Option (List (ℕ × ℕ))) →
        LogsWithin from to old mid → LogsWithin from to mid new → LogsWithin from to old new }
    ensures wider { (from to from' to' : ℕ) (old new : Option (List (ℕ × ℕ))) →
        from' ≤ from → to ≤ to' → LogsWithin from to old new → LogsWithin from' to' old new }
    ensures told { (more : List (ℕ × ℕ)) (old new : Option (List (ℕ × ℕ))) →
        new ≡ option_map (λ rs. rs ++ more) old → StaysTold old new }
{}

/// If the bytes of reads lie in some ranges, only bytes of these ranges were read; what is read one
/// after another in some ranges is read in them.
pub fn ranges_law()
    ensures some { LogsSomeLaw }
    ensures all { LogsAllLaw }
    ensures within { LogsWithinLaw }
    ensures join { LogsJoinLaw }
{}

/// Writes one after another are one write, also after the end, and if the later one is made first; writes at
/// places that have nothing in common may come in any order. What was written after byte 0 of an empty output, and
/// then sealed, is the output.
pub fn output_law()
    ensures next { (at : ℕ) (front back : List ℕ) (contents : Option (List ℕ)) →
        written (at + length front) back (written at front contents) ≡ written at (front ++ back) contents }
    ensures apart { (at from : ℕ) (x y : List ℕ) (contents : Option (List ℕ)) →
        at + length x ≤ from → written at x (written from y contents) ≡ written from y (written at x contents) }
    ensures joined { (at from : ℕ) (x y : List ℕ) (contents : Option (List ℕ)) →
        from ≡ at + length x → written at x (written from y contents) ≡ written at (x ++ y) contents }
    ensures behind { (bytes contents : List ℕ) → written (length contents) bytes (Some contents) ≡ Some (contents ++ bytes) }
    ensures sealed { (bytes : List ℕ) → with_first_byte (written 1 bytes (Some [])) ≡ Some (83 ∷ bytes) }
    ensures empty { (contents : Option (List ℕ)) → IsShut (emptied contents) }
    ensures shut { (at : ℕ) (bytes : List ℕ) (contents : Option (List ℕ)) → 0 < at → StaysShut contents (written at bytes contents) }
{}

/// A write has its bytes at its places and leaves all others as they were; with at least one byte the contents then
/// reach to its end, or as far as before.
pub fn places_law()
    ensures inside { (at : ℕ) (bytes contents : List ℕ) (i : ℕ) →
        at ≤ i → i < at + length bytes → get_or (overwrite at bytes contents) i 0 ≡ get_or bytes (i - at) 0 }
    ensures outside { (at : ℕ) (bytes contents : List ℕ) (i : ℕ) →
        (i < at) ⊎ (at + length bytes ≤ i) → get_or (overwrite at bytes contents) i 0 ≡ get_or contents i 0 }
    ensures long { (at : ℕ) (bytes contents : List ℕ) →
        0 < length bytes → length (overwrite at bytes contents) ≡ max (length contents) (at + length bytes) }
{}

/// Which of some takings is the first to pass a limit, of one list after another: one of the first list, or if none
/// of these passes it, one of the second. And a taking that passes some limit is within every bound that none passes.
pub fn takings_law()
    ensures first { PastFirstLaw }
    ensures second { PastSecondLaw }
    ensures within { PastWithinLaw }
{}
