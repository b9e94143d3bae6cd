// Laws of journals: theorems over the definitions, each a function without work.
ghost use Rattle.std.specs.Prelude.{◌≡◌, ◌<◌, ◌^◌, ℕ, List, length};
ghost use Rattle.pv_journal.specs.Journals.{Row};
ghost use Rattle.pv_journal.specs.Obeying.{IsJournal, IsBad};

/// A law: a text is the journal of one list of lines at most, it is wrong at one line at most, and not both. So
/// `check`, which answers one of them, answers each exactly where it is so.
pub fn one_verdict()
    ensures lines { (bytes : List ℕ) (rows others : List Row) → length bytes < 2 ^ 64 → IsJournal rows bytes → IsJournal others bytes → rows ≡ others }
    ensures line { (bytes : List ℕ) (m n : ℕ) → length bytes < 2 ^ 64 → IsBad bytes m → IsBad bytes n → m ≡ n }
    ensures not_both { (bytes : List ℕ) (rows : List Row) (n : ℕ) → length bytes < 2 ^ 64 → IsJournal rows bytes → IsBad bytes n → ⊥ }
{}
