//! A book in shards: each lock belongs to one shard, and each shard keeps its own part of every trace (Dickerson, Gazzillo, Herlihy,
//! Koskinen, "Adding Concurrency to Smart Contracts", PODC 2017, section 3: locks and inverse logs are kept for each object by itself).

ghost use Rattle.std.specs.Prelude.{◌≡◌, ℕ, ◌<◌, List};
ghost use Rattle.spec_ledger.specs.declared.Lock.{Lock};
ghost use Rattle.spec_ledger.specs.Cells.{Cells};
ghost use Rattle.spec_ledger.specs.Book.{CommittedCall, IsDefined, settled};
ghost use Rattle.spec_ledger.specs.Shards.{AreCellsOf, IsHome, entries_in};

/// The shards of a book are one book. Let the cells of each shard be, at its locks, those of all. Then each shard's entries settle its
/// own cells as the journal settles all cells at the shard's locks; and where in each shard every reply is the one that its operation
/// gives at that point, so is every reply of the journal.
pub fn shards_are_one_book()
    ensures cells { (home : Lock → ℕ) (shards : ℕ) → IsHome home shards → (journal : List CommittedCall) (opening : Cells) (own : ℕ → Cells) → ((i : ℕ) → i < shards → AreCellsOf home i opening (own i)) → (i : ℕ) → i < shards → AreCellsOf home i (settled opening journal) (settled (own i) (entries_in home i journal)) }
    ensures defined { (home : Lock → ℕ) (shards : ℕ) → IsHome home shards → (journal : List CommittedCall) (opening : Cells) (own : ℕ → Cells) → ((i : ℕ) → i < shards → AreCellsOf home i opening (own i)) → ((i : ℕ) → i < shards → IsDefined (own i) (entries_in home i journal)) → IsDefined opening journal }
{}
