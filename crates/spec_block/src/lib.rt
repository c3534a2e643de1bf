// Blocks of calls, and what contracts say of them.
#![tactic(auto)]

ghost use Rattle.std.specs.Prelude.{◌≡◌, ℕ, ◌<◌, ◌≤◌, ◌+◌, List, length, take};
ghost use Rattle.std.specs.List.{AllByRecursion};
ghost use Rattle.spec_ledger.specs.declared.Version.{Version};
ghost use Rattle.spec_ledger.specs.declared.Entry.{Entry};
ghost use Rattle.spec_ledger.specs.declared.Mode.{Mode};
ghost use Rattle.spec_ledger.specs.Cells.{Cells};
ghost use Rattle.spec_ledger.specs.Order.{AreGroups, groups_before, groups_before_last};
ghost use Rattle.spec_block.specs.Worlds.{Block, Call, World, profiles_of};
ghost use Rattle.spec_execution.specs.Serial.{CallResult};
ghost use Rattle.spec_block.specs.Serial.{Serial};
ghost use Rattle.spec_block.specs.Bytes.{IsCall, SpellsBlock, SpellsWorld, calls_bytes};
ghost use Rattle.spec_block.specs.Verdicts.{IsVerdictOf, Verdict};
ghost use Rattle.spec_block.specs.Headline.{AcceptsExactly, Headline};
ghost use Rattle.spec_block.specs.Schedule.{HaveTurns, PathsJoin, WavesGoTogether};

/// Bytes spell one block, one list of calls and one world.
pub fn one_block_a_spelling()
    ensures one { (bytes : List ℕ) (b c : Block) → SpellsBlock bytes b → SpellsBlock bytes c → b ≡ c }
    ensures calls { (xs ys : List Call) → length xs ≤ 65535 → length ys ≤ 65535 → AllByRecursion IsCall xs → AllByRecursion IsCall ys → calls_bytes xs ≡ calls_bytes ys → xs ≡ ys }
    ensures worlds { (bytes : List ℕ) (v w : World) → SpellsWorld bytes v → SpellsWorld bytes w → v ≡ w }
{
    laws_modules::one_tree();
    spec_typing::resolved_once();
}

/// An order has one serial run.
pub fn one_serial_run()
    ensures one { (version : Version) (world : World) (calls : List Call) (order : List ℕ) (cells : Cells) (rs ss : List CallResult) (l m : Cells) → Serial version world calls order cells rs l → Serial version world calls order cells ss m → (rs ≡ ss) × (l ≡ m) }
{
    spec_execution::runs_are_unique();
}

/// Positions whose modes at a lock do not go together are joined by a path, the earlier first; those of one wave go together.
pub fn paths_join()
    ensures joined { (profiles : List (List Entry)) → HaveTurns profiles → PathsJoin profiles }
    ensures published { (world : World) (calls : List Call) (fuel : ℕ) (block : Block) (next : World) → Headline world calls fuel block next → HaveTurns (profiles_of block) }
    ensures together { (profiles : List (List Entry)) → HaveTurns profiles → WavesGoTogether profiles }
{
    spec_execution::runs_are_unique();
}

/// A lock's holders fall into groups, and a holder's turn is the number of groups before its own.
pub fn turns_count_groups()
    ensures there_are { (held : List Mode) → (groups : List (List Mode)) × AreGroups held groups }
    ensures turns { (held : List Mode) (groups : List (List Mode)) → AreGroups held groups → (k : ℕ) → k < length held → groups_before groups k ≡ groups_before_last (take (k + 1) held) }
{}

/// Accepted are exactly the spellings of the blocks of admissible orders, and bytes have one verdict.
pub fn accepts_exactly_the_published()
    ensures exactly { (world : World) (calls : List Call) (fuel : ℕ) (bytes : List ℕ) → AcceptsExactly world calls fuel bytes }
    ensures one { (world : World) (calls : List Call) (fuel : ℕ) (bytes : List ℕ) (v w : Verdict) → IsVerdictOf world calls fuel bytes v → IsVerdictOf world calls fuel bytes w → v ≡ w }
{
    spec_execution::runs_are_unique();
}
