//! What versions can tell.

ghost use Rattle.std.specs.Prelude.{◌≡◌, List};
ghost use Rattle.std.specs.List.{AllByRecursion};
ghost use Rattle.spec_ledger.specs.declared.Version.{Version};
ghost use Rattle.spec_ledger.specs.declared.Version.TheVariants.{Two};
ghost use Rattle.spec_block.specs.Worlds.{Position};
ghost use Rattle.spec_block.specs.Bytes.{ForVersion};

/// Version 2 can tell every receipt.
pub fn version_2_tells_all()
    ensures { (version : Version) (positions : List Position) → version ≡ Two → AllByRecursion (λ p. ForVersion version p.receipt) positions }
{}
