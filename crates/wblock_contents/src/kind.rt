//! Files by their first bytes.

ghost use Rattle.std.specs.Prelude.{◌≡◌, ℕ, List, MatchOption, Some};
ghost use Rattle.spec_modules.specs.Syntax as syntax;
ghost use Rattle.spec_modules.specs.Spells.{Spells};
ghost use Rattle.spec_block.specs.Bytes.{SpellsWorld, SpellsBlock};
ghost use Rattle.spec_block.specs.Worlds as worlds;
ghost use Rattle.wblock_calls.specs.Sentences.{Begins};
ghost use Rattle.wblock_contents.specs.Kinds.{magic};
ghost use Rattle.wblock_contents.specs.declared.kind.Kind.{Kind as TheKind};

/// What a file holds, by its first bytes.
#[derive(Clone, Copy, Debug, PartialEq, Eq)]
pub enum Kind {
    /// A module in binary.
    Module,
    /// A world.
    World,
    /// A block.
    Block,
}

impl Kind {
    /// The kind whose magic the bytes begin with, or None where they begin with none.
    pub fn of(bytes: &[u8]) -> Option<Kind>
        ensures { MatchOption result ((k : TheKind) → ¬ Begins (magic k) bytes.now) (λ k. Begins (magic k) bytes.now) }
    {
        if bytes.starts_with(b"\0asm") {
            return Some(Kind::Module);
        }
        if bytes.starts_with(b"WBWD") {
            return Some(Kind::World);
        }
        if bytes.starts_with(b"WBLK") {
            return Some(Kind::Block);
        }
        None
    }
}

/// A law: what spells a module, a world or a block begins with the magic of its kind.
pub fn spelled_begin_so()
    ensures module { (bytes : List ℕ) (m : syntax.Module) → Spells bytes m → Begins (magic Kind.Module) bytes }
    ensures world { (bytes : List ℕ) (w : worlds.World) → SpellsWorld bytes w → Begins (magic Kind.World) bytes }
    ensures block { (bytes : List ℕ) (b : worlds.Block) → SpellsBlock bytes b → Begins (magic Kind.Block) bytes }
{}
