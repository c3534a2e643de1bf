//! Files that are read and written.

ghost use Rattle.std.specs.Prelude.{◌≡◌, OnOk, OnErr, IfErr, IsTrue};
ghost use Rattle.wblock_io.specs.Holding.{Changes, IsNoted};

use wblock_io::{Files, WriteFault};

/// As [`wblock_io::write_file`].
pub fn write_file<F: Files>(files: &mut F, name: &str, bytes: &[u8]) -> Result<(), WriteFault>
    ensures written { OnOk result (IsTrue F.tells → Changes (F.holds files.old) (F.holds files.new) name.now bytes.now) }
    ensures same { OnErr result (IsTrue F.tells → F.holds files.new ≡ F.holds files.old) }
    ensures calm { OnOk result (F.failures files.new ≡ F.failures files.old) }
    ensures counted { IfErr result (λ fault. IsNoted fault name.now (F.failures files.old) (F.failures files.new)) }
{
    wblock_io::write_file(files, name, bytes)
}
