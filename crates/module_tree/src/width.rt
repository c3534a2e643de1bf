// How many bytes loads and stores touch.
ghost use Rattle.std.specs.Prelude.{◌≡◌};
ghost use Rattle.spec_modules.specs.Storage;

use wtypes::{LoadOp, StoreOp};

/// How many bytes a load reads (Core Specification, 2.4.4 Memory Instructions).
pub fn load_width(op: LoadOp) -> u32
    ensures { result ≡ Storage.load_width op }
{
    match op {
        LoadOp::I32Load8S | LoadOp::I32Load8U | LoadOp::I64Load8S | LoadOp::I64Load8U => 1,
        LoadOp::I32Load16S | LoadOp::I32Load16U | LoadOp::I64Load16S | LoadOp::I64Load16U => 2,
        LoadOp::I32Load | LoadOp::I64Load32S | LoadOp::I64Load32U => 4,
        LoadOp::I64Load => 8,
    }
}

/// How many bytes a store writes (Core Specification, 2.4.4 Memory Instructions).
pub fn store_width(op: StoreOp) -> u32
    ensures { result ≡ Storage.store_width op }
{
    match op {
        StoreOp::I32Store8 | StoreOp::I64Store8 => 1,
        StoreOp::I32Store16 | StoreOp::I64Store16 => 2,
        StoreOp::I32Store | StoreOp::I64Store32 => 4,
        StoreOp::I64Store => 8,
    }
}
