//! Whether a module is typed and deployed.

use crate::refused::Refused;
use body_typing::scope::TypeRefusal;
use link::deploy::deploy;
use link::refusal::LinkRefusal;
use loader::load;
use module_tree::module::Module;
use std::alloc::Global;
use typing::check::check;
use typing::valid::Valid;

/// What is answered to the bytes of a module.
#[derive(Clone, Copy, Debug)]
enum Verdict {
    /// It is deployed.
    Deployed,
    /// It is not typed: the function, the ordinal and the number of the rule that is broken.
    Broken(Option<u32>, u32, u8),
    /// It is typed and is not deployed.
    Unlinked(LinkRefusal),
    /// Memory was refused to the check.
    NoMemory,
}

/// The verdict on a module that is not typed.
fn broken(refusal: TypeRefusal) -> Verdict {
    match refusal {
        TypeRefusal::At {
            func,
            ordinal,
            rule,
        } => Verdict::Broken(func, ordinal, rule.number()),
        TypeRefusal::NoMemory => Verdict::NoMemory,
    }
}

/// The verdict on a module that is typed.
fn linked(alloc: Global, valid: Valid<Global>) -> Verdict {
    match deploy(&alloc, valid) {
        Ok(_deployed) => Verdict::Deployed,
        Err((_valid, refusal)) => Verdict::Unlinked(refusal),
    }
}

/// The verdict on a module.
fn verdict_on(alloc: Global, tree: Module<Global>) -> Verdict {
    match check(&alloc, tree) {
        Ok(valid) => linked(alloc, valid),
        Err((_tree, refusal)) => broken(refusal),
    }
}

/// The verdict on the module of these bytes.
pub(crate) fn verdict_text(alloc: Global, bytes: &[u8]) -> Result<String, Refused> {
    let verdict = verdict_on(alloc, load(alloc, bytes)?);
    Ok(format!(in alloc; "{verdict:?}\n")?)
}
