// What is answered to a module.
use body_typing::scope::TypeRefusal;
use link::deploy::deploy;
use link::refusal::LinkRefusal;
use module_tree::module::Module;
use std::alloc::{Allocator, Global};
use typing::check::check;
use typing::valid::Valid;

/// What is answered to the bytes of a module.
#[derive(Clone, Copy, Debug, PartialEq, Eq)]
pub enum Verdict {
    /// It is deployed.
    Deployed,
    /// It is not typed: the function, the ordinal and the number of the rule that is broken.
    Broken(Option<u32>, u32, u8),
    /// It is typed and is not deployed.
    Unlinked(LinkRefusal),
    /// Memory was refused to the check.
    NoMemory,
}

fn broken(refusal: TypeRefusal) -> Verdict {
    match refusal {
        TypeRefusal::At {
            func,
            ordinal,
            rule,
        } => Verdict::Broken(func, ordinal, rule.number()),
        TypeRefusal::NoMemory => Verdict::NoMemory,
    }
}

fn linked(a: Global, valid: Valid<Global>) -> Verdict {
    match deploy(&a, valid) {
        Ok(_deployed) => Verdict::Deployed,
        Err((_valid, refusal)) => Verdict::Unlinked(refusal),
    }
}

/// What is answered to a tree, where the check takes its working memory from `work`.
pub fn verdict_in<W: Allocator + Clone>(a: Global, work: &W, tree: Module<Global>) -> Verdict {
    match check(work, tree) {
        Ok(valid) => linked(a, valid),
        Err((_tree, refusal)) => broken(refusal),
    }
}
