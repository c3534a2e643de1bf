//! Faults of a text.
ghost use Rattle.assembler.specs.OfFields.{IsOfFields};

use text_resolve::{AsmRefusal, Limit, ResolveFault};
use wtypes::NoMemory;

// A fault of a name or a number.
#[derive(Clone, Copy)]
enum Fault {
    UnknownName,
    RepeatedName,
    NumberRange,
}

/// The faults of a text that have been met: the one at the least place, and the least limit that is passed.
#[derive(Drop)]
pub struct Faults {
    placed: Option<(usize, Fault)>,
    limit: Option<Limit>,
}

impl Faults {
    /// No fault.
    pub fn none() -> Faults {
        Faults {
            placed: None,
            limit: None,
        }
    }

    // A fault at a place.
    fn put(&mut self, at: usize, fault: Fault) {
        let is_less = match self.placed {
            None => true,
            Some((least, _)) => at < least,
        };
        if is_less {
            self.placed = Some((at, fault));
        }
    }

    /// A limit is passed.
    pub fn pass(&mut self, limit: Limit) {
        let is_less = match self.limit {
            None => true,
            Some(least) => limit.number() < least.number(),
        };
        if is_less {
            self.limit = Some(limit);
        }
    }

    /// A fault is met.
    pub fn note(&mut self, fault: ResolveFault) -> Result<(), NoMemory> {
        match fault {
            ResolveFault::UnknownName(at) => self.put(at, Fault::UnknownName),
            ResolveFault::RepeatedName(at) => self.put(at, Fault::RepeatedName),
            ResolveFault::NumberRange(at) => self.put(at, Fault::NumberRange),
            ResolveFault::TooLarge(limit) => self.pass(limit),
            // No place is at fault by itself.
            ResolveFault::Broken => {}
            ResolveFault::NoMemory => return Err(NoMemory),
        }
        Ok(())
    }

    /// Notes the fault of an outcome, if it is one.
    pub fn take<T: Drop>(&mut self, outcome: Result<T, ResolveFault>) -> Result<(), NoMemory> {
        match outcome {
            Ok(_) => Ok(()),
            Err(fault) => self.note(fault),
        }
    }

    /// The refusal of the text: the fault at the least place, else the least limit. Where neither is met, the module is
    /// too long.
    pub fn refusal(&self) -> AsmRefusal
        ensures { IsOfFields result }
    {
        match self.placed {
            Some((at, Fault::UnknownName)) => AsmRefusal::UnknownName(at),
            Some((at, Fault::RepeatedName)) => AsmRefusal::RepeatedName(at),
            Some((at, Fault::NumberRange)) => AsmRefusal::NumberRange(at),
            None => AsmRefusal::TooLarge(self.limit.unwrap_or(Limit::Bytes)),
        }
    }
}
