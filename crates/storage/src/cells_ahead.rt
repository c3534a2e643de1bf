//! Cells that several calls change at once, with the inverses of what each did.

ghost use Rattle.std.specs.Prelude.{◌≡◌, ◌≤◌, [], ◌∷◌, ◌++◌, IfNone, IfOk, IfSome, OnErr, OnOk, drop, length, replicate, take};
ghost use Rattle.spec_ledger.specs.Book.{back_all};
ghost use Rattle.spec_ledger.specs.Cells.{cells_after, inverse_to, reply_to};
ghost use Rattle.storage.specs.Changing.{acted, back_to, done_at, ended};
ghost use Rattle.storage.specs.Counts.{AreUnsettled, closed_all, opened};

use crate::Cells;
use crate::changes::{end_all, take_back_to};
use spec_ledger::{Inverse, NoMemory, Op, Reply};
use std::alloc::{Allocator, Global};
use std::marker::Model;
use std::mem;

/// The inverses of operations, first to last. Contracts see their list.
#[derive(Drop)]
struct Changes<A: Allocator> {
    inverses: Vec<Inverse, A>,
}

impl<A: Allocator> Model for Changes<A> {
    ghost use Rattle.std.specs.Prelude.{List};
    ghost use Rattle.spec_ledger.specs.declared.Inverse.{Inverse};
    ghost use Rattle.storage.specs.Changing.{inverses_code};

    ghost Value = { List Inverse };

    ghost coded = { inverses_code };

    ghost view = { λ c. c.inverses.items };
}

impl<A: Allocator + Copy> Changes<A> {
    /// Of no operation.
    fn new(alloc: A) -> Self
        ensures { result ≡ [] }
    {
        Changes {
            inverses: Vec::new(alloc),
        }
    }

    /// Does an operation, and keeps its inverse. Where memory is refused, all is as it was.
    fn act(&mut self, cells: &mut Cells<A>, op: Op) -> Result<Reply, NoMemory>
        ensures reply { IfOk result (λ reply. reply ≡ reply_to op cells.old.cells) }
        ensures inverses { OnOk result (self.new ≡ self.old ++ inverse_to op cells.old.cells ∷ []) }
        ensures cells { OnOk result (cells.new.cells ≡ cells_after op cells.old.cells) }
        ensures unsettled { OnOk result (cells.new.unsettled ≡ opened (inverse_to op cells.old.cells) cells.old.unsettled) }
        ensures err { OnErr result (self.new ≡ self.old) }
        ensures err_cells { OnErr result (cells.new ≡ cells.old) }
    {
        self.inverses.reserve(1).map_err(|_| NoMemory)?;
        let (reply, inverse) = cells.apply(op)?;
        match self.inverses.push(inverse) {
            Ok(()) => (),
            Err(_) => unreachable!(),
        }
        Ok(reply)
    }

    /// How many operations these are of.
    fn count(&self) -> usize
        ensures { result ≡ length self.now }
    {
        self.inverses.len()
    }

    /// Takes changes back, last first, until only those of the first so many operations are left. It takes no memory.
    fn take_back_to(&mut self, cells: &mut Cells<A>, mark: usize)
        requires { AreUnsettled self.old cells.old.unsettled }
        ensures inverses { self.new ≡ take mark self.old }
        ensures cells { cells.new.cells ≡ back_all (drop mark self.old) cells.old.cells }
        ensures unsettled { cells.new.unsettled ≡ closed_all (drop mark self.old) cells.old.unsettled }
    {
        if mark >= self.inverses.len() {
            return;
        }
        take_back_to(cells, &mut self.inverses, mark);
    }

    /// The inverses.
    fn into_inverses(self) -> Vec<Inverse, A>
        ensures { result.items ≡ self }
    {
        let Changes { inverses } = self;
        inverses
    }
}

/// Cells that the calls of an order change at once, ahead of what they come to one after another. Contracts see the cells, and by position the
/// inverses of what its call did and has not ended. The type keeps that the unsettled changes of the cells are those of these inverses.
#[derive(Drop)]
pub struct Ahead<A: Allocator = Global> {
    alloc: A,
    cells: Cells<A>,
    inverses: Vec<Changes<A>, A>,
}

impl<A: Allocator> Model for Ahead<A> {
    ghost use Rattle.std.specs.Prelude.{◌≡◌};
    ghost use Rattle.std.specs.FinMap.{empty};
    ghost use Rattle.storage.specs.Changing.{Changing, changing_code, counts_of};

    ghost Value = { Changing };

    ghost coded = { changing_code };

    ghost view = { λ a. record { cells = a.cells.cells; inverses = a.inverses.items } };

    ghost invariant = { λ a. a.cells.unsettled ≡ counts_of a.inverses.items empty };
}

/// No changes, of so many positions.
fn no_changes<A: Allocator + Copy>(
    alloc: A,
    positions: usize,
) -> Result<Vec<Changes<A>, A>, NoMemory>
    ensures { IfOk result (λ all. all.items ≡ replicate positions []) }
{
    let mut all = Vec::new(alloc);
    for _position in 0..positions {
        all.push(Changes::new(alloc))?;
    }
    Ok(all)
}

impl<A: Allocator + Copy> Ahead<A> {
    /// A copy of the cells, in which no position has changed anything.
    ///
    /// # Errors
    ///
    /// The allocator refused memory.
    pub fn open(alloc: A, cells: &Cells<A>, positions: usize) -> Result<Self, NoMemory>
        ensures { IfOk result (λ ahead. ahead ≡ record { cells = cells.now.cells; inverses = replicate positions [] }) }
    {
        let inverses = no_changes(alloc, positions)?;
        let cells = cells.copy(alloc)?;
        Ok(Ahead {
            alloc,
            cells,
            inverses,
        })
    }

    /// Does an operation for a position, and keeps its inverse. None where there is no such position.
    ///
    /// # Errors
    ///
    /// The allocator refused memory. All is as it was.
    pub fn act(&mut self, position: usize, op: Op) -> Result<Option<Reply>, NoMemory>
        ensures reply { IfOk result (λ o. IfSome o (λ reply. reply ≡ reply_to op self.old.cells)) }
        ensures done { IfOk result (λ o. IfSome o (λ _. self.new ≡ acted self.old position op)) }
        ensures none { IfOk result (λ o. IfNone o ((length self.old.inverses ≤ position) × (self.new ≡ self.old))) }
        ensures err { OnErr result (self.new ≡ self.old) }
    {
        if position >= self.inverses.len() {
            return Ok(None);
        }
        let reply = self.inverses[position].act(&mut self.cells, op)?;
        Ok(Some(reply))
    }

    /// How many operations of a position may be taken back. 0 where there is no such position.
    pub fn count(&self, position: usize) -> usize
        ensures { result ≡ length (done_at self.now position) }
    {
        if position >= self.inverses.len() {
            return 0;
        }
        self.inverses[position].count()
    }

    /// Takes back what a position did, last first, until only its first so many operations are left. This takes no memory.
    pub fn take_back_to(&mut self, position: usize, mark: usize)
        ensures { self.new ≡ back_to self.old position mark }
    {
        if position >= self.inverses.len() {
            return;
        }
        self.inverses[position].take_back_to(&mut self.cells, mark);
    }

    /// Ends what a position did: it stands, or is taken back, last first. This takes no memory.
    pub fn end(&mut self, position: usize, stand: bool)
        ensures { self.new ≡ ended self.old position stand }
    {
        if position >= self.inverses.len() {
            return;
        }
        let changes = mem::replace(&mut self.inverses[position], Changes::new(self.alloc));
        end_all(&mut self.cells, changes.into_inverses(), stand);
    }
}
