//! Where the cells of a part lie in a whole.

ghost use Rattle.std.specs.Prelude.{◌≡◌, IfOk};
ghost use Rattle.mk_scope.specs.Scopes.{LiesIn, cells_in};
ghost use Rattle.mk_scope.specs.Places.{AreOnto, ArePlaces};
ghost use Rattle.mk_scope.specs.Runs.{runs_of};

use crate::scope::Scope;
use crate::strides::CellList;
use mk_net::NoMemory;
use std::alloc::Global;
use std::marker::Model;
use std::rc::Rc;

/// Where the cells of a part lie in a whole: for each cell of the part the first cell of the whole with its values, and how far
/// from it the runs of cells with these values begin. They are the same distances for each cell of the part. The cells of a run
/// lie side by side.
///
/// For each cell of the whole, the part's cell that has its values is kept too, and so is how far from the first cell each cell
/// of longer runs lies.
#[derive(Drop)]
pub struct Places {
    whole: Rc<Scope>,
    part: Rc<Scope>,
    bases: Vec<u16>,
    offsets: Vec<u16>,
    run: usize,
    onto: Vec<u16>,
    beside: Vec<u16>,
}

impl Model for Places {
    ghost use Rattle.mk_scope.specs.Scopes.{PlacesOf};
    ghost use Rattle.mk_scope.specs.inner.Kept.{AreKeptPlaces};
    ghost use Rattle.mk_scope.specs.Runs.{runs_of};

    ghost Value = { PlacesOf };

    ghost view = { λ p. record { whole = p.whole.value; part = p.part.value } };

    ghost invariant = { λ p. AreKeptPlaces p.part.value p.whole.value p.bases.items (runs_of p.run p.offsets.items) p.run p.onto.items p.beside.items };
}

impl Places {
    /// The places of a part in a whole, which has each of its variables. The two lists are where cells are listed.
    pub fn of(
        alloc: Global,
        whole: &Rc<Scope>,
        part: &Rc<Scope>,
        bases: &mut CellList,
        offsets: &mut CellList,
    ) -> Result<Places, NoMemory>
        requires { LiesIn part.now.value whole.now.value }
        ensures { IfOk result (λ places. places ≡ record { whole = whole.now.value; part = part.now.value }) }
    {
        let run = whole.cells_onto(part, bases, offsets);
        let firsts = Vec::from_slice(alloc, offsets.as_slice())?;
        if run > 1 {
            whole.cells_beside(part, offsets);
        } else {
            offsets.clear();
        }
        Ok(Places {
            whole: whole.clone()?,
            part: part.clone()?,
            bases: Vec::from_slice(alloc, bases.as_slice())?,
            offsets: firsts,
            run,
            onto: cells_of_part(alloc, whole, part)?,
            beside: Vec::from_slice(alloc, offsets.as_slice())?,
        })
    }

    /// How many cells the whole has.
    pub fn whole_cells(&self) -> usize
        ensures { result ≡ cells_in self.now.whole }
    {
        self.whole.cells()
    }

    /// How many cells the part has.
    pub fn part_cells(&self) -> usize
        ensures cells { result ≡ cells_in self.now.part }
        ensures lies_in { LiesIn self.now.part self.now.whole }
    {
        self.part.cells()
    }

    /// The first cell of the whole for each cell of the part, how far from it the runs begin, and how many cells each run has.
    pub fn lists(&self) -> (&[u16], &[u16], usize)
        ensures { ArePlaces self.now.part self.now.whole result.0.now (runs_of result.2 result.1.now) result.2 }
    {
        (&self.bases, &self.offsets, self.run)
    }

    /// The first cell of the whole for each cell of the part, and how far from it each cell with its values lies.
    pub fn single_lists(&self) -> (&[u16], &[u16])
        ensures { ArePlaces self.now.part self.now.whole result.0.now result.1.now 1 }
    {
        if self.run > 1 {
            (&self.bases, &self.beside)
        } else {
            (&self.bases, &self.offsets)
        }
    }

    /// The part's cell with the values of each cell of the whole.
    pub fn onto(&self) -> &[u16]
        ensures { AreOnto self.now.part self.now.whole result.now }
    {
        &self.onto
    }
}

/// The part's cell with the values of each cell of a whole.
fn cells_of_part(alloc: Global, whole: &Scope, part: &Scope) -> Result<Vec<u16>, NoMemory>
    requires { LiesIn part.now whole.now }
    ensures { IfOk result (λ onto. AreOnto part.now whole.now onto.items) }
{
    let mut onto = vec![in alloc; 0; whole.cells()]?;
    part.count_cells(whole, &mut onto);
    Ok(onto)
}
