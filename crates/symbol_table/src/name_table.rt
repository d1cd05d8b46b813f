ghost use Rattle.std.specs.Prelude.{◌≡◌, ◌∷◌, ◌-◌, ◌<◌, ◌≤◌, IfOk, OnErr, OnOk, drop, length, max};
ghost use Rattle.algolw_tree.specs.Standards.{spelled};
ghost use Rattle.symbol_table.specs.Standings.{every_name, standard_count, standing_of, standings_of};

use crate::standings::Standing;
use algolw_tree::{STANDARD, Standard};
use std::alloc::{AllocError, Global};
use std::marker::Model;

/// What these names of every deck stand for, in order, with room for so many.
fn standard_standings(
    alloc: Global,
    names: &[(&[u8], Standard)],
    count: usize,
) -> Result<Vec<Standing>, AllocError>
    ensures { IfOk result (λ standings. standings.items ≡ standings_of (spelled names.now)) }
{
    let mut standings = Vec::with_capacity(alloc, count)?;
    for (_, standard) in names {
        standings.push(Standing::Standard(*standard))?;
    }
    Ok(standings)
}

/// What each name stands for, by its number.
#[derive(Drop)]
pub(crate) struct NameTable {
    standings: Vec<Standing>,
    /// What the names that are declared stood for before, each with its number.
    before: Vec<(u32, Standing)>,
}

impl Model for NameTable {
    ghost use Rattle.symbol_table.specs.Standings.{TableView};

    ghost Value = { TableView };

    ghost use Rattle.symbol_table.specs.Standings.{table_view, IsTable};

    ghost view = { λ t. table_view t.standings.items t.before.items };

    ghost invariant = { λ t. IsTable t.standings.items t.before.items };
}

impl NameTable {
    /// So many names, of which those of every deck stand for what they are, and the others for nothing.
    pub fn new(alloc: Global, count: usize) -> Result<NameTable, AllocError>
        ensures { IfOk result (λ t. t ≡ record { names = every_name; count = max standard_count count }) }
    {
        let mut standings = standard_standings(alloc, &STANDARD, count)?;
        while standings.len() < count {
            standings.push(Standing::Unknown)?;
        }
        Ok(NameTable {
            standings,
            before: Vec::new(alloc),
        })
    }

    /// What a name stands for.
    pub fn standing(&self, name: u32) -> Standing
        ensures { result ≡ standing_of self.now.names name }
    {
        match self.standings.get(name as usize) {
            Some(standing) => *standing,
            None => Standing::Unknown,
        }
    }

    /// Declares a name.
    pub fn declare(&mut self, name: u32, standing: Standing) -> Result<(), AllocError>
        requires { name < self.old.count }
        ensures added { OnOk result (self.new ≡ record self.old { names = (name, standing) ∷ self.old.names }) }
        ensures unchanged { OnErr result (self.new ≡ self.old) }
    {
        let before = self.standing(name);
        self.before.push((name, before))?;
        self.standings[name as usize] = standing;
        Ok(())
    }

    /// How many are declared, those of every deck among them.
    pub fn declared(&self) -> usize
        ensures all { result ≡ length self.now.names }
        ensures standard { standard_count ≤ result }
    {
        self.before.len() + STANDARD.len()
    }

    /// Takes back all but the first so many that are declared.
    pub fn take_back(&mut self, declared: usize)
        requires { standard_count ≤ declared }
        ensures { self.new ≡ record self.old { names = drop (length self.old.names - declared) self.old.names } }
    {
        while self.declared() > declared {
            self.take_one_back();
        }
    }

    /// Takes the newest declaration back, where it isn't one of every deck.
    fn take_one_back(&mut self)
        requires { standard_count < length self.old.names }
        ensures { self.new ≡ record self.old { names = drop 1 self.old.names } }
    {
        if let Some((name, before)) = self.before.pop() {
            self.standings[name as usize] = before;
        }
    }
}
