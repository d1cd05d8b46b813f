ghost use Rattle.std.specs.Prelude.{◌≡◌, ◌+◌, ◌-◌, IfOk};
ghost use Rattle.symbol_table.specs.Heres as heres;

use std::alloc::AllocError;

/// Where code is made.
#[derive(Clone, Copy)]
pub struct Here {
    /// The number of the innermost statement that holds it.
    pub statement: u32,
    /// How deep its text is.
    pub level: u16,
    /// How many entries that text has by then.
    pub entries: u32,
}

/// The number that a count is. Where it has none the answer is want of memory.
pub fn number(count: usize) -> Result<u32, AllocError>
    ensures { IfOk result (λ n. n ≡ count) }
{
    match u32::try_from(count) {
        Ok(number) => Ok(number),
        Err(_) => Err(AllocError),
    }
}

/// A number further on. Where it has none the answer is want of memory.
pub fn further(number: u32, more: u32) -> Result<u32, AllocError>
    ensures { IfOk result (λ n. n ≡ number + more) }
{
    match number.checked_add(more) {
        Some(sum) => Ok(sum),
        None => Err(AllocError),
    }
}

impl Here {
    /// In the statement, where there is one.
    pub fn in_statement(self, statement: Option<u32>) -> Here
        ensures { result ≡ heres.in_statement self statement }
    {
        match statement {
            Some(statement) => Here { statement, ..self },
            None => self,
        }
    }

    /// With so many entries more.
    pub fn with_entries(self, more: u32) -> Result<Here, AllocError>
        ensures { IfOk result (λ here. here ≡ heres.with_entries self more) }
    {
        let entries = further(self.entries, more)?;
        Ok(Here { entries, ..self })
    }

    /// In a text in this one, which begins with its mark and so many entries.
    pub fn inner_text(self, named: u32) -> Result<Here, AllocError>
        ensures { IfOk result (λ here. here ≡ heres.inner_text self named) }
    {
        let Some(level) = self.level.checked_add(1) else {
            return Err(AllocError);
        };
        let entries = further(named, 1)?;
        Ok(Here {
            statement: self.statement,
            level,
            entries,
        })
    }

    /// How many links out a text is that is so deep.
    pub fn links(self, level: u16) -> u16
        ensures { result ≡ self.level - level }
    {
        self.level.saturating_sub(level)
    }
}
