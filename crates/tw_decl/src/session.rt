//! The session: what was declared.
ghost use Rattle.std.specs.Prelude.{◌≡◌};

use crate::operators::set_rows;
use crate::parameters::Parameters;
use crate::world_rows::{rows_of, take_out};
use std::alloc::{AllocError, Global};
use std::marker::Model;
use tw_clause::{Block, Mark3, WorldRows, Worlds};
use tw_fixity::{Fix, FixTable};
use tw_mode::ModeTable;
use tw_parse::ExtName;
use tw_print::{Names, Preference};
use tw_signature::{Entry, Signature};
use tw_terms::ConstId;

/// What was declared so far. Its signature is canonical LF at all times. Contracts see it as a view, in which no configuration was read: what reads one isn't
/// built yet.
#[derive(Drop)]
pub struct Session {
    signature: Signature,
    fixities: FixTable,
    names: Names,
    modes: ModeTable,
    blocks: Vec<Block>,
    worlds: WorldRows,
    parameters: Parameters,
}

impl Model for Session {
    ghost use Rattle.std.specs.Prelude.{[], map};
    ghost use Rattle.tw_clause.specs.Tables.{world_rows_of};
    ghost use Rattle.tw_clause.specs.View.{block_of};
    ghost use Rattle.tw_decl.specs.View.{View, IsSound};
    ghost use Rattle.tw_decl.specs.ViewCode.{view_code};

    ghost Value = { View };

    ghost coded = { view_code };

    ghost view = { λ s. record { signature = s.signature; fixities = s.fixities; names = s.names; checked = record { modes = s.modes; blocks = map block_of s.blocks.items; worlds = world_rows_of s.worlds }; parameters = s.parameters; config = [] } };

    ghost invariant = { λ s. IsSound (record { signature = s.signature; fixities = s.fixities; names = s.names; checked = record { modes = s.modes; blocks = map block_of s.blocks.items; worlds = world_rows_of s.worlds }; parameters = s.parameters; config = [] }) };
}

impl Session {
    ghost use Rattle.std.specs.Prelude.{◌≡◌, IfOk, OnOk, OnErr};
    ghost use Rattle.lf.specs.Entries.{signature_of, IsCanonicalEntry};
    ghost use Rattle.tw_signature.specs.View.{entry_of};
    ghost use Rattle.std.specs.FinMap as map;
    ghost use Rattle.tw_print.specs.View.{preferences_of};
    ghost use Rattle.tw_decl.specs.Operators.{with_rows};
    ghost use Rattle.std.specs.Prelude.{map as each};
    ghost use Rattle.lf.specs.Subordination.{IsTypedBlock};
    ghost use Rattle.tw_clause.specs.Tables.{world_rows_of};
    ghost use Rattle.tw_clause.specs.View.{block_of, mark_of, worlds_of};
    ghost use Rattle.tw_decl.specs.View.{empty_view, reset_view, with_chatter, with_implicit, with_steps, with_entry, with_mode, with_block, with_worlds, AreAmong, IsSound};

    /// A session that knows nothing. Fails only for want of memory.
    pub fn new(alloc: Global) -> Result<Session, AllocError>
        ensures { IfOk result (λ s. s ≡ empty_view) }
    {
        Ok(Session {
            signature: Signature::new(alloc),
            fixities: FixTable::new(alloc),
            names: Names::new(alloc),
            modes: ModeTable::new(alloc),
            blocks: Vec::new(alloc),
            worlds: WorldRows {
                rows: Vec::new(alloc),
            },
            parameters: Parameters {
                chatter: 3,
                implicit: false,
                steps: 1_000_000,
            },
        })
    }

    /// The entries.
    pub fn signature(&self) -> &Signature
        ensures { result.now ≡ self.now.signature }
    {
        &self.signature
    }

    /// The operators.
    pub fn fixities(&self) -> &FixTable
        ensures { result.now ≡ self.now.fixities }
    {
        &self.fixities
    }

    /// The names that variables are shown by.
    pub fn names(&self) -> &Names
        ensures { result.now ≡ self.now.names }
    {
        &self.names
    }

    /// The marks of families.
    pub fn modes(&self) -> &ModeTable
        ensures { result.now ≡ self.now.checked.modes }
    {
        &self.modes
    }

    /// The blocks, the oldest first. A label names its newest.
    pub fn blocks(&self) -> &[Block]
        ensures { each block_of result.now ≡ self.now.checked.blocks }
    {
        &self.blocks
    }

    /// The worlds of families. The first row of a family counts.
    pub fn worlds(&self) -> &WorldRows
        ensures { world_rows_of result.now ≡ self.now.checked.worlds }
    {
        &self.worlds
    }

    /// What the user has set.
    pub fn parameters(&self) -> Parameters
        ensures { result ≡ self.now.parameters }
    {
        self.parameters
    }

    /// Sets how much is told, from 0 to 6.
    pub fn set_chatter(&mut self, chatter: u8)
        ensures { self.new ≡ with_chatter self.old chatter }
    {
        self.signature.is_canonical();
        self.parameters.chatter = chatter;
    }

    /// Sets whether implicit arguments are shown.
    pub fn set_implicit(&mut self, implicit: bool)
        ensures { self.new ≡ with_implicit self.old implicit }
    {
        self.signature.is_canonical();
        self.parameters.implicit = implicit;
    }

    /// Sets the budget of a search.
    pub fn set_steps(&mut self, steps: u64)
        ensures { self.new ≡ with_steps self.old steps }
    {
        self.signature.is_canonical();
        self.parameters.steps = steps;
    }

    /// Forgets all declarations, operators, preferences, modes, blocks and worlds. What the user has set stays, and so does the configuration.
    pub fn reset(&mut self, alloc: Global)
        ensures { self.new ≡ reset_view self.old }
    {
        self.signature = Signature::new(alloc);
        self.fixities = FixTable::new(alloc);
        self.names = Names::new(alloc);
        self.modes = ModeTable::new(alloc);
        self.blocks = Vec::new(alloc);
        self.worlds = WorldRows {
            rows: Vec::new(alloc),
        };
    }

    /// The signature is canonical LF, blocks are typed, and those of each row of worlds are among those declared. A law: it has no code.
    pub fn is_sound(&self)
        ensures { IsSound self.now }
    {
        self.signature.is_canonical();
    }

    // Keeps an entry in front of the others, and takes its name from the operators. Without memory nothing has changed.
    pub(crate) fn keep(&mut self, alloc: Global, entry: Entry) -> Result<(), AllocError>
        requires { IsCanonicalEntry (signature_of self.old.signature) (entry_of entry) }
        ensures kept { OnOk result (self.new ≡ with_entry self.old (entry_of entry)) }
        ensures unchanged { OnErr result (self.new ≡ self.old) }
    {
        let name = entry.name.copy(alloc)?;
        self.signature.add(entry)?;
        self.signature.is_canonical();
        self.fixities.remove(&name);
        Ok(())
    }

    // Gives each name the row of an operator. Without memory nothing has changed.
    pub(crate) fn give_rows(
        &mut self,
        alloc: Global,
        fix: Fix,
        names: &[ExtName],
    ) -> Result<(), AllocError>
        ensures given { OnOk result (self.new ≡ record self.old { fixities = with_rows self.old.fixities fix names.now }) }
        ensures unchanged { OnErr result (self.new ≡ self.old) }
    {
        set_rows(alloc, &mut self.fixities, fix, names)
    }

    // Gives a family its preferred names, in place of those that it had. Without memory nothing has changed.
    pub(crate) fn prefer(
        &mut self,
        family: ConstId,
        preference: Preference,
    ) -> Result<(), AllocError>
        ensures preferred { OnOk result (self.new ≡ record self.old { names = map.insert self.old.names family.0 (preferences_of preference) }) }
        ensures unchanged { OnErr result (self.new ≡ self.old) }
    {
        self.names.set(family, preference)
    }

    // Gives a family these marks, in place of those that it had. Without memory nothing has changed.
    pub(crate) fn set_mode(&mut self, family: ConstId, marks: Vec<Mark3>) -> Result<(), AllocError>
        ensures set { OnOk result (self.new ≡ with_mode self.old family.0 (each mark_of marks.items)) }
        ensures unchanged { OnErr result (self.new ≡ self.old) }
    {
        self.modes.set(family, marks)
    }

    // Adds a block. Without memory nothing has changed.
    pub(crate) fn add_block(&mut self, block: Block) -> Result<(), AllocError>
        requires { IsTypedBlock (signature_of self.old.signature) (block_of block) }
        ensures added { OnOk result (self.new ≡ with_block self.old (block_of block)) }
        ensures unchanged { OnErr result (self.new ≡ self.old) }
    {
        self.blocks.push(block)?;
        Ok(())
    }

    // Gives each of the families these worlds, in place of those that it had. Without memory nothing has changed.
    pub(crate) fn set_worlds(
        &mut self,
        alloc: Global,
        families: &[ConstId],
        worlds: &Worlds,
    ) -> Result<(), AllocError>
        requires { AreAmong self.old.checked.blocks (worlds_of worlds.now) }
        ensures set { OnOk result (self.new ≡ with_worlds self.old (each (λ f. f.0) families.now) (worlds_of worlds.now)) }
        ensures unchanged { OnErr result (self.new ≡ self.old) }
    {
        let mut rows = rows_of(alloc, families, worlds)?;
        let count = rows.len();
        rows.append(&mut self.worlds.rows)?;
        take_out(&mut rows, count, families);
        self.worlds = WorldRows { rows };
        Ok(())
    }
}
