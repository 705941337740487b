//! The macros of a drawing by their names, and what else its bodies are expanded with.

ghost use Rattle.std.specs.Prelude.{◌≡◌, IfOk, option_map};
ghost use Rattle.std.specs.Option.{option_copied};
ghost use Rattle.drawing_tree.specs.Tree.{macro_of};
ghost use Rattle.macro_expander.specs.Macros.{macro_of as first_called};
ghost use Rattle.macro_expander.specs.Library.{LeadToMacros, HoldsMacros, macros_in};

use crate::places::{Called, named, places};
use drawing_tree::{Env, MacroDef, MacroDefs};
use indexmap::IndexMap;
use scald_base::NoMemory;
use std::alloc::Global;

/// The macros of a drawing, to be found by their names, and what else its bodies are expanded with.
#[derive(Drop)]
pub struct Library<'a> {
    /// The version of the drawing's language.
    pub version: u8,
    /// The ticks of its period.
    pub ticks: u16,
    /// Its constants with their values.
    pub consts: Env,
    /// Its macros, in the order of the text.
    pub macros: &'a MacroDefs,
    /// The place of each name's first macro, if there are many.
    pub places: IndexMap<Vec<u8>, usize>,
}

impl Called for MacroDef {
    ghost name = { λ m. m.name };

    fn name(&self) -> &[u8] {
        self.name.as_slice()
    }
}

impl<'a> Library<'a> {
    /// The library of these macros, in a drawing of this version, with a period of so many ticks
    /// and these constants. `NoMemory` comes if memory runs out.
    pub fn of(
        alloc: Global,
        version: u8,
        ticks: u16,
        consts: Env,
        macros: &'a MacroDefs,
    ) -> Result<Library<'a>, NoMemory>
        ensures { IfOk result (HoldsMacros version ticks consts macros.now) }
    {
        let places = places(alloc, macros.as_slice())?;
        Ok(Library {
            version,
            ticks,
            consts,
            macros,
            places,
        })
    }

    /// The first macro of a name.
    pub fn find(&self, name: &[u8]) -> Option<&'a MacroDef>
        requires { LeadToMacros self.now }
        ensures { option_map macro_of (option_copied result)
            ≡ first_called name.now (macros_in self.now) }
    {
        named(&self.places, self.macros.as_slice(), name)
    }
}
