//! What a table has beside its vault, and the checks of the calls that change it. Of the vault they are told no more than how many keys it has
//! room for.
#![tactic(auto)]

ghost use Rattle.std.specs.Prelude.{◌≡◌, [], ◌∷◌};
ghost use Rattle.vault.specs.Checks.{answer, first_of};
ghost use Rattle.vault.specs.Kinds.{nothing};
ghost use Rattle.rules.specs.declared.cause.Cause.TheVariants.{SerialsRunOut};
ghost use Rattle.rules.specs.Drive.{refused_by, run_out};
ghost use Rattle.layout.specs.View.{drive};

pub mod assigning;
pub mod commands;
pub mod methods;

use layout::content::Layout;
use rules::cause::Cause;
use rules::numbering::Numbering;
use std::marker::PhantomData;

/// What a table has beside its vault.
#[derive(Drop)]
pub struct Content<N: Numbering> {
    pub layout: Layout,
    // A closed table is no other type: it answers every call too, and its rows and units are looked at.
    pub closed: bool,
    pub numbering: PhantomData<N>,
}

// A contract speaks of the drive that this is beside no vault, or beside one of which no more is known than the room it has, as no check here
// asks more. None of the definitions does either, so it says the same of the table's own drive.
impl<N: Numbering> Content<N> {
    /// The first check of every call.
    pub fn check_open(&self) -> Result<(), Cause>
        ensures { result ≡ answer (refused_by (drive self.now.layout self.now.closed N.BOUNDS nothing) []) tt }
    {
        if self.closed {
            return Err(Cause::Closed);
        }
        Ok(())
    }

    /// Whether so many serials more can be given out.
    pub fn check_serials(&self, wanted: usize) -> Result<(), Cause>
        ensures { result ≡ answer (first_of ((run_out wanted (drive self.now.layout self.now.closed N.BOUNDS nothing), SerialsRunOut) ∷ [])) tt }
    {
        if wanted > (u32::MAX - self.layout.next) as usize {
            return Err(Cause::SerialsRunOut);
        }
        Ok(())
    }
}
