//! The meaning of the errors of names and of leaves in an answer. Each is a value, unless memory could not be allocated.

ghost use Rattle.std.specs.Prelude.{◌≡◌, None, MatchResult};
ghost use Rattle.ct_data_tiles.specs.declared.fault.DataTileFault.TheVariants.{Memory as TileMemory};
ghost use Rattle.ct_data_tiles.specs.declared.tile.NameFault.TheVariants.{NoSuchTile, Memory as NameMemory};
ghost use Rattle.ct_data_tiles.specs.TileAnswers.{IsDamageOf};

use crate::answer::Damage;
use crate::fault::DataTileFault;
use crate::{NameFault, Tile};
use std::alloc::AllocError;

// The meaning of a name that is not read: it is no tile's, unless memory could not be allocated.
#[derive(Drop)]
pub(crate) struct Unnamed {
    pub(crate) tile: Result<Option<Tile>, AllocError>,
}

impl From<NameFault> for Unnamed {
    ghost from_gives = { λ fault unnamed. MatchResult unnamed.tile (λ o. (o ≡ None) × (fault ≡ NoSuchTile)) (λ _. fault ≡ NameMemory) };

    fn from(fault: NameFault) -> Unnamed {
        let tile = match fault {
            NameFault::NoSuchTile => Ok(None),
            NameFault::Memory => Err(AllocError),
        };
        Unnamed { tile }
    }
}

// The meaning of a tile's bytes that are not read: their damage, unless memory could not be allocated.
#[derive(Drop)]
pub(crate) struct Unread {
    pub(crate) damage: Result<Damage, AllocError>,
}

impl From<DataTileFault> for Unread {
    ghost from_gives = { λ fault unread. MatchResult unread.damage (λ d. IsDamageOf fault d) (λ _. fault ≡ TileMemory) };

    fn from(fault: DataTileFault) -> Unread {
        let damage = match fault {
            DataTileFault::AtLeaf(place, fault) => Ok(Damage::AtLeaf(place, fault)),
            DataTileFault::Memory => Err(AllocError),
        };
        Unread { damage }
    }
}
