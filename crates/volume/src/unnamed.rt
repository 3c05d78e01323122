// A volume for which no hash is named.
use crate::volume::Volume;
use device::device::Device;
use digest::hash::Hash;
use digest::siphash::SipHash;

impl<D: Device, T: Device> Volume<D, T, SipHash> {
    ghost use Rattle.std.specs.Prelude.{◌≡◌};
    ghost use Rattle.digest.specs.SipHash.{sip_cell};
    ghost use Rattle.volume.specs.View.{IsMade};

    // A closed volume under the hash of kind 2 with this key.
    pub fn keyed(store: D, tree: T, key: [u8; 16], number: u32) -> Volume<D, T, SipHash>
        ensures made { IsMade result store tree result.hash number }
        ensures kind { ⟦<SipHash as Hash>⟧.KIND ≡ 2 }
        ensures image { ⟦<SipHash as Hash>⟧.image result.hash ≡ sip_cell key }
    {
        Volume::new(store, tree, SipHash::new(key), number)
    }
}
