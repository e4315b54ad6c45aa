//! Names of signals and senders.
ghost use Rattle.std.specs.Prelude.{◌≡◌, List, ℕ, MatchResult, IfOk, IsErrOf, IsTrue, ◌↔◌};
ghost use Rattle.pack_model.specs.Name.{IsName, is_name_byte, is_name};
ghost use Rattle.std.specs.List.{list_all};
ghost use Rattle.pack_model.specs.declared.name.NameFault.TheVariants.{BadName, Memory};

use std::alloc::{AllocError, Global};
use std::hash::{Hash, Hasher};
use std::marker::Model;
use thiserror::Error;

/// A name of a signal or a sender: 1 to 64 bytes, each a printing ASCII byte from 0x21 to 0x7E that
/// is neither a comma nor a double quote.
#[derive(Debug, Drop)]
pub struct Name {
    bytes: Vec<u8>,
}

impl Model for Name {
    ghost Value = { List ℕ };

    ghost view = { λ a. a.bytes.items };

    ghost invariant = { λ a. IsName a.bytes.items };
}

impl PartialEq for Name {
    ghost use Rattle.std.specs.Str.{bytes_eq};
    ghost use Rattle.std.specs.Cmp.{partial_equiv_from_equiv};
    ghost use Rattle.std.specs.Cmp.Lexicographic.{nat_list_eq_equiv};

    ghost eq = { bytes_eq };

    ghost laws = { partial_equiv_from_equiv nat_list_eq_equiv };

    fn eq(&self, other: &Name) -> bool {
        self.bytes.as_slice() == other.bytes.as_slice()
    }
}

impl Eq for Name {
    ghost use Rattle.std.specs.Cmp.Lexicographic.{nat_list_eq_equiv};

    ghost laws = { nat_list_eq_equiv };
}

impl Hash for Name {
    ghost use Rattle.std.specs.Hash as fed;
    ghost use Rattle.std.specs.Hash.{same_Alike};
    ghost use Rattle.std.specs.Cmp.Lexicographic.{bytes_decides};

    ghost hash_input = { fed.slice fed.u8 };

    ghost respects_eq = { (same_Alike (fed.slice fed.u8) bytes_decides).fed };

    fn hash<H: Hasher>(&self, state: &mut H) {
        self.bytes.as_slice().hash(state);
    }
}

impl Clone for Name {
    ghost is_clone = { λ name copy. copy ≡ name };

    fn clone(&self) -> Result<Name, AllocError> {
        let bytes = self.bytes.clone()?;
        Ok(Name { bytes })
    }
}

/// Why bytes are no [`Name`].
#[derive(Clone, Copy, Debug, PartialEq, Eq, Drop, Error)]
pub enum NameFault {
    /// They break the rule of names.
    #[error("not a name")]
    BadName,
    /// Memory ran out.
    #[error("out of memory")]
    Memory,
}

impl From<AllocError> for NameFault {
    ghost from_gives = { λ _ e. e ≡ Memory };

    fn from(_e: AllocError) -> NameFault {
        NameFault::Memory
    }
}

impl Name {
    /// The name that the bytes spell.
    pub fn new(alloc: Global, bytes: &[u8]) -> Result<Name, NameFault>
        ensures name { IfOk result (λ name. (name ≡ bytes.now) × IsName bytes.now) }
        ensures bad_name { IsErrOf result NameFault.BadName ↔ ¬ IsName bytes.now }
    {
        if !spells_name(bytes) {
            return Err(NameFault::BadName);
        }
        let bytes = bytes.to_vec(alloc)?;
        Ok(Name { bytes })
    }

    /// The bytes of the name.
    pub fn bytes(&self) -> &[u8]
        ensures bytes { result.now ≡ self.now }
        ensures name { IsName result.now }
    {
        self.bytes.as_slice()
    }
}

fn spells_name(bytes: &[u8]) -> bool
    ensures { result ≡ is_name bytes.now }
{
    (1..=64).contains(&bytes.len()) && are_name_bytes(bytes)
}

fn are_name_bytes(bytes: &[u8]) -> bool
    ensures { result ≡ list_all is_name_byte bytes.now }
{
    bytes.iter().all(|b| is_printing(*b))
}

fn is_printing(byte: u8) -> bool
    ensures { result ≡ is_name_byte byte }
{
    (0x21..=0x7e).contains(&byte) && byte != b',' && byte != b'"'
}
