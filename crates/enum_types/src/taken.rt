//! The values that the names of an enum have taken.

ghost use Rattle.std.specs.Prelude.{◌≡◌, ◌<◌, ◌++◌, ◌∷◌, ℤ, [], List, None, is_some, IfOk, OnOk};
ghost use Rattle.expr_type.specs.Types.{NameValue, is_taken};
ghost use Rattle.sv_types.specs.declared.types.SvType.{SvType};
ghost use Rattle.sv_types.specs.Layouts.{width_of};
ghost use Rattle.enum_types.specs.Bits.{HasBits};
ghost use Rattle.enum_types.specs.Taken.{Holds, IsValue, character, key, keys_in, with_key};

use b4_core::{Bit4, Vec4};
use indexmap::IndexMap;
use std::alloc::{AllocError, Global};
use sv_source::Text;

/// Which values the names of an enum have taken (E509), by their bits in the base.
#[derive(Drop)]
pub struct Taken {
    keys: IndexMap<Text, u32>,
}

// The character of a bit.
fn character(b: Bit4) -> u8
    ensures { result ≡ character b }
{
    match b {
        Bit4::Zero => b'0',
        Bit4::One => b'1',
        Bit4::X => b'x',
        Bit4::Z => b'z',
    }
}

// The characters of bits.
fn key(alloc: Global, bits: &[Bit4]) -> Result<Text, AllocError>
    ensures { IfOk result (λ k. k ≡ key bits.now) }
{
    let mut made = Text::new(alloc);
    for b in bits {
        made.push(character(*b))?;
    }
    Ok(made)
}

impl Taken {
    fn empty(alloc: Global) -> Taken
        ensures { keys_in result ≡ (λ _. None) }
    {
        Taken {
            keys: IndexMap::new(alloc),
        }
    }

    fn has_key(&self, key: &Text) -> bool
        ensures { result ≡ is_some (keys_in self.now key.now) }
    {
        self.keys.get(key).is_some()
    }

    fn add_key(&mut self, key: Text) -> Result<(), AllocError>
        ensures { OnOk result (keys_in self.new ≡ with_key (keys_in self.old) key) }
    {
        self.keys.insert(key, 0)?;
        Ok(())
    }

    /// No values. It takes no memory.
    #[tactic(auto, using(crate::proofs::Taking::none_held))]
    pub fn new(alloc: Global) -> Taken
        ensures { (t : SvType) → Holds t result [] }
    {
        Taken::empty(alloc)
    }

    /// Whether the value of some bits in the base is taken. Or want of memory.
    #[tactic(auto, using(crate::proofs::Taking::taken_is))]
    pub fn has(&self, alloc: Global, bits: &Vec4) -> Result<bool, AllocError>
        ensures { IfOk result (λ b. (t : SvType) (vs : List NameValue) (n : ℤ) → Holds t self.now vs → IsValue t n → HasBits t bits.now n → b ≡ is_taken vs n) }
    {
        let key = key(alloc, bits.as_slice())?;
        Ok(self.has_key(&key))
    }

    /// Takes the value of some bits in the base, for the name at a token. Or it wants memory, and the table is to be dropped.
    #[tactic(auto, using(crate::proofs::Taking::one_more))]
    pub fn add(&mut self, alloc: Global, bits: &Vec4) -> Result<(), AllocError>
        ensures { OnOk result ((t : SvType) (vs : List NameValue) (v : NameValue) → 0 < width_of t → Holds t self.old vs → IsValue t v.number → HasBits t bits.now v.number → Holds t self.new (vs ++ v ∷ [])) }
    {
        let key = key(alloc, bits.as_slice())?;
        self.add_key(key)?;
        Ok(())
    }
}
