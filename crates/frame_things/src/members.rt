//! At which places of a list signals stand, by their declarations and the names of members.

ghost use Rattle.std.specs.Prelude.{◌≡◌, ℕ, List, None, IfOk, OnOk};
ghost use Rattle.frame_things.specs.Members as means;

use indexmap::{IndexMap, IndexSet};
use std::alloc::{AllocError, Global};
use sv_source::Text;
use sv_types::SignalId;

/// Names of members, each with a number of its own.
pub struct MemberNames {
    names: IndexSet<Text>,
}

impl Drop for MemberNames {
    fn drop(self) {
        let MemberNames { names: _ } = self;
    }
}

impl MemberNames {
    /// No names. It takes no memory.
    fn new(alloc: Global) -> MemberNames {
        MemberNames {
            names: IndexSet::new(alloc),
        }
    }

    /// Gives a name a number, if it has none.
    fn add(&mut self, alloc: Global, name: &Text) -> Result<(), AllocError> {
        if self.names.get_index_of(name).is_none() {
            self.names.insert(name.copy(alloc)?)?;
        }
        Ok(())
    }

    /// The number of a name, if it has one.
    fn number(&self, name: &Text) -> Option<usize>
        ensures { result ≡ means.number_in self.now name.now }
    {
        self.names.get_index_of(name)
    }
}

/// Places by a declaration and the number of a name.
pub struct Slots {
    slots: IndexMap<(u32, usize), usize>,
}

impl Drop for Slots {
    fn drop(self) {
        let Slots { slots: _ } = self;
    }
}

impl Slots {
    /// No places. It takes no memory.
    fn new(alloc: Global) -> Slots
        ensures { means.slots_in result ≡ (λ q. None) }
    {
        Slots {
            slots: IndexMap::new(alloc),
        }
    }

    /// The place under a name of a declaration, whatever was there before.
    fn put(&mut self, decl: u32, name: usize, place: usize) -> Result<(), AllocError>
        ensures { OnOk result (means.slots_in self.new ≡ means.put_slot (means.slots_in self.old) decl name place) }
    {
        self.slots.insert((decl, name), place)?;
        Ok(())
    }

    /// The place under a name of a declaration.
    fn find(&self, decl: u32, name: usize) -> Option<usize>
        ensures { result ≡ means.slots_in self.now (decl, name) }
    {
        self.slots.get(&(decl, name)).copied()
    }
}

/// At which place of a list the first signal with each declaration and each member's name stands.
#[derive(Drop)]
pub struct Members {
    /// The names.
    pub names: MemberNames,
    /// The places.
    pub slots: Slots,
}

impl Members {
    /// The place of a member, or by the empty name that of a whole signal.
    pub fn of(&self, decl: u32, name: &Text) -> Option<usize>
        ensures { result ≡ means.members_in self.now decl name.now }
    {
        match self.names.number(name) {
            None => None,
            Some(number) => self.slots.find(decl, number),
        }
    }
}

/// The names of members.
fn names_of(alloc: Global, list: &[SignalId]) -> Result<MemberNames, AllocError> {
    let mut names = MemberNames::new(alloc);
    for signal in list {
        names.add(alloc, &signal.member)?;
    }
    Ok(names)
}

/// Puts a place under a name that has a number.
fn put(
    names: &MemberNames,
    slots: &mut Slots,
    decl: u32,
    member: &Text,
    place: usize,
) -> Result<(), AllocError>
    ensures { OnOk result (means.puts names.now slots.old slots.new decl member.now place) }
{
    let Some(number) = names.number(member) else {
        return Err(AllocError);
    };
    slots.put(decl, number, place)?;
    Ok(())
}

/// The places of signals under names that have numbers.
fn slots_of(alloc: Global, names: &MemberNames, list: &[SignalId]) -> Result<Slots, AllocError>
    ensures { IfOk result (λ x. (n : ℕ) (name : List ℕ) → means.under names.now x n name ≡ means.member_from 0 n name list.now) }
{
    let mut slots = Slots::new(alloc);
    let mut at = list.len();
    while at > 0 {
        at -= 1;
        put(names, &mut slots, list[at].decl, &list[at].member, at)?;
    }
    Ok(slots)
}

/// At which place of a list the first signal with each declaration and each member's name stands.
pub fn members_of(alloc: Global, list: &[SignalId]) -> Result<Members, AllocError>
    ensures { IfOk result (λ x. (n : ℕ) (name : List ℕ) → means.members_in x n name ≡ means.member_from 0 n name list.now) }
{
    let names = names_of(alloc, list)?;
    let slots = slots_of(alloc, &names, list)?;
    Ok(Members { names, slots })
}
