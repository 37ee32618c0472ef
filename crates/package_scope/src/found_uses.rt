//! What uses find, by their tokens.

ghost use Rattle.std.specs.Prelude.{◌≡◌, ℕ, IfOk, OnOk};
ghost use Rattle.package_scope.specs.Finding.{found_in, put_found, found_at};

use crate::name_table::NameTable;
use crate::table::{Found, Use};
use indexmap::IndexMap;
use std::alloc::{AllocError, Global};
use sv_source::Token;

/// What the first use at each token finds.
#[derive(Drop)]
pub struct FoundUses {
    found: IndexMap<u32, Found>,
}

impl FoundUses {
    /// None. It takes no memory.
    fn new(alloc: Global) -> FoundUses
        ensures { found_in result ≡ (λ q. None) }
    {
        FoundUses {
            found: IndexMap::new(alloc),
        }
    }

    /// What the use at a token finds, whatever was there before.
    fn put(&mut self, token: u32, found: Found) -> Result<(), AllocError>
        ensures { OnOk result (found_in self.new ≡ put_found (found_in self.old) token found) }
    {
        self.found.insert(token, found)?;
        Ok(())
    }

    /// What the use at a token finds, if there is one.
    pub fn at(&self, token: u32) -> Option<Found>
        ensures { result ≡ found_in self.now token }
    {
        self.found.get(&token).copied()
    }
}

/// What uses of names of a table find.
pub fn found_uses(
    alloc: Global,
    tokens: &[Token],
    names: &NameTable,
    uses: &[Use],
) -> Result<FoundUses, AllocError>
    ensures { IfOk result (λ x. (q : ℕ) → found_in x q ≡ found_at tokens.now names.now uses.now q) }
{
    let mut found = FoundUses::new(alloc);
    let mut at = uses.len();
    while at > 0 {
        at -= 1;
        let last = uses[at];
        found.put(last.at, names.finds(tokens, last))?;
    }
    Ok(found)
}
