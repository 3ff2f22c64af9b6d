//! Codes and acronyms in the order of their lines, found by either.
//!
//! Tables are read by acronym and S-57 speaks in codes, so both ways are kept; their order stays for contracts to see.

ghost use Rattle.std.specs.Prelude.{◌≡◌, ◌++◌, ◌∷◌, [], false, IfOk};
ghost use Rattle.object_catalogue.specs.Codes.{has_code, has_acronym, code_in};

use crate::acronym::Acronym;
use indexmap::IndexMap;
use std::alloc::{AllocError, Global};
use std::marker::Model;

/// The codes and acronyms of one kind, none of them twice. Contracts see the list of their pairs.
#[derive(Drop)]
pub struct CodeList {
    acronyms: IndexMap<u16, Acronym>,
    codes: IndexMap<Acronym, u16>,
}

impl Model for CodeList {
    ghost use Rattle.std.specs.Prelude.{List, ℕ, ◌≡◌};
    ghost use Rattle.object_catalogue.specs.Codes.{by_acronym};

    ghost Value = { List (ℕ × List ℕ) };

    ghost view = { λ list. list.acronyms.entries };

    ghost invariant = { λ list. list.codes.entries ≡ by_acronym list.acronyms.entries };
}

impl CodeList {
    /// A list without an entry. It takes no memory.
    pub fn new(alloc: Global) -> CodeList
        ensures { result ≡ [] }
    {
        CodeList {
            acronyms: IndexMap::new(alloc),
            codes: IndexMap::new(alloc),
        }
    }

    /// Whether the code is there.
    pub fn has_code(&self, code: u16) -> bool
        ensures { result ≡ has_code self.now code }
    {
        self.acronyms.contains_key(&code)
    }

    /// Whether the acronym is there.
    pub fn has_acronym(&self, acronym: &Acronym) -> bool
        ensures { result ≡ has_acronym self.now acronym.now }
    {
        self.codes.contains_key(acronym)
    }

    /// The code of an acronym.
    pub fn code_of(&self, acronym: &Acronym) -> Option<u16>
        ensures { result ≡ code_in self.now acronym.now }
    {
        self.codes.get(acronym).copied()
    }

    /// The list with a code and its acronym behind the others.
    pub fn with(self, code: u16, acronym: Acronym) -> Result<CodeList, AllocError>
        requires code { has_code self code ≡ false }
        requires acronym { has_acronym self acronym ≡ false }
        ensures { IfOk result (λ list. list ≡ self ++ (code, acronym) ∷ []) }
    {
        let CodeList {
            mut acronyms,
            mut codes,
        } = self;
        acronyms.insert(code, acronym)?;
        codes.insert(acronym, code)?;
        Ok(CodeList { acronyms, codes })
    }
}
