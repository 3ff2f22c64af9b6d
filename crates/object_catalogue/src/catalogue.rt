//! A catalogue.
//!
//! Classes and attributes are numbered apart: one code or acronym may stand in both lists.

ghost use Rattle.std.specs.Prelude.{◌≡◌, ◌||◌, false, IfOk};
ghost use Rattle.object_catalogue.specs.Codes.{empty_catalogue, has_code, has_acronym, stands_in, code_in, with_entry};

use crate::acronym::Acronym;
use crate::code_list::CodeList;
use crate::entry::{Entry, Kind};
use std::alloc::{AllocError, Global};
use std::marker::Model;

/// The codes and acronyms of object classes and of attributes. Contracts see two lists of pairs of code and acronym,
/// each in the order of its lines.
#[derive(Drop)]
pub struct Catalogue {
    classes: CodeList,
    attributes: CodeList,
}

impl Model for Catalogue {
    ghost use Rattle.object_catalogue.specs.Codes.{CatalogueValue};

    ghost Value = { CatalogueValue };

    ghost view = { λ catalogue. record { classes = catalogue.classes; attributes = catalogue.attributes } };
}

/// Whether the code or the acronym is in a list.
fn has_either(list: &CodeList, entry: &Entry) -> bool
    ensures { result ≡ (has_code list.now entry.now.code || has_acronym list.now entry.now.acronym) }
{
    list.has_code(entry.code) || list.has_acronym(&entry.acronym)
}

impl Catalogue {
    /// A catalogue without an entry. It takes no memory.
    pub(crate) fn new(alloc: Global) -> Catalogue
        ensures { result ≡ empty_catalogue }
    {
        Catalogue {
            classes: CodeList::new(alloc),
            attributes: CodeList::new(alloc),
        }
    }

    /// Whether the code or the acronym of an entry stands among those of its kind.
    pub(crate) fn has(&self, entry: &Entry) -> bool
        ensures { result ≡ stands_in self.now entry.now }
    {
        match entry.kind {
            Kind::Class => has_either(&self.classes, entry),
            Kind::Attribute => has_either(&self.attributes, entry),
        }
    }

    /// The catalogue with an entry behind the others of its kind.
    pub(crate) fn with(self, entry: Entry) -> Result<Catalogue, AllocError>
        requires { stands_in self entry ≡ false }
        ensures { IfOk result (λ catalogue. catalogue ≡ with_entry self entry) }
    {
        let Catalogue {
            classes,
            attributes,
        } = self;
        match entry.kind {
            Kind::Class => Ok(Catalogue {
                classes: classes.with(entry.code, entry.acronym)?,
                attributes,
            }),
            Kind::Attribute => Ok(Catalogue {
                classes,
                attributes: attributes.with(entry.code, entry.acronym)?,
            }),
        }
    }

    /// The code of the object class with an acronym. It takes no memory.
    pub fn class_code(&self, acronym: &Acronym) -> Option<u16>
        ensures { result ≡ code_in self.now.classes acronym.now }
    {
        self.classes.code_of(acronym)
    }

    /// The code of the attribute with an acronym. It takes no memory.
    pub fn attribute_code(&self, acronym: &Acronym) -> Option<u16>
        ensures { result ≡ code_in self.now.attributes acronym.now }
    {
        self.attributes.code_of(acronym)
    }
}
