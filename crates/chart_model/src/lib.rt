//! The plain values that the chart kernel speaks of.
//!
//! Almost every crate stands on this one, so that two crates can speak of a value without standing on each other.
//! Contracts see its types as lists, finite maps and records of these, whatever memory they share or have left.
#![tactic(auto)]

mod attr_map;
mod cell;
pub mod codes;
mod command;
mod dataset;
mod drawing;
mod key;
mod key_map;
mod name;
mod name_iter;
mod name_map;
mod octets;
mod page;
mod page_edits;
mod page_map;
mod record;
mod sequence;
mod settings;
mod shared;
mod short;
mod state;
mod update_record;

pub use attr_map::{AttrMap, MOST_SET_IN_PLACE};
pub use cell::{Cell, Feature, FeatureMap, Vector, VectorMap};
pub use command::Command;
pub use dataset::{ChangeList, Dataset, Header};
pub use drawing::{Block, Geom, Item, ItemList, PanelKey, Target};
pub use key::{Key, keys_are_tested};
pub use key_map::KeyMap;
pub use name::{Foid, Name, NameList};
pub use name_iter::NameIter;
pub use name_map::{Edit, NameMap};
pub use octets::Octets;
pub use record::{Attr, AttrList, Coord, Coords, Pointer, Pointers, Related, RelatedList};
pub use sequence::Sequence;
pub use settings::{Settings, Shades};
pub use shared::Shared;
pub use state::{FileList, Held, Holding, HoldingMap, State};
pub use update_record::{Control, UpdateRecord};
