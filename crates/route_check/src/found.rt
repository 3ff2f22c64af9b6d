//! What is kept of a chart while it is asked.
//!
//! Asks for one feature stand one after the other, so the objects of one feature are enough to keep. The depth areas
//! stay for the whole chart, since any of its hazards may ask them.

use crate::chart_objects::{Sources, push_named};
use crate::object::Object;
use chart_model::Name;
use depth_values::{DepthAreas, Effort};
use std::alloc::{AllocError, Global};

/// The dangerous objects of the feature that was asked last, and the chart's depth areas, once a hazard asked them.
#[derive(Debug, Drop)]
pub(crate) struct Found {
    name: Option<Name>,
    objects: Vec<Object>,
    areas: Option<DepthAreas>,
}

impl Found {
    ghost use Rattle.std.specs.Prelude.{◌≡◌, Some, true, OnOk};
    ghost use Rattle.route_check.specs.Found.{IsOf};

    /// Nothing, before the first ask. It takes no memory.
    pub(crate) fn new(alloc: Global, from: &Sources) -> Found
        ensures { IsOf from.now.settings.now from.now.key from.now.cell.now result }
    {
        Found {
            name: None,
            objects: Vec::new(alloc),
            areas: None,
        }
    }

    /// Whether the feature of the name was asked last.
    fn is_at(&self, name: Name) -> bool
        ensures { result ≡ true → self.now.name ≡ Some name }
    {
        match self.name {
            Some(last) => last == name,
            None => false,
        }
    }

    /// Turns to the feature of a name: its objects are made, unless it was asked last.
    pub(crate) fn turn_to(
        &mut self,
        alloc: Global,
        effort: &mut Effort,
        from: &Sources,
        name: Name,
    ) -> Result<(), AllocError>
        requires { IsOf from.now.settings.now from.now.key from.now.cell.now self.old }
        ensures kept { OnOk result (IsOf from.now.settings.now from.now.key from.now.cell.now self.new) }
        ensures turned { OnOk result (self.new.name ≡ Some name) }
    {
        if self.is_at(name) {
            return Ok(());
        }
        self.objects.clear();
        push_named(
            alloc,
            effort,
            &mut self.objects,
            &mut self.areas,
            from,
            name,
        )?;
        self.name = Some(name);
        Ok(())
    }

    /// The objects of that feature.
    pub(crate) fn objects(&self) -> &[Object]
        ensures { result.now ≡ self.now.objects.items }
    {
        self.objects.as_slice()
    }
}
