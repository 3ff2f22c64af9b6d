//! Laws of the definitions.
//!
//! They say what each list's items are and which fault is its first by the groups, apart from how these are read.

ghost use Rattle.s57_subfields.specs.Groups.{ItemsAreGroups, FaultIsFirst};
ghost use Rattle.s57_fields.specs.Items.{attribute_of, attribute_faults, vector_pointer_of};
ghost use Rattle.s57_fields.specs.Items.{vector_pointer_faults, feature_pointer_of, feature_pointer_faults};
ghost use Rattle.s57_fields.specs.Items.{coordinate_of, coordinate_faults, sounding_of};
ghost use Rattle.s57_fields.specs.Items.{sounding_faults, related_of, related_faults};
ghost use Rattle.s57_fields.specs.Attributes.{attribute_row, attributes_in};
ghost use Rattle.s57_fields.specs.Coordinates.{sg2d_row, sg3d_row, coordinates_in};
ghost use Rattle.s57_fields.specs.Ffpt.{ffpt_row, related_in};
ghost use Rattle.s57_fields.specs.Pointers.{fspt_row, vrpt_row, pointers_in};

/// A list has as many items as the fields have groups, and each item is what the group in its place is read as.
pub fn items_are_groups()
    ensures attributes { ItemsAreGroups attribute_of (λ layout. attributes_in (attribute_row layout)) }
    ensures vector_pointers { ItemsAreGroups vector_pointer_of (λ layout. pointers_in (vrpt_row layout)) }
    ensures feature_pointers { ItemsAreGroups feature_pointer_of (λ layout. pointers_in (fspt_row layout)) }
    ensures coordinates { ItemsAreGroups coordinate_of (λ layout. coordinates_in (sg2d_row layout)) }
    ensures soundings { ItemsAreGroups sounding_of (λ layout. coordinates_in (sg3d_row layout)) }
    ensures related { ItemsAreGroups related_of (λ layout. related_in (ffpt_row layout)) }
{}

/// A list that isn't read has the fault of the first label of its row that has one: the label isn't in the
/// repeated group, or a group's value under it isn't what it has to be.
pub fn faults_are_the_first()
    ensures attributes { FaultIsFirst attribute_faults (λ layout. attributes_in (attribute_row layout)) }
    ensures vector_pointers { FaultIsFirst vector_pointer_faults (λ layout. pointers_in (vrpt_row layout)) }
    ensures feature_pointers { FaultIsFirst feature_pointer_faults (λ layout. pointers_in (fspt_row layout)) }
    ensures coordinates { FaultIsFirst coordinate_faults (λ layout. coordinates_in (sg2d_row layout)) }
    ensures soundings { FaultIsFirst sounding_faults (λ layout. coordinates_in (sg3d_row layout)) }
    ensures related { FaultIsFirst related_faults (λ layout. related_in (ffpt_row layout)) }
{}
