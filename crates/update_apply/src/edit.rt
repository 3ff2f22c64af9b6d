//! Lists edited by their control fields.
//!
//! A list has room for an edit before it is made, so that no edit stops halfway.

ghost use Rattle.std.specs.Prelude.{◌≡◌, ◌+◌, ◌≤◌, ◌++◌, length, take, drop};
ghost use Rattle.std.specs.Vec.{vec_len, vec_capacity};
ghost use Rattle.update_apply.specs.Edited as spec;

use chart_model::Control;
use chart_model::codes::{DELETE, INSERT};

/// Puts items in between, at a place from 0. It takes no memory.
fn insert_at<T: Copy>(list: &mut Vec<T>, front: usize, given: &[T])
    requires front { front ≤ vec_len list.old }
    requires room { vec_len list.old + length given.now ≤ vec_capacity list.old }
    ensures { list.new.items ≡ take front list.old.items ++ given.now ++ drop front list.old.items }
{
    match list.extend_from_slice(given) {
        Ok(()) => {}
        Err(_) => unreachable!(),
    }
    list.as_mut_slice()[front..].rotate_right(given.len());
}

/// Takes out items from a place on, from 0.
fn take_out<T: Copy>(list: &mut Vec<T>, front: usize, count: usize)
    requires { front + count ≤ vec_len list.old }
    ensures { list.new.items ≡ take front list.old.items ++ drop (front + count) list.old.items }
{
    list.drain(front..front + count);
}

/// Writes items over as many others, from a place on, from 0.
fn replace<T: Copy>(list: &mut Vec<T>, front: usize, given: &[T])
    requires { front + length given.now ≤ vec_len list.old }
    ensures { list.new.items
        ≡ take front list.old.items ++ given.now ++ drop (front + length given.now) list.old.items }
{
    list.as_mut_slice()[front..front + given.len()].copy_from_slice(given);
}

/// Edits a list by a control field. It takes no memory.
fn edit_by<T: Copy>(list: &mut Vec<T>, control: Control, given: &[T])
    requires fits { spec.Fits control given.now list.old.items }
    requires room { control.instruction ≡ INSERT → vec_len list.old + length given.now ≤ vec_capacity list.old }
    ensures { list.new.items ≡ spec.edited_by control given.now list.old.items }
{
    let front = control.index as usize - 1;
    match control.instruction {
        INSERT => insert_at(list, front, given),
        DELETE => take_out(list, front, control.count as usize),
        _ => replace(list, front, given),
    }
}

/// Edits a list that has room for what is added. It takes no memory.
pub fn edit<T: Copy>(list: &mut Vec<T>, edit: Option<Control>, given: &[T])
    requires fits { spec.FitsEach edit given.now list.old.items }
    requires room { vec_len list.old + spec.items_added edit given.now ≤ vec_capacity list.old }
    ensures { list.new.items ≡ spec.list_after edit given.now list.old.items }
{
    if let Some(control) = edit {
        edit_by(list, control, given);
    }
}

/// How many items an edit adds at most.
pub fn items_added<T>(edit: Option<Control>, given: &[T]) -> usize
    ensures { result ≡ spec.items_added edit given.now }
{
    match edit {
        Some(control) if control.instruction == INSERT => given.len(),
        _ => 0,
    }
}
