//! The array descriptor: the labels of a field's subfields.
//!
//! A label is found by its place, so that it may hold any bytes but the unit terminator (0x1F), `!` and `*` too:
//! without a mark there are five bytes a label but for the last, and with one five bytes each.

ghost use Rattle.std.specs.Prelude.{◌≡◌, ◌++◌, ◌∷◌, ◌+◌, ◌*◌, ◌≤◌, List, ℕ, length, take, option_map, IfSome, IfNone};
ghost use Rattle.std.specs.Prelude.{IsSome, is_some, Some, None};
ghost use Rattle.iso8211_formats.specs.Reading.{plain_labels, grouped_labels, labels_of, closed_label};
ghost use Rattle.arrayvec.specs.ArrayVec.{array_vec_len};

use crate::descriptor::LabelList;

/// What follows a label with `!` behind it.
#[tactic(auto, unfolding(crate::specs::Reading::closed_label))]
fn after_label(text: &[u8]) -> Option<&[u8]>
    ensures parts { option_map (λ after. (take 4 text.now, after.now)) result ≡ closed_label text.now }
    ensures shorter { IfSome result (λ after. length after.now + 5 ≡ length text.now) }
{
    match text {
        [_, _, _, _, b'!', after @ ..] => Some(after),
        _ => None,
    }
}

/// The label in front.
fn label_at(text: &[u8]) -> [u8; 4]
    requires { 4 ≤ length text.now }
    ensures { result ≡ take 4 text.now }
{
    [text[0], text[1], text[2], text[3]]
}

/// Whether the text is labels with `!` between them, without a mark.
fn is_plain(text: &[u8]) -> bool
    ensures { result ≡ is_some (plain_labels text.now) }
{
    let mut rest = text;
    while let Some(after) = after_label(rest) {
        rest = after;
    }
    rest.len() == 4
}

/// Adds these labels.
fn push_plain(labels: &mut LabelList, text: &[u8])
    requires plain { IsSome (plain_labels text.now) }
    requires room { 5 * array_vec_len labels.old + length text.now ≤ 320 }
    ensures { option_map (λ more. labels.old.items ++ more) (plain_labels text.now) ≡ Some labels.new.items }
{
    let mut rest = text;
    while let Some(after) = after_label(rest) {
        let label = label_at(rest);
        labels.push(label);
        rest = after;
    }
    let last = label_at(rest);
    labels.push(last);
}

/// The labels of the group, where the text begins with the mark and they follow to its end.
fn group_of(text: &[u8]) -> Option<&[u8]>
    ensures found { IfSome result (λ group.
        (text.now ≡ 42 ∷ group.now) × IsSome (plain_labels group.now)) }
    ensures none { IfNone result ((group : List ℕ) →
        text.now ≡ 42 ∷ group → plain_labels group ≡ None) }
{
    match text {
        [b'*', group @ ..] if is_plain(group) => Some(group),
        _ => None,
    }
}

/// Labels of which one has the mark, and the place of that one.
fn read_grouped(text: &[u8]) -> Option<(LabelList, u32)>
    requires { length text.now ≤ 320 }
    ensures { option_map (λ read. (read.0.items, read.1)) result ≡ grouped_labels 1 text.now }
{
    let mut labels = LabelList::new();
    let mut place = 1;
    let mut rest = text;
    loop {
        if let Some(group) = group_of(rest) {
            push_plain(&mut labels, group);
            return Some((labels, place));
        }
        let Some(after) = after_label(rest) else {
            return None;
        };
        let label = label_at(rest);
        labels.push(label);
        place += 1;
        rest = after;
    }
}

/// The labels of an array descriptor, and the place, from 1, of the label that has the mark.
#[tactic(auto, unfolding(crate::specs::Reading::labels_of))]
pub fn read_labels(text: &[u8]) -> Option<(LabelList, Option<u32>)>
    requires { length text.now ≤ 320 }
    ensures { option_map (λ read. (read.0.items, read.1)) result ≡ labels_of text.now }
{
    if is_plain(text) {
        let mut labels = LabelList::new();
        push_plain(&mut labels, text);
        return Some((labels, None));
    }
    match read_grouped(text) {
        Some((labels, place)) => Some((labels, Some(place))),
        None => None,
    }
}
